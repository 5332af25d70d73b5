//! Worked examples, computed from the definitions.
ghost use Rattle.std.specs.Prelude.{◌≡◌, ◌++◌, ◌∷◌, [], map, true, false};
ghost use Rattle.std.specs.List.{range_with_len};
ghost use Rattle.drill_requests.specs.Draws.{draw};
ghost use Rattle.drill_requests.specs.Requests.{handshakes, requests};
ghost use Rattle.drill_requests.specs.declared.request.DrillRequest.TheVariants.{NewTask, Claim, FinalUpdate};

/// The first nine numbers that are drawn from 1.
pub fn first_draws_from_one()
    ensures { map (draw 1) (range_with_len 1 9) ≡ 16838 ∷ 5758 ∷ 10113 ∷ 17515 ∷ 31051 ∷ 5627 ∷ 23010 ∷ 7419 ∷ 16212 ∷ [] }
{}

/// Three cycles from 1 are 17 requests: the first task ends with exit code 0, and the runs of the
/// other two take too long.
pub fn three_cycles_from_one()
    ensures { requests 1 3 ≡ handshakes ++ NewTask 1 198 ∷ Claim 7 1 ∷ FinalUpdate 7 1 0 false ∷ NewTask 2 107 ∷ Claim 4 2 ∷ FinalUpdate 4 2 137 true ∷ NewTask 3 226 ∷ Claim 4 3 ∷ FinalUpdate 4 3 137 true ∷ [] }
{}
