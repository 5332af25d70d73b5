//! What the option `--dimensions` of a bot says, as facts that the check computes.
ghost use Rattle.std.specs.Prelude.{◌≡◌, ◌<◌, List, ◌∷◌, [], length, Some, None, false, codes};
ghost use Rattle.bot_dimensions.specs.Pairs.{are_fitting, fitting_pairs};
ghost use Rattle.bot_dimensions.specs.Groups.{groups_of};
ghost use Rattle.dimensions.specs.declared.text.Text.{Text};

/// Pairs are cut at each `;`, and each pair at its first equals sign.
pub fn a_pair_is_cut_at_its_first_equals_sign()
    ensures { fitting_pairs (codes "rack-1") (codes "default") (codes "os=Linux;cpu=a=b") ≡ Some ((codes "os", codes "Linux") ∷ (codes "cpu", codes "a=b") ∷ []) }
{}

/// A key that comes several times stands once, where it came first, with all its values.
pub fn a_key_stands_once_with_all_its_values()
    ensures { groups_of ((codes "os", codes "Linux") ∷ (codes "cpu", codes "x86-64") ∷ (codes "os", codes "Linux-6") ∷ [])
        ≡ (codes "os", codes "Linux" ∷ codes "Linux-6" ∷ []) ∷ (codes "cpu", codes "x86-64" ∷ []) ∷ [] }
{}

/// The keys that the bot itself adds may not stand there.
pub fn keys_that_the_bot_adds_are_refused()
    ensures pool { fitting_pairs (codes "rack-1") (codes "default") (codes "pool=default") ≡ None }
    ensures id { fitting_pairs (codes "rack-1") (codes "default") (codes "id=rack-1") ≡ None }
    ensures caches { fitting_pairs (codes "rack-1") (codes "default") (codes "caches=builder") ≡ None }
{}

/// Pairs of more than 61 keys never fit: with its own three keys a bot has 64 at most.
pub fn there_are_at_most_61_keys()
    ensures { (name pool : Text) (pairs : List (Text × Text)) → 61 < length (groups_of pairs) → are_fitting name pool pairs ≡ false }
{}

/// A text fits only where the server takes a bot with its pairs: a pool has a name, a value is not
/// empty, and a key has no value twice.
pub fn what_the_server_refuses_fits_no_bot()
    ensures pool { fitting_pairs (codes "rack-1") [] (codes "os=Linux") ≡ None }
    ensures value { fitting_pairs (codes "rack-1") (codes "default") (codes "os=") ≡ None }
    ensures twice { fitting_pairs (codes "rack-1") (codes "default") (codes "os=Linux;os=Linux") ≡ None }
    ensures taken { fitting_pairs (codes "rack-1") (codes "default") [] ≡ Some [] }
{}
