//! What calls ask for, as facts that the check computes.
ghost use Rattle.std.specs.Prelude.{◌≡◌, [], ◌∷◌, Some, None, Err, codes};
ghost use Rattle.std.specs.Option.{option_map};
ghost use Rattle.std.specs.Result.{result_ok};
ghost use Rattle.serde_json.specs.Data.{string, object, member, no_members};
ghost use Rattle.json_values.specs.Values.{whole};
ghost use Rattle.task_props.specs.declared.prop_rule.PropRule.TheVariants.{Missing, Grammar};
ghost use Rattle.swarm_model.specs.Examples.{settings};
ghost use Rattle.swarm_wire.specs.declared.asked.WireFault.TheVariants.{BadField};
ghost use Rattle.swarm_wire.specs.Asking.{count_of, put_of, update_of};
ghost use Rattle.swarm_wire.specs.Pools.{pool_place};

/// A pool is found by its whole name.
#[tactic(auto, unfolding(swarm_wire::specs::Pools::pool_place))]
pub fn a_pool_is_found_by_its_name()
    ensures second { pool_place (settings ∷ (record settings { place = 1; name = codes "lab" }) ∷ []) (codes "lab") ≡ Some 1 }
    ensures none { pool_place (settings ∷ []) (codes "lab") ≡ None }
{}

/// A body that is JSON and breaks a rule is told the field and the rule.
#[tactic(auto, unfolding(swarm_wire::specs::Asking::count_of, task_bodies::specs::Counts::count_in, crate::specs::BodiesRead::fields_are_read))]
pub fn a_broken_rule_is_told_with_its_field()
    ensures { count_of (settings ∷ []) (object no_members) ≡ Err (BadField (codes "pool") Missing) }
{}

/// Of a digest that is none and a pool that there isn't the digest is told.
#[tactic(auto, unfolding(swarm_wire::specs::Asking::put_of, task_props::specs::Digests::digest_in))]
pub fn the_digest_of_a_blob_is_read_before_its_pool()
    ensures { put_of [] (record { pool = codes "lab"; digest = codes "5891" }) [] ≡ Err (BadField (codes "digest") Grammar) }
{}

/// A report comes with the bytes of its piece of output, which stand in it as base64.
#[tactic(auto, unfolding(swarm_wire::specs::Asking::update_of, crate::specs::BodiesRead::reports_are_read))]
pub fn a_report_comes_with_the_bytes_of_its_output()
    ensures { option_map (λ asked. asked.bytes) (result_ok (update_of (settings ∷ []) (object (member (codes "bot_id") (string (codes "b1")) (member (codes "output") (string (codes "aGVsbG8K")) (member (codes "output_chunk_start") (whole 0) (member (codes "task_id") (string (codes "11")) no_members))))))) ≡ Some (codes "hello\n") }
{}
