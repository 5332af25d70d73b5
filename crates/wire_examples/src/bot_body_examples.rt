//! What the bodies of bots' calls say, as facts that the check computes.
ghost use Rattle.std.specs.Prelude.{◌≡◌, ℕ, List, [], ◌∷◌, length, pos, Some, None, true, false, Ok, Err, codes};
ghost use Rattle.base64.specs.Engines.{standard};
ghost use Rattle.base64.specs.GeneralPurpose.{decode_of};
ghost use Rattle.serde_json.specs.Data.{string, array, object, member, no_members, item, no_items};
ghost use Rattle.json_values.specs.Values.{whole};
ghost use Rattle.task_props.specs.declared.prop_rule.PropRule.TheVariants.{Count};
ghost use Rattle.bot_bodies.specs.BotFields.{bot_pair_in};
ghost use Rattle.bot_bodies.specs.Outputs.{bytes_of};
ghost use Rattle.bot_bodies.specs.Reports.{raw_end_in, last_of};

/// A key of a bot's dimensions and its values are read of their own fields.
#[tactic(auto, unfolding(bot_bodies::specs::BotFields::bot_pair_in, crate::specs::BodiesRead::fields_are_read))]
pub fn a_bot_tells_a_key_and_its_values()
    ensures { bot_pair_in (object (member (codes "key") (string (codes "os")) (member (codes "value") (array (item (string (codes "Linux")) (item (string (codes "Linux-6")) no_items))) no_members))) ≡ Ok (codes "os", codes "Linux" ∷ codes "Linux-6" ∷ []) }
{}

/// A piece of output has at most 32768 bytes.
#[tactic(auto, unfolding(bot_bodies::specs::Outputs::bytes_of))]
pub fn a_piece_has_at_most_32768_bytes()
    ensures largest { (text bytes : List ℕ) → decode_of standard text ≡ Ok bytes → length bytes ≡ 32768 → bytes_of text ≡ Ok bytes }
    ensures beyond { (text bytes : List ℕ) → decode_of standard text ≡ Ok bytes → length bytes ≡ 32769 → bytes_of text ≡ Err Count }
{}

/// How long a run took and how much of its output was dropped are read of their own fields.
#[tactic(auto, unfolding(crate::specs::BodiesRead::reports_are_read))]
pub fn a_report_tells_what_was_dropped()
    ensures { raw_end_in (object (member (codes "dropped") (whole 3) (member (codes "duration_ms") (whole 5210) (member (codes "exit_code") (whole 0) no_members)))) ≡ Ok (record { exit = record { exit_code = Some (pos 0); duration_ms = pos 5210; hard_timeout = false; io_timeout = false }; dropped = pos 3; files = [] }) }
{}

/// A report without an exit code is no end of its run, whatever else it tells.
pub fn a_run_ends_with_an_exit_code()
    ensures { last_of (record { exit_code = None; duration_ms = 5210; hard_timeout = true; io_timeout = false; dropped = 3; files = [] }) ≡ None }
{}
