//! Kept lines at work.
ghost use Rattle.std.specs.Prelude.{◌≡◌, Some, None, codes};
ghost use Rattle.swarm_model.specs.declared.entry.EntryKind.TheVariants as kind;
ghost use Rattle.entry_lines.specs.Lines.{line, if_line};
ghost use Rattle.wire_examples.specs.LineExamples.{hello_digest, claim_line, update_line};

/// The line of a claim names the bot, its claim and the task.
#[tactic(auto, unfolding(crate::specs::LineExamples::lines_are_written))]
pub fn the_line_of_a_claim()
    ensures { line (record { moment = 1000; pass = 0; kind = kind.Claim 1 1 (codes "c1") }) ≡ claim_line }
{}

/// The line of a report has its piece of output: where it begins, its size and its digest.
#[tactic(auto, unfolding(crate::specs::LineExamples::lines_are_written))]
pub fn the_line_of_a_report()
    ensures { line (record { moment = 1001; pass = 0; kind = kind.Update 1 1 1 (Some (record { start = 0; size = 6; digest = hello_digest })) None }) ≡ update_line }
{}

/// The same with a space in it is no line.
#[tactic(auto, unfolding(crate::specs::LineExamples::lines_are_written))]
pub fn another_spelling_is_no_line()
    ensures { if_line (codes "{\"b\":1, \"claim\":\"c1\",\"k\":\"claim\",\"m\":1000,\"p\":0,\"t\":1}") (record { moment = 1000; pass = 0; kind = kind.Claim 1 1 (codes "c1") }) ≡ None }
{}
