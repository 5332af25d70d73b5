//! What a caller is told, and what it adds to the log.
ghost use Rattle.std.specs.Prelude.{◌≡◌};
ghost use Rattle.swarm_model.specs.Answers.{reply_only, refusal, reply_with_entry, unfit_refusal};

use swarm_model::{Decision, EntryKind, Reply, Rule, Unfit};

/// A reply that adds nothing.
pub fn reply_only(reply: Reply) -> Decision
    ensures { result ≡ reply_only reply }
{
    Decision { reply, entry: None }
}

/// A reply that adds an entry.
pub fn reply_with_entry(reply: Reply, entry: EntryKind) -> Decision
    ensures { result ≡ reply_with_entry reply entry }
{
    Decision {
        reply,
        entry: Some(entry),
    }
}

pub fn refusal(why: Rule) -> Decision
    ensures { result ≡ refusal why }
{
    reply_only(Reply::No(why))
}

/// The refusal of a bot that gets no work.
pub fn unfit_refusal(why: Unfit) -> Decision
    ensures { result ≡ unfit_refusal why }
{
    refusal(Rule::BotUnfit { why })
}
