use std::alloc::{AllocError, Global};

/// The call that fails in a run beside those that its transcript names. On each link, and of the dials,
/// calls are counted from 0.
#[derive(Clone, Copy, Debug, PartialEq, Eq)]
pub(crate) enum FailingCall {
    NoCall,
    OnConsole(u64),
    /// On the link of number `at` that comes.
    OnConnection { at: usize, number: u64 },
    Dial(u64),
    /// On the link of number `at` that is dialed. What it asks is asked again over the next one.
    OnDialed { at: usize, number: u64 },
}

impl FailingCall {
    pub(crate) fn on_console(self) -> Option<u64> {
        match self {
            FailingCall::OnConsole(number) => Some(number),
            _ => None,
        }
    }

    pub(crate) fn on_connection(self, link: usize) -> Option<u64> {
        match self {
            FailingCall::OnConnection { at, number } if at == link => Some(number),
            _ => None,
        }
    }

    pub(crate) fn dial(self) -> Option<u64> {
        match self {
            FailingCall::Dial(number) => Some(number),
            _ => None,
        }
    }

    pub(crate) fn on_dialed(self, link: usize) -> Option<u64> {
        match self {
            FailingCall::OnDialed { at, number } if at == link => Some(number),
            _ => None,
        }
    }

    /// Which of the conversations over dialed links goes over the link of this number: that of the link on
    /// which the call failed goes over the next one too.
    pub(crate) fn dialed_conversation(self, link: usize) -> usize {
        match self {
            FailingCall::OnDialed { at, .. } if at < link => link.saturating_sub(1),
            _ => link,
        }
    }

    /// How many links are dialed for so many conversations.
    pub(crate) fn dialed_links(self, conversations: usize) -> usize {
        match self {
            FailingCall::OnDialed { .. } => conversations.saturating_add(1),
            _ => conversations,
        }
    }
}

/// The numbers of calls that fail: these, and one more where there is one.
pub(crate) fn with_one_more(
    alloc: Global,
    fails: &[u64],
    more: Option<u64>,
) -> Result<Vec<u64>, AllocError> {
    let mut fails = Vec::from_slice(alloc, fails)?;
    if let Some(number) = more {
        fails.push(number)?;
    }
    Ok(fails)
}
