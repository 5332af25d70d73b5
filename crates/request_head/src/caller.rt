//! The name of a caller, as its field tells it.
ghost use Rattle.std.specs.Prelude.{◌≡◌, option_map};
ghost use Rattle.std.specs.List.{list_all};
ghost use Rattle.request_head.specs.HeadFields.{is_visible, caller, is_caller as spec_is_caller};

fn are_visible(text: &[u8]) -> bool
    ensures { result ≡ list_all is_visible text.now }
{
    text.iter().all(|b| *b >= 0x21 && *b <= 0x7E)
}

/// Whether the text may name a caller: 1 to 128 characters, each a visible one of ASCII.
pub fn is_caller(text: &[u8]) -> bool
    ensures { result ≡ spec_is_caller text.now }
{
    !text.is_empty() && text.len() <= 128 && are_visible(text)
}

/// The caller of this name, if it is one.
#[tactic(auto, using(crate::proofs::HeadLemmas::caller_utf8))]
pub fn caller_of(text: &[u8]) -> Option<&str>
    ensures { option_map (λ who. who.now) result ≡ caller text.now }
{
    if !is_caller(text) {
        return None;
    }
    str::from_utf8(text).ok()
}
