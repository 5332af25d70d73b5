ghost use Rattle.std.specs.Prelude.{◌≡◌, ◌<◌, ◌^◌, true};
ghost use Rattle.std.specs.List.{list_all};
ghost use Rattle.std.specs.Char.{is_ascii_digit};
ghost use Rattle.std.specs.Str.Parse.{digits_value};
ghost use Rattle.json_fields.specs.Readings.{Gives};
ghost use Rattle.json_fields.specs.Numbers.{is_whole_text, text_number as spec_text_number};

use task_props::PropRule;

fn are_digits(text: &[u8]) -> bool
    ensures { result ≡ list_all is_ascii_digit text.now }
{
    text.iter().all(|b| b.is_ascii_digit())
}

fn is_whole(text: &[u8]) -> bool
    ensures { result ≡ is_whole_text text.now }
{
    if text.is_empty() {
        return false;
    }
    if text.len() > 20 {
        return false;
    }
    if !are_digits(text) {
        return false;
    }
    if text.len() == 1 {
        return true;
    }
    text[0] != b'0'
}

fn whole_number(text: &str) -> u128
    requires { is_whole_text text.now ≡ true }
    ensures value { result ≡ digits_value 10 text.now }
    ensures small { result < 10 ^ 20 }
{
    match text.parse::<u128>() {
        Ok(number) => number,
        Err(_) => 0,
    }
}

/// The whole number that a text writes: 1 to 20 digits with no needless 0, after a minus where it
/// is below 0.
#[tactic(auto, unfolding(crate::specs::Numbers::text_number))]
pub(crate) fn text_number(text: &str) -> Result<i128, PropRule>
    ensures { Gives (λ z. z) result (spec_text_number text.now) }
{
    if is_whole(text.as_bytes()) {
        return Ok(whole_number(text) as i128);
    }
    let Some(rest) = text.strip_prefix("-") else {
        return Err(PropRule::WrongType);
    };
    if !is_whole(rest.as_bytes()) {
        return Err(PropRule::WrongType);
    }
    if rest.as_bytes()[0] == b'0' {
        return Err(PropRule::WrongType);
    }
    Ok(-(whole_number(rest) as i128))
}
