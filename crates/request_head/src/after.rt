ghost use Rattle.std.specs.Prelude.{◌≡◌};
ghost use Rattle.request_head.specs.HeadFields.{after_number};

use head_fields::Number;

/// The length of the log that a caller has seen, as its X-Swarming-After field tells it.
#[derive(Clone, Copy, Debug, PartialEq, Eq)]
pub enum After {
    /// There is no such field.
    Absent,
    /// There is one, of 1 to 19 digits.
    Front(u64),
    /// There are several, or one that is no such number.
    Broken,
}

impl After {
    pub fn from_number(number: Number) -> After
        ensures { result ≡ after_number number }
    {
        match number {
            Number::Absent => After::Absent,
            Number::Told(front) => After::Front(front),
            Number::Broken => After::Broken,
        }
    }
}
