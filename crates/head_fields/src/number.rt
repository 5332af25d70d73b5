//! Numbers that a head tells in digits.
ghost use Rattle.std.specs.Prelude.{◌≡◌, ◌≤◌, IsTrue, length};
ghost use Rattle.std.specs.List.{list_all};
ghost use Rattle.std.specs.Char.{is_ascii_digit};
ghost use Rattle.std.specs.Str.Parse.{digits_value};
ghost use Rattle.head_fields.specs.Numbers.{is_number as spec_is_number, number, is_broken, is_absent, value_or_zero};

/// What the values of a field tell that may stand there once.
#[derive(Clone, Copy, Debug, PartialEq, Eq)]
pub enum Number {
    Absent,
    Told(u64),
    /// There are several, or one that is not of so many digits as it may have.
    Broken,
}

fn are_digits(text: &[u8]) -> bool
    ensures { result ≡ list_all is_ascii_digit text.now }
{
    text.iter().all(|b| b.is_ascii_digit())
}

fn is_number(text: &[u8], most: usize) -> bool
    ensures { result ≡ spec_is_number most text.now }
{
    !text.is_empty() && text.len() <= most && are_digits(text)
}

fn value_of(digits: &[u8]) -> u64
    requires short { length digits.now ≤ 19 }
    requires digits { IsTrue (list_all is_ascii_digit digits.now) }
    ensures { result ≡ digits_value 10 digits.now }
{
    let mut number: u64 = 0;
    for digit in digits {
        number = number * 10 + u64::from(*digit - b'0');
    }
    number
}

impl Number {
    /// What a value of 1 to `most` digits tells.
    pub fn of(text: &[u8], most: usize) -> Number
        requires { most ≤ 19 }
        ensures { result ≡ number most text.now }
    {
        if is_number(text, most) {
            Number::Told(value_of(text))
        } else {
            Number::Broken
        }
    }

    pub fn is_broken(self) -> bool
        ensures { result ≡ is_broken self }
    {
        matches!(self, Number::Broken)
    }

    pub fn is_absent(self) -> bool
        ensures { result ≡ is_absent self }
    {
        matches!(self, Number::Absent)
    }

    pub fn value_or_zero(self) -> u64
        ensures { result ≡ value_or_zero self }
    {
        match self {
            Number::Told(value) => value,
            Number::Absent | Number::Broken => 0,
        }
    }
}
