use crate::{TextFault, TranscriptError};
use std::alloc::Global;
use std::str::FromStr;

/// The error of a part that is not what is wanted there, or want of memory for it.
pub(crate) fn form_error(
    alloc: Global,
    line: usize,
    wanted: &'static str,
    came: &str,
) -> TranscriptError {
    match String::from_str(alloc, came) {
        Ok(came) => TextFault::Form { wanted, came }.at(line),
        Err(_) => TranscriptError::Memory,
    }
}

/// A number of a line.
pub(crate) fn read_number<N: FromStr>(
    alloc: Global,
    line: usize,
    text: &str,
) -> Result<N, TranscriptError>
where
    N::Err: Drop,
{
    match text.parse::<N>() {
        Ok(number) => Ok(number),
        Err(_) => Err(form_error(alloc, line, "a number", text)),
    }
}

/// The numbers of a line, with white space between them.
pub(crate) fn read_numbers(
    alloc: Global,
    line: usize,
    text: &str,
) -> Result<Vec<u64>, TranscriptError> {
    let mut numbers = Vec::new(alloc);
    for word in text.split_whitespace() {
        numbers.push(read_number(alloc, line, word)?)?;
    }
    Ok(numbers)
}

/// A byte by its digits in base 16.
pub(crate) fn read_byte(alloc: Global, line: usize, digits: &str) -> Result<u8, TranscriptError> {
    match u8::from_str_radix(digits, 16) {
        Ok(byte) => Ok(byte),
        Err(_) => Err(form_error(alloc, line, "a byte in base 16", digits)),
    }
}

/// Whether a text is letters, digits and `_`.
pub(crate) fn is_name(text: &str) -> bool {
    !text.is_empty()
        && text
            .bytes()
            .all(|it| it.is_ascii_alphanumeric() || it == b'_')
}

/// Whether a text is a status with its reason, as `200 OK`.
pub(crate) fn is_status(text: &str) -> bool {
    match text.as_bytes() {
        [a, b, c, b' ', _, ..] => a.is_ascii_digit() && b.is_ascii_digit() && c.is_ascii_digit(),
        _ => false,
    }
}

/// Whether a text is a front, or the `-` that stands for none.
pub(crate) fn is_front(text: &str) -> bool {
    text == "-" || !text.is_empty() && text.bytes().all(|it| it.is_ascii_digit())
}
