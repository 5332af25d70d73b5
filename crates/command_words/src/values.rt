//! The values of options, from what `clap` found.

ghost use Rattle.std.specs.Prelude.{◌≡◌, ◌≤◌, IfOk, IfSome, codes, option_map, string_bytes};
ghost use Rattle.clap.specs.Words.{first_of, found_of, rows_of, subcommand_rows_of};
ghost use Rattle.command_words.specs.Values.{client_in, flag_at, number_at, number_in, number_within};

use clap::ArgMatches;
use std::alloc::{AllocError, Global};

/// The subcommand's name, and what was found of its own words.
pub(crate) fn subcommand<'f, 'a>(found: &'f ArgMatches<'a>) -> Option<(&'a str, &'f ArgMatches<'a>)>
    ensures { option_map (λ p. (p.0.now, rows_of (found_of p.1.now))) result ≡ subcommand_rows_of found.now }
{
    found.subcommand()
}

/// The text of an option or a word, by its name.
fn written<'a>(found: &ArgMatches<'a>, id: &str) -> Option<&'a str>
    ensures { option_map (λ s. s.now) result ≡ first_of id.now (rows_of (found_of found.now)) }
{
    found.get_str(id)
}

/// A copy of the text of an option or a word, by its name.
pub(crate) fn text(
    alloc: Global,
    found: &ArgMatches<'_>,
    id: &str,
) -> Result<Option<String>, AllocError>
    ensures { IfOk result (λ text. option_map string_bytes text ≡ first_of id.now (rows_of (found_of found.now))) }
{
    match written(found, id) {
        Some(text) => Ok(Some(String::from_str(alloc, text)?)),
        None => Ok(None),
    }
}

fn within(number: u64, least: u64, most: u64) -> Option<u64>
    ensures value { result ≡ number_within least most number }
    ensures range { IfSome result (λ n. least ≤ n × n ≤ most) }
{
    if least <= number && number <= most {
        Some(number)
    } else {
        None
    }
}

fn read_number(text: &str, least: u64, most: u64) -> Option<u64>
    ensures value { result ≡ number_in least most text.now }
    ensures range { IfSome result (λ n. least ≤ n × n ≤ most) }
{
    match text.parse::<u64>() {
        Ok(number) => within(number, least, most),
        Err(_) => None,
    }
}

/// The number of an option, by its name, where it lies from `least` to `most`.
pub(crate) fn large_number(found: &ArgMatches<'_>, id: &str, least: u64, most: u64) -> Option<u64>
    ensures value { result ≡ number_at id.now least most (rows_of (found_of found.now)) }
    ensures range { IfSome result (λ n. least ≤ n × n ≤ most) }
{
    match written(found, id) {
        Some(text) => read_number(text, least, most),
        None => None,
    }
}

/// The number of an option, by its name, where it lies from `least` to `most`.
pub(crate) fn number(found: &ArgMatches<'_>, id: &str, least: u32, most: u32) -> Option<u32>
    ensures value { result ≡ number_at id.now least most (rows_of (found_of found.now)) }
    ensures range { IfSome result (λ n. least ≤ n × n ≤ most) }
{
    match large_number(found, id, least as u64, most as u64) {
        Some(number) => Some(number as u32),
        None => None,
    }
}

/// Whether a flag was given, by its name.
pub(crate) fn flag(found: &ArgMatches<'_>, id: &str) -> bool
    ensures { result ≡ flag_at id.now (rows_of (found_of found.now)) }
{
    written(found, id).unwrap_or("") == "true"
}

/// The server and the caller.
pub(crate) fn client(
    alloc: Global,
    found: &ArgMatches<'_>,
) -> Result<Option<(String, String)>, AllocError>
    ensures { IfOk result (λ client. option_map (λ c. (string_bytes c.0, string_bytes c.1)) client ≡ client_in (rows_of (found_of found.now))) }
{
    let server = text(alloc, found, "server")?;
    let caller = text(alloc, found, "caller")?;
    match (server, caller) {
        (Some(server), Some(caller)) => Ok(Some((server, caller))),
        _ => Ok(None),
    }
}
