//! The path of a broken rule, from the value where it is found upwards.
ghost use Rattle.std.specs.Prelude.{◌≡◌, ◌≢◌, ◌++◌, IfOk, codes, decimal, string_bytes};
ghost use Rattle.json_fields.specs.Readings.{below as spec_below};

use dimensions::Text;
use std::alloc::{AllocError, Global};
use task_props::{PropFault, PropRule};

/// A rule that is broken at a key.
pub fn broken(alloc: Global, key: &str, rule: PropRule) -> PropFault
    ensures { result ≢ PropFault.Memory → result ≡ PropFault.Broken key.now rule }
{
    match Text::from_str(alloc, key) {
        Ok(field) => PropFault::Broken { field, rule },
        Err(_) => PropFault::Memory,
    }
}

fn place_text(alloc: Global, place: usize) -> Result<String, AllocError>
    ensures { IfOk result (λ text. string_bytes text ≡ decimal place) }
{
    format!(in alloc; "{place}")
}

/// A rule that is broken at a place of a list.
pub fn broken_at(alloc: Global, place: usize, rule: PropRule) -> PropFault
    ensures { result ≢ PropFault.Memory → result ≡ PropFault.Broken (decimal place) rule }
{
    match place_text(alloc, place) {
        Ok(text) => broken(alloc, text.as_str(), rule),
        Err(_) => PropFault::Memory,
    }
}

fn path_below(alloc: Global, key: &str, path: &str) -> Result<String, AllocError>
    ensures { IfOk result (λ text. string_bytes text ≡ key.now ++ (codes "." ++ path.now)) }
{
    format!(in alloc; "{key}.{path}")
}

/// A rule that is broken below a key.
pub fn below(alloc: Global, key: &str, fault: PropFault) -> PropFault
    ensures memory { result ≢ PropFault.Memory → fault ≢ PropFault.Memory }
    ensures path { result ≢ PropFault.Memory → result ≡ spec_below key.now fault }
{
    match fault {
        PropFault::Memory => PropFault::Memory,
        PropFault::Broken { field, rule } => match path_below(alloc, key, field.as_str()) {
            Ok(path) => broken(alloc, path.as_str(), rule),
            Err(_) => PropFault::Memory,
        },
    }
}

/// A rule that is broken below a place of a list.
pub fn below_place(alloc: Global, place: usize, fault: PropFault) -> PropFault
    ensures memory { result ≢ PropFault.Memory → fault ≢ PropFault.Memory }
    ensures path { result ≢ PropFault.Memory → result ≡ spec_below (decimal place) fault }
{
    match place_text(alloc, place) {
        Ok(text) => below(alloc, text.as_str(), fault),
        Err(_) => PropFault::Memory,
    }
}
