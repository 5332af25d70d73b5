//! The rules on the slices of a task as a whole.
ghost use Rattle.std.specs.Prelude.{◌≡◌};
ghost use Rattle.std.specs.List.{list_any};
ghost use Rattle.task_props.specs.Slices.{is_like as spec_is_like, has_repeated, pool_of_slices, are_of_one_pool, slices_rule};

use task_props::{PropRule, Slice};

/// Whether both run the same, on the same bots.
fn is_like(slice: &Slice, other: &Slice) -> bool
    ensures { result ≡ spec_is_like slice.now other.now }
{
    slice.properties == other.properties
}

fn is_among(slice: &Slice, others: &[Slice]) -> bool
    ensures { result ≡ list_any (spec_is_like slice.now) others.now }
{
    others.iter().any(|other| is_like(slice, other))
}

/// Whether a slice is like a later one.
fn has_repeated(slices: &[Slice]) -> bool
    ensures { result ≡ has_repeated slices.now }
{
    for place in 0..slices.len() {
        if is_among(&slices[place], &slices[place + 1..]) {
            return true;
        }
    }
    false
}

/// The pool of the first slice, or the empty text where there is none.
fn pool_of(slices: &[Slice]) -> &str
    ensures { result.now ≡ pool_of_slices slices.now }
{
    match slices.first() {
        Some(slice) => slice.pool(),
        None => "",
    }
}

fn are_of_one_pool(slices: &[Slice]) -> bool
    ensures { result ≡ are_of_one_pool slices.now }
{
    let pool = pool_of(slices);
    slices.iter().all(|slice| slice.pool() == pool)
}

/// The rule that slices break as a whole: two that run the same, or pools that differ.
pub fn slices_rule(slices: &[Slice]) -> Option<PropRule>
    ensures { result ≡ slices_rule slices.now }
{
    if has_repeated(slices) {
        return Some(PropRule::Repeated);
    }
    if !are_of_one_pool(slices) {
        return Some(PropRule::Pool);
    }
    None
}
