use std::io;

/// How many characters of a failure are shown on standard error.
const SHORT: usize = 280;

/// Tells of a failure, whole on standard output and cut short on standard error, and answers `false`:
/// not all has passed.
///
/// # Errors
///
/// The output cannot be written, or there is no memory.
pub fn tell<R: Print + Eprint + AllocGlobal>(rt: &R, failure: &str) -> io::Result<bool> {
    let short: String = failure.chars().take(SHORT).collect(rt.alloc())?;
    eprintln!(rt; "{short}")?;
    println!(rt; "{failure}")?;
    Ok(false)
}
