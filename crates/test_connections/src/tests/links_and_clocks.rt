//! What the contracts of a console and of the system's clock can't say, and what only tests ask of a
//! link in memory.

use std::alloc::AllocError;
use std::io::{self, ErrorKind, Write};
use std::test::Fail;
use std::time::{Duration, Instant, SystemTime};
use sw_base::{Clock, ConsoleLink, Failed, Link, MemoryLink, SystemClock};

/// A writer that takes all that it is given, and whose flush fails.
#[derive(Drop)]
struct NeverFlushed;

impl Write for NeverFlushed {
    fn write(&mut self, piece: &[u8]) -> io::Result<usize> {
        Ok(piece.len())
    }

    fn flush(&mut self) -> io::Result<()> {
        Err(io::Error::from(ErrorKind::BrokenPipe))
    }
}

#[test]
fn a_flush_of_the_console_reaches_its_writer(rt: HostRuntime) {
    let input: &[u8] = b"";
    let mut link = ConsoleLink::new(input, NeverFlushed);
    assert_eq!(rt; link.write(b"xyz"), Ok(3));
    assert_eq!(rt; link.flush(), Err(Failed));
}

#[test]
fn memory_has_flushed_what_was_written_before(rt: HostRuntime) -> Result<(), AllocError> {
    let alloc = rt.alloc();
    let mut link = MemoryLink::new(alloc, Vec::new(alloc), 2, Vec::new(alloc));
    assert_eq!(rt; link.write(b"xyz"), Ok(2));
    assert_eq!(rt; link.flushed_output(), b"".as_slice());
    assert_eq!(rt; link.flush(), Ok(()));
    assert_eq!(rt; link.flushed_output(), b"xy".as_slice());
    Ok(())
}

#[test]
fn the_clock_of_the_system_has_its_seconds(rt: HostRuntime) -> Result<(), Fail> {
    let mut clock = SystemClock::new(&rt);
    let before = SystemTime::now(&rt)?.duration_since(SystemTime::UNIX_EPOCH)?;
    let now = clock.now();
    let after = SystemTime::now(&rt)?.duration_since(SystemTime::UNIX_EPOCH)?;
    // 2023-11-14T22:13:20Z, long before this test was written.
    assert!(rt; before.as_secs() > 1_700_000_000);
    assert!(rt; before.as_secs() <= now);
    assert!(rt; now <= after.as_secs());
    Ok(())
}

#[test]
fn a_wait_of_the_system_s_clock_lasts(rt: HostRuntime) -> Result<(), Fail> {
    let mut clock = SystemClock::new(&rt);
    let begun = Instant::now(&rt)?;
    clock.wait(1);
    let waited = begun.elapsed(&rt)?;
    assert!(rt; waited >= Duration::from_secs(1));
    assert!(rt; waited < Duration::from_secs(30));
    Ok(())
}
