//! The outside of the program: links that carry bytes both ways, what gives such links, clocks, and
//! files.
//!
//! A [`Link`] is read and written in pieces, and each call of it may fail. Its contract speaks of
//! one record, its state: the bytes that it has left to give, those written to it, those flushed,
//! and how often a read or a write has failed. The bytes may be untold, as at a socket: then a
//! contract says nothing of them, and says the same of the counts. So a theorem over any link
//! holds word for word over memory, where all is told, and over the console. A [`Failed`] comes
//! only from a call in which the count of its side rose, and such a call moves no byte.
//! A [`Listener`] listens at an address and gives [`Acceptor`]s, one for each worker. An acceptor
//! gives the links that come to it, and takes each back as it ends. A [`Dialer`] opens links to
//! addresses. Where they are told, their states hold the links that are still to come, or the bytes
//! that the next ones give, and the links that ended, as they ended. How many were given that haven't
//! ended is counted, so that an end always finds its room and can't fail.
//! A [`Clock`] answers moments, and where it tells them, the next ones are known before. A caller can
//! wait at it, and the seconds that were waited are told as one sum. A twin of it, for another
//! worker, has the same moments ahead.
//! [`Files`] are loaded and saved whole, by their paths. Their state is what they hold at each path,
//! which may be untold as the bytes of a link, and how often a call failed. An answer of a load is
//! what is held, a save changes what is held at its path alone, and [`FileFault::Failed`] comes only
//! from a call in which that count rose.
//! [`StartFault`] is why what must stand before the first request could not be reached.
//! [`MemoryLink`], [`MemoryAcceptor`], [`MemoryListener`], [`MemoryDialer`], [`StepClock`],
//! [`ListClock`] and [`MemoryFiles`] tell all; [`ConsoleLink`] tells what its reader and writer do;
//! [`SystemClock`] and [`DiskFiles`] tell nothing.
#![tactic(auto)]

mod acceptor;
mod clock;
mod console_link;
mod dialer;
mod disk_files;
mod failed;
mod failing;
mod file_fault;
mod files;
mod link;
mod list_clock;
mod listener;
mod memory_acceptor;
mod memory_dialer;
mod memory_files;
mod memory_link;
mod memory_listener;
mod start_fault;
mod step_clock;
mod system_clock;

pub use acceptor::Acceptor;
pub use clock::Clock;
pub use console_link::ConsoleLink;
pub use dialer::Dialer;
pub use disk_files::DiskFiles;
pub use failed::Failed;
pub use failing::is_failing;
pub use file_fault::FileFault;
pub use files::Files;
pub use link::Link;
pub use list_clock::ListClock;
pub use listener::Listener;
pub use memory_acceptor::MemoryAcceptor;
pub use memory_dialer::MemoryDialer;
pub use memory_files::MemoryFiles;
pub use memory_link::MemoryLink;
pub use memory_listener::MemoryListener;
pub use start_fault::StartFault;
pub use step_clock::StepClock;
pub use system_clock::SystemClock;
