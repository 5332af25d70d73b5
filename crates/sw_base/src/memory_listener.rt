ghost use Rattle.std.specs.Prelude.{◌≡◌, ◌≤◌, ◌+◌, [], All, map, length, drop, IfOk, OnErr, Some};
ghost use Rattle.std.specs.String.{string_bytes};
ghost use Rattle.std.specs.Vec.{vec_capacity};
ghost use Rattle.sw_base.specs.Acceptors.{untouched};
ghost use Rattle.sw_base.specs.Listeners.{IsGiven, IsTaken, first_of};

use crate::failing::is_failing;
use crate::{Acceptor, Listener, MemoryAcceptor, StartFault};
use std::alloc::{AllocError, Global};
use std::collections::VecDeque;

/// A listener in memory, which tells all. Calls of `listen` can be made to fail. Past the last
/// acceptor that was added, it gives ones to which no link comes.
#[derive(Drop)]
pub struct MemoryListener {
    alloc: Global,
    waiting: VecDeque<MemoryAcceptor>,
    listened: Vec<String>,
    ended: Vec<MemoryAcceptor>,
    // How many acceptors were given and not shut.
    out: usize,
    calls: u64,
    fails: Vec<u64>,
    faults: u64,
    ghost room: { length ended.items + out ≤ vec_capacity ended },
    ghost given: { All (λ a. IsGiven (⟦<MemoryAcceptor as Acceptor>⟧.state a)) waiting.items },
}

impl MemoryListener {
    ghost use Rattle.std.specs.Prelude.{◌++◌, ◌∷◌, OnOk};
    ghost use Rattle.sw_base.specs.Listeners.{quiet, with_waiting};

    /// A listener that has no acceptors yet. The calls of `listen` that fail are those
    /// whose number stands in `fails`, counted from 0.
    pub fn new(alloc: Global, fails: Vec<u64>) -> MemoryListener
        ensures quiet { ⟦<MemoryListener as Listener>⟧.state result ≡ quiet }
    {
        MemoryListener {
            alloc,
            waiting: VecDeque::new(alloc),
            listened: Vec::new(alloc),
            ended: Vec::new(alloc),
            out: 0,
            calls: 0,
            fails,
            faults: 0,
        }
    }

    /// One more acceptor to be given, last.
    ///
    /// # Errors
    ///
    /// There was no memory, and nothing changed but that `acceptor` is gone.
    pub fn add(&mut self, acceptor: MemoryAcceptor) -> Result<(), AllocError>
        requires { IsGiven (⟦<MemoryAcceptor as Acceptor>⟧.state acceptor) }
        ensures added { OnOk result (⟦<MemoryListener as Listener>⟧.state self.new ≡ with_waiting (⟦<MemoryListener as Listener>⟧.state self.old) (⟦<MemoryAcceptor as Acceptor>⟧.state acceptor)) }
        ensures same { OnErr result (⟦<MemoryListener as Listener>⟧.state self.new ≡ ⟦<MemoryListener as Listener>⟧.state self.old) }
    {
        self.waiting.reserve(1)?;
        self.waiting.push_back_reserved(acceptor);
        Ok(())
    }

    /// The acceptors that were shut, in order.
    pub fn ended(&self) -> &[MemoryAcceptor]
        ensures told { Some (map ⟦<MemoryAcceptor as Acceptor>⟧.state result.now) ≡ (⟦<MemoryListener as Listener>⟧.state self.now).ended }
    {
        &self.ended
    }
}

/// An acceptor to which nothing comes.
trait Untouched: Acceptor {
    fn untouched(alloc: Global) -> Self
        ensures { Self.state result ≡ untouched [] };
}

impl Untouched for MemoryAcceptor {
    fn untouched(alloc: Global) -> MemoryAcceptor {
        MemoryAcceptor::new(alloc, Vec::new(alloc))
    }
}

/// The next acceptor that waits, or one to which nothing comes.
fn next_waiting<A: Untouched + Drop>(alloc: Global, waiting: &mut VecDeque<A>) -> A
    requires given { All (λ a. IsGiven (A.state a)) waiting.old.items }
    ensures first { A.state result ≡ first_of (map A.state waiting.old.items) }
    ensures fresh { IsGiven (A.state result) }
    ensures rest { waiting.new.items ≡ drop 1 waiting.old.items }
{
    match waiting.pop_front() {
        Some(acceptor) => acceptor,
        None => A::untouched(alloc),
    }
}

/// So many of them, in order.
fn next_ones<A: Untouched + Drop>(
    alloc: Global,
    waiting: &mut VecDeque<A>,
    number: usize,
) -> Result<Vec<A>, AllocError>
    requires given { All (λ a. IsGiven (A.state a)) waiting.old.items }
    ensures given { IfOk result (λ v. IsTaken A.state waiting.old.items waiting.new.items number v.items) }
    ensures kept { OnErr result (waiting.new ≡ waiting.old) }
{
    let mut given = Vec::with_capacity(alloc, number)?;
    'numbers: for _ in 0..number {
        given.push_reserved(next_waiting(alloc, waiting));
    }
    Ok(given)
}

impl Listener for MemoryListener {
    type Acceptor = MemoryAcceptor;

    ghost state = { λ l. record {
      waiting = Some (map ⟦<MemoryAcceptor as Acceptor>⟧.state l.waiting.items);
      listened = Some (map string_bytes l.listened.items);
      ended = Some (map ⟦<MemoryAcceptor as Acceptor>⟧.state l.ended.items);
      out = Some l.out;
      faults = l.faults;
    } };

    fn listen(&mut self, address: &str, workers: u32) -> Result<Vec<MemoryAcceptor>, StartFault> {
        if is_failing(&mut self.calls, &self.fails) {
            self.faults = self.faults.saturating_add(1);
            return Err(StartFault::Failed);
        }
        let number = workers as usize;
        let Some(out) = self.out.checked_add(number) else {
            return Err(StartFault::Memory);
        };
        self.ended.reserve(out)?;
        self.listened.reserve(1)?;
        let name = String::from_str(self.alloc, address)?;
        let given = next_ones(self.alloc, &mut self.waiting, number)?;
        self.listened.push_reserved(name);
        self.out = out;
        Ok(given)
    }

    fn shut(&mut self, acceptor: MemoryAcceptor) {
        if acceptor.faults() > 0 {
            self.faults = self.faults.saturating_add(1);
        }
        self.out -= 1;
        self.ended.push_reserved(acceptor);
    }
}
