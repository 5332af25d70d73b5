//! Many questions to boards, compared with the log.

use crate::tests::serving::{push_count, push_task, serve_all};
use std::alloc::{AllocError, Global};
use std::str;
use std::test::Fail;
use sw_base::{MemoryAcceptor, MemoryListener, StepClock};
use swarm_machine::Pool;
use swarm_model::{EntryKind, Machine, TaskState};
use swarm_policy::open_settings;
use swarm_workers::WorkStop;

/// So many workers, and as many boards.
const NUMBER: u32 = 4;

const TASKS_OF_WORKER: u32 = 12_500;

const QUESTIONS_OF_BOARD: u32 = 25_000;

/// How many bytes a call of a link moves at most.
const PIECE: usize = 4096;

/// With what each reply begins. No body has it.
const BEGIN: &str = "HTTP/1.1 ";

/// Every so many questions one is for the pending tasks alone.
const PENDING_EVERY: u32 = 32;

/// How many tasks there are after some entries.
#[derive(Clone, Copy)]
struct Count {
    all: u32,
    pending: u32,
}

/// The requests of a worker's connection. Every third task ends at once.
fn tasks(alloc: Global) -> Result<String, AllocError> {
    let mut text = String::new(alloc);
    for number in 0..TASKS_OF_WORKER {
        push_task(&mut text, number % 3 > 0)?;
    }
    Ok(text)
}

/// The requests of a board's connection.
fn questions(alloc: Global) -> Result<String, AllocError> {
    let mut text = String::new(alloc);
    for number in 0..QUESTIONS_OF_BOARD {
        push_count(&mut text, number % PENDING_EVERY == 0)?;
    }
    Ok(text)
}

/// An acceptor to which one link comes, with this text. `IsGiven`.
fn add_link(alloc: Global, listener: &mut MemoryListener, text: String) -> Result<(), AllocError> {
    let mut acceptor = MemoryAcceptor::new(alloc, Vec::new(alloc));
    acceptor.add(alloc, text.into_bytes(), PIECE, Vec::new(alloc))?;
    listener.add(acceptor)
}

/// How many tasks there are after each number of entries of the log, from none on, where all of them add tasks.
fn counts_of(alloc: Global, machine: &Pool) -> Option<Vec<Count>> {
    let mut counts = Vec::new(alloc);
    let mut count = Count { all: 0, pending: 0 };
    counts.push(count).ok()?;
    for at in 0..machine.length() {
        let EntryKind::New { state, .. } = &machine.entry(at)?.kind else {
            return None;
        };
        count.all = count.all.saturating_add(1);
        if *state == TaskState::Pending {
            count.pending = count.pending.saturating_add(1);
        }
        counts.push(count).ok()?;
    }
    Some(counts)
}

/// The front of a reply to a question, and the number that it shows.
fn read_reply(reply: &str) -> Option<(usize, u32)> {
    let (_, rest) = reply
        .strip_prefix("200 OK\r\n")?
        .split_once("X-Swarming-Front: ")?;
    let (front, body) = rest.split_once("\r\n\r\n{\"count\":")?;
    let number = body.strip_suffix("}")?;
    Some((front.parse::<usize>().ok()?, number.parse::<u32>().ok()?))
}

/// How many replies a board gave, up to the first that goes back or isn't that after its front.
fn count_right(counts: &[Count], output: &[u8]) -> Option<u32> {
    let mut front = 0usize;
    let mut number = 0u32;
    for reply in str::from_utf8(output).ok()?.split(BEGIN).skip(1) {
        let (next, came) = read_reply(reply)?;
        let count = counts.get(next)?;
        let wanted = if number % PENDING_EVERY == 0 {
            count.pending
        } else {
            count.all
        };
        if next < front || came != wanted {
            break;
        }
        front = next;
        number = number.saturating_add(1);
    }
    Some(number)
}

#[test]
fn no_board_goes_back(rt: HostRuntime) -> Result<(), Fail> {
    let alloc = rt.alloc();
    let settings = open_settings(alloc)?;
    let mut listener = MemoryListener::new(alloc, Vec::new(alloc));
    for _ in 0..NUMBER {
        add_link(alloc, &mut listener, tasks(alloc)?)?;
    }
    for _ in 0..NUMBER {
        add_link(alloc, &mut listener, questions(alloc)?)?;
    }
    let clock = StepClock {
        at: 0,
        step: 0,
        waited: 0,
    };
    let (stop, machines) = serve_all(&rt, alloc, &settings, NUMBER, clock, &mut listener)?;
    assert_eq!(rt; stop, WorkStop::NoMore);
    let counts = machines
        .first()
        .and_then(|machine| counts_of(alloc, machine))
        .expect(&rt, "each entry adds a task");
    assert_eq!(rt; counts.len(), 50_001);
    let mut right = 0u32;
    for acceptor in listener.ended().iter().skip(NUMBER as usize) {
        for link in acceptor.served() {
            let number = count_right(&counts, link.output()).expect(&rt, "replies are counts");
            assert_eq!(rt; number, QUESTIONS_OF_BOARD);
            right = right.saturating_add(number);
        }
    }
    assert_eq!(rt; right, 100_000);
    Ok(())
}
