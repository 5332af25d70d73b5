//! Many workers, compared with one server.
ghost use Rattle.std.specs.Prelude.{IsTrue};
ghost use Rattle.swarm_model.specs.Settings.{are_settings};

use crate::tests::clients::{Asked, four_pools, make_links};
use crate::tests::serving::{PIECE, STILL, listener_of, serve_links};
use std::alloc::{AllocError, Global};
use std::str;
use std::test::Fail;
use sw_base::{MemoryLink, MemoryListener, StepClock};
use swarm_machine::Pool;
use swarm_model::{Machine, Settings};
use swarm_plain::ListPool;
use swarm_policy::read_settings;
use swarm_workers::WorkStop;
use test_sessions::serve_new;

const WORKERS: u32 = 32;

const LINKS_OF_WORKER: usize = 4;

const REQUESTS_OF_LINK: u32 = 800;

/// With what each reply begins. No body has it.
const BEGIN: &str = "HTTP/1.1 ";

/// A request with the reply that it got.
#[derive(Clone, Copy)]
struct Told<'a> {
    request: &'a str,
    reply: &'a str,
    /// How long the log was as it was answered; 0 where no pool was asked.
    front: u64,
    /// Whether it added the last entry of that log.
    adds: bool,
}

/// The front that a reply tells.
fn front_of(reply: &str) -> Option<u64> {
    let (_, rest) = reply.split_once("X-Swarming-Front: ")?;
    let (front, _) = rest.split_once("\r\n")?;
    front.parse::<u64>().ok()
}

/// The number of the worker that added the last entry of the log of this length.
fn adder_of(machine: &Pool, front: u64) -> Option<u32> {
    let entry = machine.entry(front.checked_sub(1)?)?;
    Some(entry.pass)
}

/// Puts what a worker was told of the pool at a place over one link behind what is there. The front
/// is the greatest that it was told of that pool before.
fn push_told<'a>(
    all: &mut Vec<Told<'a>>,
    place: u32,
    machine: &Pool,
    worker: u32,
    seen: &mut u64,
    link: &'a MemoryLink,
    requests: &'a [Asked],
) -> Option<()> {
    let text = str::from_utf8(link.output()).ok()?;
    for (asked, reply) in requests.iter().zip(text.split(BEGIN).skip(1)) {
        if asked.place == place {
            let front = front_of(reply).unwrap_or(0);
            let adds = front > *seen && adder_of(machine, front) == Some(worker);
            *seen = front.max(*seen);
            all.push(Told {
                request: asked.text.as_str(),
                reply,
                front,
                adds,
            })
            .ok()?;
        }
    }
    Some(())
}

/// What the workers were told of the pool at a place, in the order of its log: of one front the
/// request that added the last entry comes first.
fn told_of<'a>(
    alloc: Global,
    place: u32,
    machine: &Pool,
    listener: &'a MemoryListener,
    links: &'a [Vec<Asked>],
) -> Option<Vec<Told<'a>>> {
    let mut all = Vec::new(alloc);
    let mut rest = links.iter();
    let mut worker = 0u32;
    for acceptor in listener.ended() {
        let mut seen = 0;
        for link in acceptor.served() {
            push_told(
                &mut all,
                place,
                machine,
                worker,
                &mut seen,
                link,
                rest.next()?,
            )?;
        }
        worker = worker.checked_add(1)?;
    }
    all.sort_by_key(|told| (told.front, !told.adds)).ok()?;
    Some(all)
}

/// How many of these requests one server gives the same replies, up to the first that differs.
fn count_same(alloc: Global, settings: &Settings, told: &[Told<'_>]) -> Option<usize>
    requires { IsTrue (are_settings settings.now) }
{
    let mut input = Vec::new(alloc);
    for one in told {
        input.extend_from_slice(one.request.as_bytes()).ok()?;
    }
    let mut link = MemoryLink::new(alloc, input, PIECE, Vec::new(alloc));
    let mut clock = STILL;
    serve_new::<ListPool, MemoryLink, StepClock>(alloc, settings, &mut link, &mut clock).ok()?;
    let text = str::from_utf8(link.output()).ok()?;
    let replies = text.split(BEGIN).skip(1);
    Some(
        told.iter()
            .zip(replies)
            .take_while(|(one, reply)| one.reply == *reply)
            .count(),
    )
}

#[test]
fn replies_are_those_of_one_server(rt: HostRuntime) -> Result<(), Fail> {
    let alloc = rt.alloc();
    let pools = four_pools(alloc)?;
    let settings = read_settings(alloc, pools.as_bytes())?;
    let links = make_links(alloc, WORKERS * LINKS_OF_WORKER as u32, REQUESTS_OF_LINK)?;
    let mut listener = listener_of(alloc, &links, LINKS_OF_WORKER)?;
    let (stop, machines) = serve_links(&rt, alloc, &settings, WORKERS, &mut listener)?;
    assert_eq!(rt; stop, WorkStop::NoMore);
    let mut compared = 0usize;
    let mut place = 0u32;
    for machine in &machines {
        let told = told_of(alloc, place, machine, &listener, &links).expect(
            &rt,
            "the replies are texts",
        );
        let same = count_same(alloc, &settings, &told).expect(&rt, "one server gives texts");
        assert_eq!(rt; same, told.len(), "of the pool at place {place}");
        compared = compared.saturating_add(same);
        place = place.saturating_add(1);
    }
    assert_eq!(rt; compared, 102_400);
    Ok(())
}
