//! Tasks that a board shows once they were posted.

use crate::tests::posted::{PostClock, PostedAcceptor, PostedListener};
use crate::tests::serving::{push_count, push_task, serve_all};
use std::sync::atomic::AtomicU32;
use std::test::Fail;
use swarm_policy::open_settings;
use swarm_workers::WorkStop;

#[test]
fn a_post_is_seen(rt: HostRuntime) -> Result<(), Fail> {
    let alloc = rt.alloc();
    let settings = open_settings(alloc)?;
    let mut tasks = String::new(alloc);
    push_task(&mut tasks, true)?;
    push_task(&mut tasks, true)?;
    let mut question = String::new(alloc);
    push_count(&mut question, false)?;
    let done = AtomicU32::new(0);
    let waits = AtomicU32::new(0);
    let board = PostedAcceptor {
        alloc,
        is_board: true,
        done: &done,
        waits: &waits,
        input: Some(question.into_bytes()),
        ended: None,
    };
    let worker = PostedAcceptor {
        alloc,
        is_board: false,
        done: &done,
        waits: &waits,
        input: Some(tasks.into_bytes()),
        ended: None,
    };
    let mut listener = PostedListener {
        alloc,
        acceptors: vec![in alloc; board, worker]?,
        ended: Vec::new(alloc),
    };
    let clock = PostClock {
        done: &done,
        waits: &waits,
    };
    let (stop, _) = serve_all(&rt, alloc, &settings, 1, clock, &mut listener)?;
    assert_eq!(rt; stop, WorkStop::NoMore);
    assert_eq!(rt; listener.ended.len(), 2);
    let link = listener.ended[1]
        .ended
        .as_ref()
        .expect(&rt, "the board has served its link");
    assert_eq!(rt;
        link.output(),
        b"HTTP/1.1 200 OK\r\nContent-Length: 11\r\nContent-Type: application/json\r\nX-Swarming-Front: 2\r\n\r\n{\"count\":2}".as_slice()
    );
    Ok(())
}
