//! Two workers with a connection each.

use crate::tests::clients::{Asked, four_pools, new_task};
use crate::tests::meeting::{MeetingAcceptor, MeetingListener};
use crate::tests::serving::{listener_of, serve_links};
use drill_requests::Draws;
use pool_summaries::summary;
use std::alloc::{AllocError, Global};
use std::sync::atomic::AtomicBool;
use std::test::Fail;
use swarm_policy::{open_settings, read_settings};
use swarm_workers::WorkStop;

/// The reply to a request for a task, of this id and as the last entry of a log of this length.
fn task_made(alloc: Global, id: &str, front: u32) -> Result<String, AllocError> {
    let body = format!(in alloc; r#"{{"state":"PENDING","task_id":"{id}"}}"#)?;
    let size = body.len();
    format!(in alloc;
        "HTTP/1.1 200 OK\r\nContent-Length: {size}\r\nContent-Type: application/json\r\nX-Swarming-Front: {front}\r\n\r\n{body}"
    )
}

/// A connection with a request for a task of the pool.
fn one_task(alloc: Global, pool: &str) -> Result<Vec<Asked>, AllocError> {
    let text = new_task(alloc, pool, "", 0, true)?;
    Ok(vec![in alloc; Asked { place: 0, text }]?)
}

#[test]
fn two_tasks_of_one_pool(rt: HostRuntime) -> Result<(), Fail> {
    let alloc = rt.alloc();
    let settings = open_settings(alloc)?;
    let links = vec![in alloc; one_task(alloc, "default")?, one_task(alloc, "default")?]?;
    let mut listener = listener_of(alloc, &links, 1)?;
    let (stop, machines) = serve_links(&rt, alloc, &settings, 2, &mut listener)?;
    assert_eq!(rt; stop, WorkStop::NoMore);
    let mut replies = Vec::new(alloc);
    for acceptor in listener.ended() {
        for link in acceptor.served() {
            replies.push(link.output())?;
        }
    }
    let wanted = [task_made(alloc, "10", 1)?, task_made(alloc, "20", 2)?];
    assert_eq!(rt; replies.len(), 2);
    for reply in &wanted {
        assert!(rt; replies.contains(&reply.as_bytes()));
    }
    let text = summary(alloc, settings.pools.as_slice(), &machines)?;
    assert_eq!(rt;
        text.as_str(),
        "pool default entries 2 accepted 2\nPENDING 2\nRUNNING 0\nEXPIRED 0\nTIMED_OUT 0\nBOT_DIED 0\nCANCELED 0\nCOMPLETED 0\nKILLED 0\nNO_RESOURCE 0\n"
    );
    Ok(())
}

#[test]
fn two_connections_that_wait_for_each_other(rt: HostRuntime) -> Result<(), Fail> {
    let alloc = rt.alloc();
    let pools = four_pools(alloc)?;
    let settings = read_settings(alloc, pools.as_bytes())?;
    let red = AtomicBool::new(false);
    let green = AtomicBool::new(false);
    let of_red = new_task(alloc, "red", "", 0, true)?.into_bytes();
    let of_green = new_task(alloc, "green", "", 0, true)?.into_bytes();
    let acceptors = vec![in alloc;
        MeetingAcceptor::new(alloc, &red, &green, of_red),
        MeetingAcceptor::new(alloc, &green, &red, of_green),
    ]?;
    let mut listener = MeetingListener::new(alloc, acceptors);
    let (stop, _) = serve_links(&rt, alloc, &settings, 2, &mut listener)?;
    assert_eq!(rt; stop, WorkStop::NoMore);
    assert_eq!(rt; listener.acceptors.len(), 2);
    let wanted = [task_made(alloc, "10", 1)?, task_made(alloc, "400010", 1)?];
    for (acceptor, reply) in listener.acceptors.iter().zip(&wanted) {
        assert_eq!(rt; acceptor.output.as_slice(), reply.as_bytes());
    }
    Ok(())
}
