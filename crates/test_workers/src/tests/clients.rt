//! Requests that are made from a number.

use drill_requests::Draws;
use std::alloc::{AllocError, Global};

/// A request to the pool at a place.
#[derive(Drop)]
pub struct Asked {
    pub place: u32,
    pub text: String,
}

/// The name of the pool at a place.
fn pool_at(place: u32) -> &'static str {
    match place {
        0 => "red",
        1 => "green",
        2 => "blue",
        _ => "grey",
    }
}

/// The settings of the four pools, in which every caller may do what is asked here.
pub fn four_pools(alloc: Global) -> Result<String, AllocError> {
    let mut text = String::new(alloc);
    for place in 0..4 {
        let pool = pool_at(place);
        let table = format!(in alloc;
            r#"
[[pools]]
name = "{pool}"
[[pools.grants]]
caller = "*"
permissions = ["swarming.pools.createTask", "swarming.pools.cancelTask", "swarming.pools.listTasks", "profile.pools.runBot"]
"#
        )?;
        text.push_str(table.as_str())?;
    }
    Ok(text)
}

/// A request with its head.
fn with_head(alloc: Global, target: &str, body: &str) -> Result<String, AllocError> {
    let size = body.len();
    format!(in alloc;
        "POST {target} HTTP/1.1\r\nX-Swarming-Caller: ana\r\nContent-Length: {size}\r\n\r\n{body}"
    )
}

/// A request for a task of the pool. A task that doesn't wait needs a bot that is there.
pub fn new_task(
    alloc: Global,
    pool: &str,
    uuid: &str,
    priority: u32,
    waits: bool,
) -> Result<String, AllocError> {
    let body = format!(in alloc;
        r#"{{"priority":{priority},"request_uuid":"{uuid}","task_slices":[{{"expiration_secs":600,"wait_for_capacity":{waits},"properties":{{"command":["true"],"dimensions":[{{"key":"pool","value":"{pool}"}}]}}}}]}}"#
    )?;
    with_head(alloc, "/prpc/swarming.v2.Tasks/NewTask", body.as_str())
}

/// A request for some task. One in three may be the same as one that was sent before.
fn some_task(alloc: Global, pool: &str, draws: &mut Draws) -> Result<String, AllocError> {
    let priority = draws.draw() % 3;
    let waits = draws.draw() % 8 > 0;
    let uuid = match draws.draw() % 3 {
        0 => {
            let number = draws.draw() % 64;
            format!(in alloc; "u-{number}-{priority}-{waits}")?
        }
        _ => String::new(alloc),
    };
    new_task(alloc, pool, uuid.as_str(), priority, waits)
}

/// A request on tasks that are there: on the one of this number, or on those of the pool.
fn on_tasks(alloc: Global, pool: &str, task: u32, draws: &mut Draws) -> Result<String, AllocError> {
    match draws.draw() % 4 {
        0 => {
            let kills = draws.draw() % 2 == 0;
            let body = format!(in alloc; r#"{{"task_id":"{task:x}0","kill_running":{kills}}}"#)?;
            with_head(alloc, "/prpc/swarming.v2.Tasks/CancelTask", body.as_str())
        }
        1 => {
            let body = format!(in alloc; r#"{{"task_id":"{task:x}0"}}"#)?;
            with_head(alloc, "/prpc/swarming.v2.Tasks/GetResult", body.as_str())
        }
        2 => {
            let body = format!(in alloc; r#"{{"pool":"{pool}","limit":3}}"#)?;
            with_head(alloc, "/prpc/swarming.v2.Tasks/ListTasks", body.as_str())
        }
        _ => {
            let body = format!(in alloc; r#"{{"pool":"{pool}","state":"PENDING"}}"#)?;
            with_head(alloc, "/prpc/swarming.v2.Tasks/CountTasks", body.as_str())
        }
    }
}

/// A request of one of eight bots, each of which every client may be.
fn of_bot(alloc: Global, pool: &str, task: u32, draws: &mut Draws) -> Result<String, AllocError> {
    let bot = draws.draw() % 8;
    let number = draws.draw();
    let dimensions = format!(in alloc;
        r#"[{{"key":"pool","value":["{pool}"]}},{{"key":"id","value":["b{bot}"]}}]"#
    )?;
    match draws.draw() % 4 {
        0 => {
            let body = format!(in alloc;
                r#"{{"bot_id":"b{bot}","session":"s{number}","dimensions":{dimensions}}}"#
            )?;
            with_head(alloc, "/bot/handshake", body.as_str())
        }
        1 => {
            let body = format!(in alloc; r#"{{"bot_id":"b{bot}","dimensions":{dimensions}}}"#)?;
            with_head(alloc, "/bot/poll", body.as_str())
        }
        2 => {
            let body = format!(in alloc;
                r#"{{"pool":"{pool}","bot_id":"b{bot}","claim_id":"c{number}"}}"#
            )?;
            with_head(alloc, "/bot/claim", body.as_str())
        }
        _ => {
            let body = format!(in alloc;
                r#"{{"bot_id":"b{bot}","task_id":"{task:x}1","exit_code":0}}"#
            )?;
            with_head(alloc, "/bot/task_update", body.as_str())
        }
    }
}

/// The next request.
fn next_request(alloc: Global, draws: &mut Draws) -> Result<Asked, AllocError> {
    let place = draws.draw() % 4;
    let pool = pool_at(place);
    let task = place * 262_144 + draws.draw() % 2048 + 1;
    let text = match draws.draw() % 8 {
        0 => some_task(alloc, pool, draws)?,
        1..=3 => on_tasks(alloc, pool, task, draws)?,
        _ => of_bot(alloc, pool, task, draws)?,
    };
    Ok(Asked { place, text })
}

/// The requests of so many connections, each with so many.
pub fn make_links(alloc: Global, links: u32, of_link: u32) -> Result<Vec<Vec<Asked>>, AllocError> {
    let mut draws = Draws::new(1);
    let mut all = Vec::new(alloc);
    for _ in 0..links {
        let mut requests = Vec::new(alloc);
        for _ in 0..of_link {
            requests.push(next_request(alloc, &mut draws)?)?;
        }
        all.push(requests)?;
    }
    Ok(all)
}
