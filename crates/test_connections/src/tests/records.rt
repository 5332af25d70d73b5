//! Kept records of which a line was replaced.

use crate::tests::NEW_TASK;
use dimensions::Text;
use pool_loading::StorePart;
use std::alloc::Global;
use std::test::Fail;
use sw_base::{MemoryLink, StartFault, StepClock};
use swarm_history::LoadFault;
use swarm_http::Ended;
use swarm_keeper::{MemoryStore, Store};
use swarm_machine::Pool;
use swarm_policy::read_settings;
use test_sessions::serve;

const FOLDER: &str = "records";

/// The pools, in the order of the settings.
const DEFAULT: &str = "default";

const LAB: &str = "lab";

/// A request for a task of the second pool.
const NEW_LAB_TASK: &[u8] =
    b"POST /prpc/swarming.v2.Tasks/NewTask HTTP/1.1\r\nHost: lab\r\nX-Swarming-Caller: ana\r\nContent-Length: 144\r\n\r\n{\"task_slices\":[{\"expiration_secs\":600,\"wait_for_capacity\":true,\"properties\":{\"command\":[\"true\"],\"dimensions\":[{\"key\":\"pool\",\"value\":\"lab\"}]}}]}";

const SETTINGS: &[u8] =
    b"pools = [{ name = \"default\", grants = [{ caller = \"*\", permissions = [\"swarming.pools.createTask\"] }] }, { name = \"lab\", grants = [{ caller = \"*\", permissions = [\"swarming.pools.createTask\"] }] }]\n";

/// How a connection over the records of both pools ended, or why no door was made of them, and what was
/// written.
fn run_over<P: Store>(
    alloc: Global,
    store: &mut P,
    input: &[u8],
) -> Result<(Result<Ended, LoadFault>, Vec<u8>), StartFault> {
    let Ok(settings) = read_settings(alloc, SETTINGS) else {
        return Err(StartFault::Failed);
    };
    if settings.pools.as_slice().len() != 2 {
        return Err(StartFault::Failed);
    }
    let mut keepers = Vec::new(alloc);
    keepers.push(store.attach(alloc, FOLDER, DEFAULT)?)?;
    keepers.push(store.attach(alloc, FOLDER, LAB)?)?;
    let mut link = MemoryLink::new(alloc, Vec::from_slice(alloc, input)?, 100, Vec::new(alloc));
    let mut clock = StepClock {
        at: 1000,
        step: 0,
        waited: 0,
    };
    let (ended, mut keepers) = serve::<Pool, P::Keeper, MemoryLink, StepClock>(
        alloc, &settings, keepers, &mut link, &mut clock,
    );
    let (Some(lab), Some(default)) = (keepers.pop(), keepers.pop()) else {
        return Err(StartFault::Failed);
    };
    store.detach(FOLDER, DEFAULT, default);
    store.detach(FOLDER, LAB, lab);
    Ok((ended, Vec::from_slice(alloc, link.output())?))
}

/// The line is told with the place of its pool, of several the one in the first pool. Nothing is
/// answered, and the records stay.
#[test]
fn a_line_that_was_replaced(rt: HostRuntime) -> Result<(), Fail> {
    let alloc = rt.alloc();
    let mut store = MemoryStore::new(alloc, Vec::new(alloc), Vec::new(alloc));
    for task in [NEW_TASK, NEW_TASK, NEW_LAB_TASK] {
        assert_eq!(rt; run_over(alloc, &mut store, task)?.0, Ok(Ended::Closed));
    }

    store.replace_line(FOLDER, LAB, 0, Text::from_str(alloc, "x")?);
    let (ended, output) = run_over(alloc, &mut store, NEW_TASK)?;
    let refused = LoadFault::BadStore {
        place: 1,
        part: StorePart::Lines,
        at: 0,
    };
    assert_eq!(rt; ended, Err(refused));
    assert_eq!(rt; output.len(), 0);

    store.replace_line(FOLDER, DEFAULT, 1, Text::from_str(alloc, "x")?);
    let (ended, output) = run_over(alloc, &mut store, NEW_TASK)?;
    let refused = LoadFault::BadStore {
        place: 0,
        part: StorePart::Lines,
        at: 1,
    };
    assert_eq!(rt; ended, Err(refused));
    assert_eq!(rt; output.len(), 0);
    assert_eq!(rt; store.lines(FOLDER, DEFAULT).len(), 2);
    assert_eq!(rt; store.lines(FOLDER, LAB).len(), 1);
    Ok(())
}
