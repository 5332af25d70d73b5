//! An input that ends within a request.

use crate::tests::NEW_TASK;
use std::test::Fail;
use sw_base::{MemoryLink, StepClock};
use swarm_http::Ended;
use swarm_machine::Pool;
use swarm_policy::open_settings;
use test_sessions::serve_new;

#[test]
fn an_input_that_is_cut_anywhere(rt: HostRuntime) -> Result<(), Fail> {
    let alloc = rt.alloc();
    let settings = open_settings(alloc)?;
    for size in 1..NEW_TASK.len() {
        let input = Vec::from_slice(alloc, &NEW_TASK[..size])?;
        let mut link = MemoryLink::new(alloc, input, 100, Vec::new(alloc));
        let mut clock = StepClock {
            at: 1000,
            step: 0,
            waited: 0,
        };
        let ended = serve_new::<Pool, MemoryLink, StepClock>(
            alloc, &settings, &mut link, &mut clock,
        )?;
        assert_eq!(rt; ended, Ended::CutShort);
        assert_eq!(rt; link.output().len(), 0);
    }
    Ok(())
}
