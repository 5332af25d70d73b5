//! The connections that come at an address.
ghost use Rattle.std.specs.Prelude.{◌≡◌, ◌+◌, ◌*◌, ◌≤◌, ◌^◌, MatchResult, IsTrue};
ghost use Rattle.swarm_model.specs.Settings.{are_settings};
ghost use Rattle.swarm_http.specs.Answered.{KeepsDoor};
ghost use Rattle.swarm_cli.specs.ServerWork.{ServesListener, CannotListen};

use std::alloc::Global;
use sw_base::{Listener, StartFault};
use swarm_http::{Clock, Door};
use swarm_model::Settings;
use swarm_workers::{WorkStop, work};

/// Has one worker serve the links that come at the address, at most so many, and tells why it
/// stopped.
pub(crate) fn serve_listener<D: Door, C: Clock, N: Listener>(
    alloc: Global,
    settings: &Settings,
    address: &str,
    connections: u32,
    door: &mut D,
    clock: &mut C,
    listener: &mut N,
) -> Result<WorkStop, StartFault>
    requires settings { (D.state door.old).settings ≡ settings.now }
    requires rules { IsTrue (are_settings settings.now) }
    requires number { connections ≤ 1000000 }
    requires calls { (D.state door.old).calls + 65536 * connections ≤ 2 ^ 40 }
    ensures serves { MatchResult result
        (λ stopped. ServesListener address.now connections (N.state listener.old) (N.state listener.new) (C.ahead clock.old) (C.ahead clock.new) (D.state door.old) (D.state door.new) stopped)
        (λ fault. CannotListen fault (N.state listener.old) (N.state listener.new) (C.ahead clock.old) (C.ahead clock.new) (D.state door.old) (D.state door.new)) }
    ensures door { KeepsDoor (65536 * connections) (D.state door.old) (D.state door.new) }
{
    let mut given = listener.listen(address, 1)?;
    let Some(mut acceptor) = given.pop() else {
        unreachable!();
    };
    let worked = work(alloc, settings, door, clock, &mut acceptor, connections);
    listener.shut(acceptor);
    Ok(worked.stop)
}
