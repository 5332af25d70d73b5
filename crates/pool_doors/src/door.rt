ghost use Rattle.std.specs.Prelude.{◌<◌, ◌^◌, length, slice_get, IsTrue, IsSomeAnd};
ghost use Rattle.swarm_model.specs.Bytes.{Carries};
ghost use Rattle.swarm_model.specs.Fits.{fits};
ghost use Rattle.pool_doors.specs.Calls.{call_of};
ghost use Rattle.pool_doors.specs.Doors.{DoorState, IsCall};

use crate::pool_call::PoolCall;
use dimensions::Seq;
use swarm_model::Reply;

/// Why a call was not answered.
#[derive(Clone, Copy, Debug, PartialEq, Eq)]
pub enum CallFault {
    Memory,
    /// The log has no room for the entry that comes next.
    LogFull,
    /// What keeps the pool's records failed, and counts it.
    Keeper,
}

/// A reply at its point of the log.
#[derive(Drop)]
pub struct Answered {
    /// The length of the log as the call ends, with the entries that led to its base.
    pub front: u64,
    pub reply: Reply,
    /// The bytes of the blobs that the reply names, in their order.
    pub pieces: Seq<Seq<u8>>,
}

/// What answers a session's requests.
pub trait Door {
    /// What the door tells.
    ghost state: { Self → DoorState };

    /// Answers a request to the pool at the place, at the call's moment or, where that is past, at
    /// the moment of the log's last entry.
    fn call(&mut self, place: u32, call: &PoolCall) -> Result<Answered, CallFault>
        requires place { place < length (state self.old).settings.pools }
        requires fits { IsSomeAnd (slice_get (state self.old).settings.pools place) (λ pool. IsTrue (fits pool call.now.request.now)) }
        requires carries { Carries call.now.request.now call.now.bytes.now }
        requires calls { (state self.old).calls < 2 ^ 40 }
        ensures { IsCall (state self.old) (state self.new) place (call_of ((state self.old).writer.numbers place) call.now) result };
}
