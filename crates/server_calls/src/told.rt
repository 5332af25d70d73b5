use dimensions::Seq;
use refusal_codes::RefusalCode;
use swarm_model::Reply;

/// What a reply tells.
#[derive(Drop)]
pub enum Told {
    /// The call was answered. `place` is that of the pool that the ids name, and 0 where there are
    /// none. `bytes` are the output of a run, whose parts are then not told, or the bytes of a blob;
    /// with any other reply none come.
    Good {
        place: u32,
        reply: Reply,
        bytes: Seq<u8>,
    },
    /// The call was refused. `body` has the bytes that came, whose other members tell more of the
    /// refusal.
    No {
        code: RefusalCode,
        body: Seq<u8>,
    },
}
