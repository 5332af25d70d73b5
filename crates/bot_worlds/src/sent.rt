use dimensions::Seq;
use swarm_model::{Reply, Request};

/// A request that the bot sent, with the bytes that came with it.
#[derive(Drop)]
pub struct Sent {
    pub request: Request,
    pub bytes: Seq<u8>,
}

/// A reply of the pool to a request of the bot.
#[derive(Drop)]
pub struct Got {
    /// The place of the request among those that were sent, from 0.
    pub sent: u32,
    pub reply: Reply,
}
