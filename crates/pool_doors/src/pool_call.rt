use dimensions::Text;
use swarm_model::Request;

/// A request to a pool, as a door is given it.
#[derive(Clone, Copy)]
pub struct PoolCall<'a> {
    /// The moment by the clock.
    pub moment: u64,
    /// The length of a log that the caller has seen.
    pub after: Option<u64>,
    pub who: &'a Text,
    pub request: &'a Request,
    /// What the request carries.
    pub bytes: &'a [u8],
}
