use dimensions::Text;
use swarm_model::Request;

/// A request to the pool of a name.
#[derive(Drop)]
pub struct PoolRequest {
    pub pool: Text,
    pub request: Request,
}
