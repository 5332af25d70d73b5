use dimensions::Text;

/// The parts of a target that the caller chose: the name of a pool, and the digest of a blob. A part
/// that the target doesn't have is empty.
#[derive(Drop)]
pub struct Parts {
    pub pool: Text,
    pub digest: Text,
}
