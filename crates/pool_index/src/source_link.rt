use task_props::Digest;

/// A task whose run may stand for others of this hash.
#[derive(Debug, Drop)]
pub struct SourceLink {
    pub hash: Digest,
    pub task: u32,
}
