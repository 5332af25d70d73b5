use task_props::Digest;

/// How many uses of a digest are counted.
#[derive(Debug, Drop)]
pub struct UseLink {
    pub digest: Digest,
    pub uses: u32,
}
