use dimensions::Text;

/// A bot claimed a task under an id.
#[derive(Debug, Drop)]
pub struct ClaimLink {
    pub bot: u32,
    pub claim: Text,
    pub task: u32,
}
