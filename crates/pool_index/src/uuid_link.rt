use dimensions::Text;

/// A creator sent a task under a uuid.
#[derive(Debug, Drop)]
pub struct UuidLink {
    pub creator: Text,
    pub uuid: Text,
    pub task: u32,
}
