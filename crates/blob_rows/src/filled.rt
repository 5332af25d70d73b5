/// What became of bytes that were brought under a name.
#[derive(Clone, Copy, Debug, PartialEq, Eq)]
pub enum Filled {
    /// The bytes are held under their name.
    Done,
    /// The digest of the bytes is another one than the name.
    Differs([u8; 32]),
    /// No name of that digest and size is held.
    Unknown,
}
