/// A part of a pool's kept records.
#[derive(Clone, Copy, Debug, PartialEq, Eq)]
pub enum StorePart {
    /// The lines of the base, and the number of entries before it.
    Base,
    /// The lines of the log since, and the bytes of blobs.
    Lines,
}
