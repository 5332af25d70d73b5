/// Why a head is refused.
#[derive(Clone, Copy, Debug, PartialEq, Eq)]
pub enum HeadRefusal {
    /// Its Content-Length is not one field of 1 to 10 digits.
    Bad,
    /// It has a Transfer-Encoding, or its method is POST or PUT and it has no Content-Length.
    LengthRequired,
    /// The Content-Length is above the limit of the target.
    TooLarge { limit: u32 },
}
