use crate::Route;

/// What stands at a target.
#[derive(Clone, Copy, Debug, PartialEq, Eq)]
pub enum Resource {
    /// A call, which is a POST.
    Call(Route),
    /// A blob, which is put by PUT and fetched by GET.
    Blob,
}
