ghost use Rattle.std.specs.Prelude.{◌≡◌};
ghost use Rattle.std.specs.Borrow.{ftrue};

use std::marker::{Model, PhantomData};

/// A value that only proofs see. It takes no bytes, and making one does nothing at run time. It owns
/// nothing, so what it means is said by the invariant of the type that keeps it.
#[derive(Drop)]
pub struct GhostValue<T> {
    marker: PhantomData<T>,
    pub ghost value: { T },
}

impl<T> Model for GhostValue<T> {
    ghost also_owns = { λ _. ftrue };
}

impl<T> GhostValue<T> {
    pub fn of(_value: &T) -> GhostValue<T>
        ensures { result.value ≡ _value.now }
    {
        GhostValue {
            marker: PhantomData,
        }
    }
}
