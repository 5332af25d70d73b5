use crate::PropRule;
use dimensions::Text;
use std::alloc::{AllocError, AllocFailed};

/// Why a request is no task: want of memory, or the first broken rule with the dotted path of its
/// field.
#[derive(Debug, PartialEq, Drop)]
pub enum PropFault {
    Memory,
    Broken { field: Text, rule: PropRule },
}

impl From<AllocError> for PropFault {
    ghost use Rattle.std.specs.Prelude.{◌≡◌};
    ghost use Rattle.task_props.specs.declared.prop_fault.PropFault.TheVariants.{Memory};

    ghost from_gives = { λ _ e. e ≡ Memory };

    fn from(_: AllocError) -> PropFault {
        PropFault::Memory
    }
}

impl<T: Drop> From<AllocFailed<T>> for PropFault {
    ghost use Rattle.std.specs.Prelude.{◌≡◌};
    ghost use Rattle.task_props.specs.declared.prop_fault.PropFault.TheVariants.{Memory};

    ghost from_gives = { λ _ e. e ≡ Memory };

    fn from(_: AllocFailed<T>) -> PropFault {
        PropFault::Memory
    }
}
