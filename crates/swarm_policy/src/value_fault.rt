use crate::SettingsRule;
use std::alloc::{AllocError, AllocFailed};

/// Want of memory, or the rule that a value breaks, whose place is told later.
#[derive(Clone, Copy, Debug)]
pub(crate) enum ValueFault {
    Memory,
    Broken(SettingsRule),
}

impl From<AllocError> for ValueFault {
    ghost use Rattle.std.specs.Prelude.{◌≡◌};
    ghost use Rattle.swarm_policy.specs.declared.value_fault.ValueFault.TheVariants.{Memory};

    ghost from_gives = { λ _ e. e ≡ Memory };

    fn from(_: AllocError) -> ValueFault {
        ValueFault::Memory
    }
}

impl<T: Drop> From<AllocFailed<T>> for ValueFault {
    ghost use Rattle.std.specs.Prelude.{◌≡◌};
    ghost use Rattle.swarm_policy.specs.declared.value_fault.ValueFault.TheVariants.{Memory};

    ghost from_gives = { λ _ e. e ≡ Memory };

    fn from(_: AllocFailed<T>) -> ValueFault {
        ValueFault::Memory
    }
}

impl From<SettingsRule> for ValueFault {
    ghost use Rattle.std.specs.Prelude.{◌≡◌};
    ghost use Rattle.swarm_policy.specs.declared.value_fault.ValueFault.TheVariants.{Broken};

    ghost from_gives = { λ rule e. e ≡ Broken rule };

    fn from(rule: SettingsRule) -> ValueFault {
        ValueFault::Broken(rule)
    }
}
