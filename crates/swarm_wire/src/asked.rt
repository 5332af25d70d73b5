use dimensions::{Seq, Text};
use std::alloc::AllocError;
use swarm_model::Request;
use task_props::{PropFault, PropRule};

/// What a body asks for.
#[derive(Drop)]
pub struct Asked {
    /// The place of the pool in the settings.
    pub place: u32,
    pub request: Request,
    /// The bytes that come with the request: those of the blob that it puts, or of the chunk that it
    /// reports.
    pub bytes: Seq<u8>,
}

/// Why a body asks for nothing.
#[derive(Debug, PartialEq, Drop)]
pub enum WireFault {
    Memory,
    /// The body is no JSON in UTF-8.
    BadJson,
    /// The first broken rule, with the dotted path of its field. The path is empty where the body
    /// is no object.
    BadField { field: Text, rule: PropRule },
    /// The settings have no pool of the name.
    NoPool,
    /// The settings have no pool at the place of the id.
    NoTask,
}

impl From<AllocError> for WireFault {
    ghost use Rattle.std.specs.Prelude.{◌≡◌};
    ghost use Rattle.swarm_wire.specs.declared.asked.WireFault.TheVariants.{Memory};

    ghost from_gives = { λ _ fault. fault ≡ Memory };

    fn from(_: AllocError) -> WireFault {
        WireFault::Memory
    }
}

impl From<PropFault> for WireFault {
    ghost use Rattle.std.specs.Prelude.{◌≡◌};
    ghost use Rattle.swarm_wire.specs.Asking.{wire_fault};

    ghost from_gives = { λ broken fault. fault ≡ wire_fault broken };

    fn from(broken: PropFault) -> WireFault {
        match broken {
            PropFault::Memory => WireFault::Memory,
            PropFault::Broken { field, rule } => WireFault::BadField { field, rule },
        }
    }
}
