use std::fmt;

/// A field of a request for a task.
#[derive(Debug, Clone, Copy, PartialEq, Eq)]
pub enum TaskField {
    Name,
    Priority,
    BotPingToleranceSecs,
    RequestUuid,
    TaskSlices,
    InSlice { slice: u32, field: SliceField },
}

/// A field of a slice.
#[derive(Debug, Clone, Copy, PartialEq, Eq)]
pub enum SliceField {
    ExpirationSecs,
    Command,
    /// A text of the command, by its place from 0.
    CommandText { place: u32 },
    Env,
    /// The key of a pair of the environment, by its place from 0.
    EnvKey { place: u32 },
    EnvValue { place: u32 },
    Dimensions,
    /// A pair of the dimensions, by its place from 0.
    Dimension { place: u32 },
    Caches,
    /// The name of a cache, by its place from 0.
    CacheName { place: u32 },
    CachePath { place: u32 },
    Inputs,
    /// The path of an input, by its place from 0.
    InputPath { place: u32 },
    InputDigest { place: u32 },
    InputSize { place: u32 },
    Outputs,
    /// The path of an output, by its place from 0.
    Output { place: u32 },
    ExecutionTimeoutSecs,
    IoTimeoutSecs,
    GracePeriodSecs,
}

/// The path of a field within its slice, with list places as numbers.
impl fmt::Display for SliceField {
    ghost use Rattle.std.specs.Prelude.{Some};
    ghost use Rattle.task_props.specs.Fields.{slice_path};

    ghost output = { λ field. Some (slice_path field) };

    fn fmt<W: fmt::Write>(&self, f: &mut fmt::Formatter<W>) -> fmt::Result {
        match self {
            SliceField::ExpirationSecs => write!(f, "expiration_secs"),
            SliceField::Command => write!(f, "properties.command"),
            SliceField::CommandText { place } => write!(f, "properties.command.{place}"),
            SliceField::Env => write!(f, "properties.env"),
            SliceField::EnvKey { place } => write!(f, "properties.env.{place}.key"),
            SliceField::EnvValue { place } => write!(f, "properties.env.{place}.value"),
            SliceField::Dimensions => write!(f, "properties.dimensions"),
            SliceField::Dimension { place } => write!(f, "properties.dimensions.{place}"),
            SliceField::Caches => write!(f, "properties.caches"),
            SliceField::CacheName { place } => write!(f, "properties.caches.{place}.name"),
            SliceField::CachePath { place } => write!(f, "properties.caches.{place}.path"),
            SliceField::Inputs => write!(f, "properties.inputs"),
            SliceField::InputPath { place } => write!(f, "properties.inputs.{place}.path"),
            SliceField::InputDigest { place } => write!(f, "properties.inputs.{place}.digest"),
            SliceField::InputSize { place } => write!(f, "properties.inputs.{place}.size"),
            SliceField::Outputs => write!(f, "properties.outputs"),
            SliceField::Output { place } => write!(f, "properties.outputs.{place}"),
            SliceField::ExecutionTimeoutSecs => write!(f, "properties.execution_timeout_secs"),
            SliceField::IoTimeoutSecs => write!(f, "properties.io_timeout_secs"),
            SliceField::GracePeriodSecs => write!(f, "properties.grace_period_secs"),
        }
    }
}

/// The path of a field, with list places as numbers.
impl fmt::Display for TaskField {
    ghost use Rattle.std.specs.Prelude.{Some};
    ghost use Rattle.task_props.specs.Fields.{task_path};

    ghost output = { λ field. Some (task_path field) };

    fn fmt<W: fmt::Write>(&self, f: &mut fmt::Formatter<W>) -> fmt::Result {
        match self {
            TaskField::Name => write!(f, "name"),
            TaskField::Priority => write!(f, "priority"),
            TaskField::BotPingToleranceSecs => write!(f, "bot_ping_tolerance_secs"),
            TaskField::RequestUuid => write!(f, "request_uuid"),
            TaskField::TaskSlices => write!(f, "task_slices"),
            TaskField::InSlice { slice, field } => write!(f, "task_slices.{slice}.{field}"),
        }
    }
}
