use dimensions::{Seq, Text};
use task_props::Cache;

/// The fields of a request for a task as they were read, not checked yet. An absent number is 0,
/// but for the grace period, which is 30 then.
#[derive(Debug, Drop)]
pub struct RawTask {
    pub name: Text,
    pub priority: i128,
    pub bot_ping_tolerance_secs: i128,
    pub request_uuid: Text,
    pub task_slices: Seq<RawSlice>,
}

/// A slice as it was read.
#[derive(Debug, Drop)]
pub struct RawSlice {
    pub expiration_secs: i128,
    pub wait_for_capacity: bool,
    pub properties: RawProperties,
}

/// A file as it was read.
#[derive(Debug, Drop)]
pub struct RawFile {
    pub path: Text,
    pub digest: Text,
    pub size: i128,
}

/// The properties of a slice as they were read.
#[derive(Debug, Drop)]
pub struct RawProperties {
    pub command: Seq<Text>,
    pub env: Seq<(Text, Text)>,
    pub dimensions: Seq<(Text, Text)>,
    pub caches: Seq<Cache>,
    pub inputs: Seq<RawFile>,
    pub outputs: Seq<Text>,
    pub execution_timeout_secs: i128,
    pub io_timeout_secs: i128,
    pub grace_period_secs: i128,
    pub idempotent: bool,
}
