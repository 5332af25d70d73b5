use dimensions::{Seq, Text};
use named_caches::CacheTable;
use task_props::{File, Properties};

/// What a bot works with: how it is called, and what it holds between two actions.
#[derive(Drop)]
pub struct Hands {
    /// What is dialed for each request: a host, `:` and a port.
    pub address: Text,
    /// The field `Host` of each request.
    pub host: Text,
    /// The caller that each request names.
    pub caller: Text,
    /// The bot's name.
    pub id: Text,
    pub pool: Text,
    /// Keys and values beside `caches`, `id` and `pool`. A key may come several times.
    pub dims: Seq<(Text, Text)>,
    pub caches: CacheTable,
    /// The id and the properties of the present run, or of the last one.
    pub run: Option<(Text, Properties)>,
    /// The output that waits to be sent.
    pub pending: Vec<u8>,
    /// The outputs of the run that the pool's blobs have.
    pub files: Seq<File>,
}
