use command_words::Boards;

/// What is done over a door of one's own.
#[derive(Drop)]
pub(crate) enum DoorCommand {
    /// One connection over the console is served.
    Session,
    /// The connections that come at an address are served, at most so many.
    Serve { address: String, connections: u32 },
}

/// What is done with the pools, and by whom they are used.
#[derive(Drop)]
pub(crate) enum Service {
    ByOne(DoorCommand),
    /// Several workers serve the connections that come at an address, each at most so many.
    BySeveral {
        address: String,
        workers: u32,
        connections: u32,
    },
    /// That, and boards beside the workers answer from published copies of the pools.
    WithBoards {
        address: String,
        workers: u32,
        connections: u32,
        boards: Boards,
    },
    /// Their kept records are made to begin anew.
    Checkpoint,
}
