//! The commands, with the values of their options.

use crate::client_work::ClientWork;

/// `swarm session`: serves one connection over standard input and output.
#[derive(Drop)]
pub struct Session {
    /// The path of the settings' file. Without it the open settings hold.
    pub settings: Option<String>,
}

/// The boards of `swarm serve`: each answers CountTasks, ListTasks, GetResult, ListBots and GetBot from
/// published copies of the pools, without waiting for a pool's turn.
#[derive(Drop)]
pub struct Boards {
    /// How many boards there are: 0 to 8. Without one the other options are of no use.
    pub count: u32,
    /// The address at which they listen, a host and a port with `:` between them.
    pub address: String,
    /// How many connections each board serves until it ends: 1 to 1000000.
    pub connections: u32,
    /// How many seconds pass between two rounds, in each of which the new entries of every pool are
    /// published: 1 to 3600.
    pub every: u32,
    /// How many rounds there are at most: 1 to 1000000.
    pub rounds: u32,
}

/// `swarm serve`: listens, and serves connections.
#[derive(Drop)]
pub struct Serve {
    /// The path of the settings' file. Without it the open settings hold.
    pub settings: Option<String>,
    /// The address to listen at, a host and a port with `:` between them.
    pub address: String,
    /// How many workers serve, each one connection at a time: 1 to 32.
    pub workers: u32,
    /// How many connections each worker serves until it ends: 1 to 1000000.
    pub connections: u32,
    /// The boards beside the workers.
    pub boards: Boards,
}

/// `swarm checkpoint`: makes the kept records of a server that does not run begin anew.
#[derive(Drop)]
pub struct Checkpoint {
    /// The path of the settings' file, which names the folder of the records.
    pub settings: String,
}

/// `swarm bot`: runs the tasks of a server on this machine.
#[derive(Drop)]
pub struct Bot {
    pub server: String,
    pub caller: String,
    /// The bot's name.
    pub id: String,
    pub pool: String,
    /// Pairs `key=value` with `;` between them; empty where there are none.
    pub dimensions: String,
    /// How many tasks are run at most: 1 to 1000000.
    pub tasks: u32,
    /// How often the bot asks for work at most: 1 to 1000000.
    pub polls: u32,
    /// How many steps the bot takes at most: 1 to 4000000000.
    pub steps: u32,
    /// How many named caches are kept at most: 0 to 64.
    pub caches: u32,
    /// How many bytes the caches may have in all: 0 to 2^40.
    pub cache_bytes: u64,
}

/// A command of a client.
#[derive(Drop)]
pub struct Client {
    pub server: String,
    pub caller: String,
    /// What is done at the server.
    pub work: ClientWork,
}

/// `swarm drill`: runs a large session, made from a number.
#[derive(Drop)]
pub struct Drill {
    /// How many rounds of requests the session has: 1 to 10000.
    pub cycles: u32,
    /// The number from which the session is made: 0 to 2147483647.
    pub start: u32,
}

/// What the words ask for. The texts are as they were written: ids, callers, states and the
/// server's address are not checked.
#[derive(Drop)]
pub enum Command {
    Session(Session),
    Serve(Serve),
    Checkpoint(Checkpoint),
    Bot(Bot),
    Client(Client),
    Drill(Drill),
}
