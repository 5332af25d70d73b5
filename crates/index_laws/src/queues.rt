ghost use Rattle.index_laws.specs.SetToCome.{PlaceIsReady};
ghost use Rattle.index_laws.specs.TaskQueues.{QueuesFollow, FirstIsNext};

/// After an entry the pending tasks wait in the queues, where the touched task left its queue and
/// entered that of its place.
pub fn queues_follow()
    ensures { QueuesFollow }
{}

/// The first in the queues that a bot may take is the task that the bot gets.
pub fn first_is_next()
    ensures { FirstIsNext }
{}

/// Where the touched task waits after an entry, it waits with the set that follows from the rows
/// before the entry, for which a queue can be made ready. An entry that loses a run may make its task
/// wait again, kept from the bot of the run.
pub fn place_is_ready()
    ensures { PlaceIsReady }
{}
