ghost use Rattle.std.specs.Prelude.{◌≡◌, [], None, Some, OnOk, OnErr, length};
ghost use Rattle.dim_queue.specs.Taking.{taker, set_with};
ghost use Rattle.dim_queue.specs.Plain.{SameWaits, AreApart, ReusesEmpty, Enters, Leaves, IsAbsent, IsNextOf};

use crate::places::{Place, insert_reserved, remove_place, reserve_place};
use crate::queue::Queue;
use crate::queue_list::{first_for, push_waiting, remove_in, reserve_for};
use crate::waiting::Waiting;
use dimensions::{BotDims, DimSet};
use std::alloc::{AllocError, Global};
use std::collections::HashMap;
use std::marker::Model;

/// The tasks that wait for a bot, in one queue for each [`QueueSet`](crate::QueueSet).
///
/// At most one set is ready at a time: `reserve` makes it ready, and `enter` uses it up. Each queue
/// has its own copy of its set, and stays when its last task leaves.
#[derive(Drop)]
pub struct Queues {
    alloc: Global,
    queues: Vec<Queue>,
    /// Where each waiting task is, by its number.
    places: HashMap<u32, Place>,
    /// The place of the queue that the next task may enter.
    ready: Option<u32>,
}

impl Model for Queues {
    ghost use Rattle.dim_queue.specs.Plain.{QueuesState};

    ghost Value = { QueuesState };

    ghost use Rattle.dim_queue.specs.Inside.{all_of, IsConsistent};

    ghost view = { all_of };

    ghost invariant = { IsConsistent };
}

impl Queues {
    /// No task waits, and no set is ready. It takes no memory.
    pub fn new(alloc: Global) -> Queues
        ensures { result ≡ record { queues = []; ready = None } }
    {
        Queues {
            alloc,
            queues: Vec::new(alloc),
            places: HashMap::new(alloc),
            ready: None,
        }
    }

    /// Makes ready that a task with these dimensions enters, which is kept from the bot of the
    /// number `but`, where there is one. It takes the place of what was ready before. The set is
    /// compared with that of each queue. Where none has it, it is copied into a queue that has no
    /// tasks, or else into a new one. So the number of queues is at most one more than the greatest
    /// number of sets that had waiting tasks at one time.
    ///
    /// # Errors
    ///
    /// Where there is no memory, nothing is ready, and the same tasks wait as before.
    pub fn reserve(&mut self, dims: &DimSet, but: Option<u32>) -> Result<(), AllocError>
        ensures same { SameWaits self.old.queues self.new.queues }
        ensures ok { OnOk result (self.new.ready ≡ Some (set_with dims.now but)) }
        ensures err { OnErr result (self.new.ready ≡ None) }
        ensures count { ReusesEmpty self.old.queues self.new.queues }
        ensures apart { AreApart self.new.queues }
    {
        self.ready = None;
        reserve_place(&mut self.places)?;
        let at = reserve_for(self.alloc, &mut self.queues, dims, but)?;
        self.ready = Some(at);
        Ok(())
    }

    /// The task waits from now on, with the set that is ready. It takes no memory. The place
    /// in the queue is found by bisection, and at most the tasks of one block of the queue move: none
    /// where the task goes after all others.
    pub fn enter(&mut self, dims: &DimSet, but: Option<u32>, priority: u32, no: u32)
        requires ready { self.old.ready ≡ Some (set_with dims.now but) }
        requires absent { IsAbsent no self.old.queues }
        ensures enters { Enters (record { priority = priority; number = no }) (set_with dims.now but) self.old.queues self.new.queues }
        ensures ready { self.new.ready ≡ None }
        ensures count { length self.new.queues ≡ length self.old.queues }
    {
        match self.ready.take() {
            None => unreachable!(),
            Some(at) => {
                let place = Place {
                    queue: at,
                    priority,
                };
                insert_reserved(&mut self.places, no, place);
                let waiting = Waiting {
                    priority,
                    number: no,
                };
                push_waiting(&mut self.queues, at as usize, waiting);
            }
        }
    }

    /// The task waits no longer. Where no task of the number waits, nothing changes. What is ready
    /// stays ready. It takes no memory. The queue is found by the number, the place in it by
    /// bisection, and at most the tasks of one block of it move.
    pub fn leave(&mut self, no: u32)
        ensures leaves { Leaves no self.old.queues self.new.queues }
        ensures ready { self.new.ready ≡ self.old.ready }
        ensures count { length self.new.queues ≡ length self.old.queues }
    {
        if let Some(place) = remove_place(&mut self.places, no) {
            let waiting = Waiting {
                priority: place.priority,
                number: no,
            };
            remove_in(&mut self.queues, place.queue as usize, waiting);
        }
    }

    /// The task that the bot of the number `no`, with these dimensions, gets. Of each queue the first
    /// task is compared with the best so far; only where it goes before that one, the bot is compared
    /// with the set, and its dimensions are matched where it is not the one that is kept out. So a
    /// set is matched at most once, and no row is read.
    pub fn first_for(&self, no: u32, bot: &BotDims) -> Option<Waiting>
        ensures { IsNextOf self.now.queues (taker no bot.now) result }
    {
        first_for(self.queues.as_slice(), no, bot)
    }
}
