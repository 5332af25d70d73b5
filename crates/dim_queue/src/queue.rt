ghost use Rattle.std.specs.Prelude.{◌≡◌, ◌≢◌, ◌<◌, ◌≤◌, OnOk, OnErr, [], IfOk};
ghost use Rattle.std.specs.List.{Contains};
ghost use Rattle.dim_queue.specs.declared.waiting.Waiting.{Waiting};
ghost use Rattle.block_list.specs.Rising.{Adds, Removes};
ghost use Rattle.dim_queue.specs.Order.{IsInOrder};
ghost use Rattle.dim_queue.specs.Taking.{taker, set_with};
ghost use Rattle.dim_queue.specs.QueueList.{state_of, room_of, first_match, earlier_of};

use crate::queue_set::QueueSet;
use crate::task_order::{goes_first, precedes};
use crate::waiting::Waiting;
use block_list::BlockList;
use dimensions::{BotDims, DimSet, TryCopy};
use std::alloc::{AllocError, Global};

/// Tasks that wait with the same set, in the order in which they are given out.
#[derive(Drop)]
pub(crate) struct Queue {
    pub set: QueueSet,
    pub tasks: BlockList<Waiting>,
}

impl Queue {
    /// An empty queue, with room for one task.
    pub fn new(alloc: Global, dims: &DimSet, but: Option<u32>) -> Result<Queue, AllocError>
        ensures set { IfOk result (λ queue. queue.set ≡ set_with dims.now but) }
        ensures tasks { IfOk result (λ queue. queue.tasks.items ≡ []) }
        ensures room { IfOk result (λ queue. 0 < room_of queue) }
    {
        let mut tasks = BlockList::new(alloc);
        tasks.reserve()?;
        let dims = dims.try_copy(alloc)?;
        Ok(Queue {
            set: QueueSet { dims, but },
            tasks,
        })
    }

    /// Makes room for one task more.
    pub fn reserve(&mut self) -> Result<(), AllocError>
        ensures set { self.new.set ≡ self.old.set }
        ensures tasks { self.new.tasks.items ≡ self.old.tasks.items }
        ensures room { OnOk result (0 < room_of self.new) }
    {
        self.tasks.reserve()
    }

    /// Gives the queue another set, and makes room for one task more. The dimensions are copied
    /// before anything changes.
    pub fn replace_set(
        &mut self,
        alloc: Global,
        dims: &DimSet,
        but: Option<u32>,
    ) -> Result<(), AllocError>
        ensures ok { OnOk result (self.new.set ≡ set_with dims.now but) }
        ensures err { OnErr result (self.new.set ≡ self.old.set) }
        ensures tasks { self.new.tasks.items ≡ self.old.tasks.items }
        ensures room { OnOk result (0 < room_of self.new) }
    {
        let dims = dims.try_copy(alloc)?;
        self.tasks.reserve()?;
        self.set = QueueSet { dims, but };
        Ok(())
    }

    /// Adds a task at its place in the order. There is room for it, so no memory is taken.
    pub fn add(&mut self, waiting: Waiting)
        requires order { IsInOrder self.old.tasks.items }
        requires room { 0 < room_of self.old }
        requires new { (w : Waiting) → Contains self.old.tasks.items w → w ≢ waiting }
        ensures set { self.new.set ≡ self.old.set }
        ensures order { IsInOrder self.new.tasks.items }
        ensures adds { Adds waiting self.old.tasks.items self.new.tasks.items }
    {
        self.tasks
            .insert_at_partition(|other| goes_first(*other, waiting), waiting);
    }

    pub fn remove(&mut self, waiting: Waiting)
        requires order { IsInOrder self.old.tasks.items }
        requires there { Contains self.old.tasks.items waiting }
        ensures set { self.new.set ≡ self.old.set }
        ensures order { IsInOrder self.new.tasks.items }
        ensures removes { Removes waiting self.old.tasks.items self.new.tasks.items }
        ensures room { room_of self.old ≤ room_of self.new }
    {
        self.tasks
            .remove_at_partition(|other| goes_first(*other, waiting));
    }

    /// The earlier of `best` and the first task here, where the bot of the number `no`, with these
    /// dimensions, may take it. Only where the first task goes before `best` is the bot compared
    /// with the set.
    pub fn earlier_match(&self, best: Option<Waiting>, no: u32, bot: &BotDims) -> Option<Waiting>
        ensures { result ≡ earlier_of best (first_match (taker no bot.now) (state_of self.now)) }
    {
        match self.tasks.first() {
            Some(first) if precedes(*first, best) && self.set.may_take(no, bot) => Some(*first),
            _ => best,
        }
    }
}
