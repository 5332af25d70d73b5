use std::alloc::Global;
use swarm_model::{Machine, Settings};
use two_ends::{Turn, World, play};

/// A world, with the turns that were read and not played yet.
#[derive(Drop)]
pub(crate) struct Course<M: Machine + Drop> {
    pub(crate) name: String,
    pub(crate) settings: Settings,
    pub(crate) world: World<M>,
    pub(crate) turns: Vec<Turn>,
}

impl<M: Machine + Drop> Course<M> {
    /// The same once its turns were played, where there is memory for them.
    pub(crate) fn played(self, alloc: Global) -> Option<Course<M>> {
        let Course {
            name,
            settings,
            world,
            turns,
        } = self;
        match play(world, turns.as_slice()) {
            Ok(world) => Some(Course {
                name,
                settings,
                world,
                turns: Vec::new(alloc),
            }),
            Err(_) => None,
        }
    }
}
