use crate::Permission;
use dimensions::{Seq, Text, TryCopy};
use std::alloc::{AllocError, Global};

/// What one caller, or by `*` every caller, may do.
#[derive(Drop)]
pub struct Grant {
    pub caller: Text,
    pub permissions: Seq<Permission>,
}

/// The settings of one pool. Ages and lives are in seconds, `store_units` in units of 64 bytes,
/// `most_weight` in bytes.
#[derive(Drop)]
pub struct PoolSettings {
    /// The pool's place among the pools of the settings, from 0.
    pub place: u32,
    pub name: Text,
    pub reuse_age_secs: u32,
    pub death_timeout_secs: u32,
    pub blob_life_secs: u32,
    pub store_units: u32,
    pub most_tasks: u32,
    pub most_bots: u32,
    pub most_entries: u32,
    pub most_weight: u32,
    /// How often a lost run of an idempotent slice is tried again: 0 or 1 times.
    pub retries: u32,
    pub grants: Seq<Grant>,
}

/// The settings of a server.
#[derive(Drop)]
pub struct Settings {
    /// The folder in which the pools' records are kept, if they are.
    pub store: Option<Text>,
    pub pools: Seq<PoolSettings>,
}

impl TryCopy for Grant {
    fn try_copy(&self, alloc: Global) -> Result<Grant, AllocError> {
        Ok(Grant {
            caller: self.caller.try_copy(alloc)?,
            permissions: self.permissions.try_copy(alloc)?,
        })
    }
}

impl TryCopy for PoolSettings {
    fn try_copy(&self, alloc: Global) -> Result<PoolSettings, AllocError> {
        Ok(PoolSettings {
            place: self.place,
            name: self.name.try_copy(alloc)?,
            reuse_age_secs: self.reuse_age_secs,
            death_timeout_secs: self.death_timeout_secs,
            blob_life_secs: self.blob_life_secs,
            store_units: self.store_units,
            most_tasks: self.most_tasks,
            most_bots: self.most_bots,
            most_entries: self.most_entries,
            most_weight: self.most_weight,
            retries: self.retries,
            grants: self.grants.try_copy(alloc)?,
        })
    }
}

impl TryCopy for Settings {
    fn try_copy(&self, alloc: Global) -> Result<Settings, AllocError> {
        Ok(Settings {
            store: self.store.try_copy(alloc)?,
            pools: self.pools.try_copy(alloc)?,
        })
    }
}
