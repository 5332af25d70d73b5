//! What has a line in a base.
ghost use Rattle.std.specs.Prelude.{◌≡◌, IfOk, OnOk};
ghost use Rattle.serde_json.specs.View.{view};
ghost use Rattle.base_lines.specs.declared.base_row.BaseRow.{BaseRow};
ghost use Rattle.base_lines.specs.declared.base_row.BaseRow.TheVariants as told_row;
ghost use Rattle.base_lines.specs.Lines.{row_data, HoldsRow};

use crate::rows::{blob_value, bot_value, pool_value, task_value};
use crate::{BaseRow, PoolLine};
use serde_json::Value;
use std::alloc::{AllocError, Global};
use swarm_model::{BlobRow, BotRow, TaskRow};

/// A type whose values have lines in a base.
pub trait BaseLine {
    /// The row that the line of a value tells.
    ghost told: { Self → BaseRow };

    /// The JSON value of the line.
    fn to_value(&self, alloc: Global) -> Result<Value, AllocError>
        ensures value { IfOk result (λ value. view value ≡ row_data (told self.now)) }
        ensures holds { OnOk result (HoldsRow (told self.now)) };
}

impl BaseLine for PoolLine {
    ghost told = { λ pool. told_row.Pool pool };

    fn to_value(&self, alloc: Global) -> Result<Value, AllocError> {
        pool_value(alloc, self)
    }
}

impl BaseLine for TaskRow {
    ghost told = { λ task. told_row.Task task };

    fn to_value(&self, alloc: Global) -> Result<Value, AllocError> {
        task_value(alloc, self)
    }
}

impl BaseLine for BotRow {
    ghost told = { λ bot. told_row.Bot bot };

    fn to_value(&self, alloc: Global) -> Result<Value, AllocError> {
        bot_value(alloc, self)
    }
}

impl BaseLine for BlobRow {
    ghost told = { λ blob. told_row.Blob blob };

    fn to_value(&self, alloc: Global) -> Result<Value, AllocError> {
        blob_value(alloc, self)
    }
}

impl BaseLine for BaseRow {
    ghost told = { λ row. row };

    fn to_value(&self, alloc: Global) -> Result<Value, AllocError> {
        match self {
            BaseRow::Pool(pool) => pool_value(alloc, pool),
            BaseRow::Task(task) => task_value(alloc, task),
            BaseRow::Bot(bot) => bot_value(alloc, bot),
            BaseRow::Blob(blob) => blob_value(alloc, blob),
        }
    }
}
