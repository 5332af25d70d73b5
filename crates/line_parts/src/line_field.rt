//! What a line is made of.
ghost use Rattle.std.specs.Prelude.{◌≡◌, ℕ, ◌≤◌, false, IfOk, OnOk, Option, Some, None};
ghost use Rattle.serde_json.specs.Data.{Data, depth};
ghost use Rattle.serde_json.specs.Find.{as_null};
ghost use Rattle.serde_json.specs.View.{view};
ghost use Rattle.serde_json.specs.Written.{has_float};
ghost use Rattle.line_parts.specs.Finding.{Finds};

use crate::LineFault;
use serde_json::Value;
use std::alloc::{AllocError, Global};

/// A type whose values stand in lines, each as one JSON value that tells it.
pub trait LineField: Sized {
    /// The JSON value that is written for a value of the type.
    ghost data_of: { Self → Data };

    /// The value of the type that is read of a JSON value. It may read more than what is written.
    ghost value_in: { Data → Option Self };

    /// What holds of each value that the type can have, such as that a `u32` is below 2^32.
    ghost Holds: { Self → Type 0 };

    /// How many arrays and objects are nested at most in what is written.
    ghost levels: { ℕ };

    /// Writes the value.
    fn to_value(&self, alloc: Global) -> Result<Value, AllocError>
        ensures value { IfOk result (λ value. view value ≡ data_of self.now) }
        ensures holds { OnOk result (Holds self.now) };

    /// Reads a value.
    fn from_value(alloc: Global, value: &Value) -> Result<Self, LineFault>
        ensures { Finds result (value_in (view value.now)) };

    /// What is written is read as the value that it was written for.
    ghost reads_back: { (x : Self) → Holds x → value_in (data_of x) ≡ Some x };

    /// What is written has a text: that of a float is not determined.
    ghost has_no_float: { (x : Self) → has_float (data_of x) ≡ false };

    /// What is written nests within the levels that a reader of JSON allows.
    ghost within_levels: { (x : Self) → depth (data_of x) ≤ levels };
}

/// A type whose values are never written as null, so that null can stand for none.
pub trait NotNull: LineField {
    ghost never_null: { (x : Self) → as_null (Self.data_of x) ≡ None };
}
