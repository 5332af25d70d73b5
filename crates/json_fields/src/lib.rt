//! The fields of a JSON object (RFC 8259), read by their keys.
//!
//! [`read_body`] is the value that a text is. Each reader of a field gives the value there, or the
//! rule that it breaks with the key as its path, exactly as the definition beside it says
//! (`specs/Fields.antt`), but for want of memory: `Gives` and `Reads` of `specs/Readings.antt`. A
//! null is as absent. Of a key that comes twice the last value counts. A number is one that is held
//! as whole, or a text of its digits (`specs/Numbers.antt`). [`unknown_key`] finds a key that isn't
//! known. [`broken`] and [`broken_at`] make a fault, and [`below`] and [`below_place`] put it below
//! the key or the place where its value stands, so that a path grows from the value outwards.
//!
//! Lists are read here alone, item by item: of texts ([`read_texts`], [`read_optional_texts`]), and
//! of objects ([`read_objects`], [`read_optional_objects`]), whose fields a [`ReadFields`] reads.
//!
//! Where the object isn't needed any more, the same is taken out of it, so that no text is copied:
//! [`take_text`], [`take_texts`], [`take_object`], [`take_objects`] by a [`TakeFields`], and their
//! kin. What is left is the object without that key (`specs/Taken.antt`), in which every other field
//! is read as before (`proofs/LeftFields.antt`).
//!
//! The ids of tasks and of their runs are shown by [`task_id`] and [`run_id`] and read by
//! [`read_id`] and [`read_run`], and [`id_tells_its_parts`] is the law by which the number of an id
//! tells the place, the task and the try that it was made of (`specs/Ids.antt`). The number of the
//! place and the task alone has the law [`number_tells_its_parts`].
//!
//! Of what a field may hold beyond its type, this crate has what the bodies of clients and of bots
//! share: [`read_whole`], for a number within a range (`specs/Ranges.antt`), [`read_limit`], for
//! how many rows a page shows (`specs/Pages.antt`), and [`read_digest_at`], for the digest of a
//! content (`specs/Digests.antt`). It stands on the rules of `task_props`, on the texts and lists of
//! `dimensions`, and on `serde_json`.
#![tactic(auto)]

mod body;
mod checks;
mod digests;
mod faults;
mod fields;
mod ids;
mod keys;
mod lists;
mod numbers;
mod pages;
mod ranges;
mod taken;
mod taken_lists;

pub use body::read_body;
pub use checks::{CheckItem, check_items};
pub use digests::read_digest_at;
pub use faults::{below, below_place, broken, broken_at};
pub use fields::{
    list_in, present, read_flag, read_number, read_optional_number, read_required_text, read_text,
    values_of,
};
pub use ids::{
    id_tells_its_parts, number_tells_its_parts, place_of_id, place_of_number, read_id, read_run,
    run_id, shown_number, task_id, task_of_id, task_of_number, try_of_id,
};
pub use keys::unknown_key;
pub use lists::{ReadFields, read_objects, read_optional_objects, read_optional_texts, read_texts};
pub use pages::read_limit;
pub use ranges::read_whole;
pub use taken::{take_object, take_required_text, take_text};
pub use taken_lists::{
    TakeFields, take_objects, take_optional_objects, take_optional_texts, take_texts,
};
