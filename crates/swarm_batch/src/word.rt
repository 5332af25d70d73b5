//! The words of marks, as they are read.
ghost use Rattle.std.specs.Prelude.{◌≡◌, ℕ, IfOk, IfSome, Some, true};
ghost use Rattle.json_fields.specs.Ids.{task_id as spec_task_id};
ghost use Rattle.swarm_batch.specs.declared.mark.Mark.{Mark as SpecMark};
ghost use Rattle.swarm_batch.specs.declared.mark.Mark.TheVariants.{Task as SpecTask};
ghost use Rattle.swarm_batch.specs.Marks.{is_task as spec_is_task, is_mark, mark_word, unless_transient as spec_unless_transient, final_code, refused_by as spec_refused_by};

use crate::mark::{Mark, is_task};
use json_fields::{place_of_id, task_id, task_of_id};
use refusal_codes::RefusalCode;
use std::alloc::{AllocError, Global};
use std::str;

fn unless_transient(code: RefusalCode) -> Option<RefusalCode>
    ensures { result ≡ spec_unless_transient code }
{
    if code.is_transient() {
        None
    } else {
        Some(code)
    }
}

/// The code of this name, where a line is not sent again after it.
fn code_in(name: &[u8]) -> Option<RefusalCode>
    ensures { result ≡ final_code name.now }
{
    let Ok(name) = str::from_utf8(name) else {
        return None;
    };
    match RefusalCode::from_name(name) {
        Some(code) => unless_transient(code),
        None => None,
    }
}

/// The mark of a refusal by this name.
fn refused_by(name: &[u8]) -> Option<Mark>
    ensures { result ≡ spec_refused_by name.now }
{
    match code_in(name) {
        Some(code) => Some(Mark::Refused { code }),
        None => None,
    }
}

/// The place and the number of the task that the digits of an id would show.
fn shown_task(word: &[u8]) -> Option<(u32, u32)>
    ensures within { IfSome result (λ shown. spec_is_task shown.0 shown.1 ≡ true) }
    ensures found { (place task : ℕ) → spec_is_task place task ≡ true → spec_task_id place task ≡ word.now → result ≡ Some (place, task) }
{
    let Ok(word) = str::from_utf8(word) else {
        return None;
    };
    let Ok(id) = u32::from_str_radix(word, 16) else {
        return None;
    };
    let place = place_of_id(id);
    let task = task_of_id(id);
    if is_task(place, task) {
        Some((place, task))
    } else {
        None
    }
}

/// The task of this id.
fn task_in(alloc: Global, word: &[u8]) -> Result<Option<Mark>, AllocError>
    ensures is { IfOk result (λ o. IfSome o (λ mark. (is_mark mark ≡ true) × (mark_word mark ≡ word.now))) }
    ensures found { IfOk result (λ o. (place task : ℕ) → spec_is_task place task ≡ true → spec_task_id place task ≡ word.now → o ≡ Some (SpecTask place task)) }
{
    let Some((place, task)) = shown_task(word) else {
        return Ok(None);
    };
    let id = task_id(alloc, place, task)?;
    if id.as_bytes() == word {
        Ok(Some(Mark::Task { place, task }))
    } else {
        Ok(None)
    }
}

/// The mark of this word.
pub(crate) fn read_word(alloc: Global, word: &[u8]) -> Result<Option<Mark>, AllocError>
    ensures is { IfOk result (λ o. IfSome o (λ mark. (is_mark mark ≡ true) × (mark_word mark ≡ word.now))) }
    ensures found { IfOk result (λ o. (mark : SpecMark) → is_mark mark ≡ true → mark_word mark ≡ word.now → o ≡ Some mark) }
{
    match word.strip_prefix(b"!".as_slice()) {
        Some(name) => Ok(refused_by(name)),
        None => task_in(alloc, word),
    }
}
