//! The inputs of a slice: the first rule that they break, and the files that they mean.
ghost use Rattle.std.specs.Prelude.{◌≡◌, None, IfOk, map};
ghost use Rattle.std.specs.List.{All, list_any};
ghost use Rattle.dimensions.specs.Choosing.{when, ◌or_else◌};
ghost use Rattle.dimensions.specs.Order.{sorted_by};
ghost use Rattle.task_props.specs.declared.prop_rule.PropRule.TheVariants.{Repeated};
ghost use Rattle.task_props.specs.FieldRules.{digest_rule as spec_digest_rule, size_rule as spec_size_rule};
ghost use Rattle.task_props.specs.Paths.{path_rule as spec_path_rule};
ghost use Rattle.task_props.specs.Sorted.{is_file_below};
ghost use Rattle.task_checks.specs.Inputs.{has_input_path as spec_has_input_path, broken_input, broken_inputs as spec_broken_inputs};
ghost use Rattle.task_checks.specs.Reading.{digest_of as spec_digest_of, file_of};

use crate::RawFile;
use crate::field_rules::{LARGEST_CONTENT, digest_rule, natural, size_rule};
use crate::item_rule::{ItemRule, first_broken_item};
use crate::item_rules::most_rule;
use crate::paths::path_rule;
use dimensions::{Seq, Text};
use std::alloc::{AllocError, Global};
use task_props::{Digest, File, PropRule, SliceField, read_digest};

fn has_input_path(files: &[RawFile], path: &Text) -> bool
    ensures { result ≡ list_any (spec_has_input_path path.now) files.now }
{
    files.iter().any(|file| file.path == *path)
}

/// The rule that a path breaks by itself, or by standing at an earlier input already.
fn new_input_path_rule(earlier: &[RawFile], path: &Text) -> Option<PropRule>
    ensures { result ≡ (spec_path_rule path.now or_else when (list_any (spec_has_input_path path.now) earlier.now) Repeated) }
{
    if let Some(rule) = path_rule(path.as_str()) {
        return Some(rule);
    }
    if has_input_path(earlier, path) {
        return Some(PropRule::Repeated);
    }
    None
}

struct EachInput;

impl ItemRule for EachInput {
    type Item = RawFile;

    ghost rule_of = { λ _. broken_input };

    fn broken(&self, earlier: &[RawFile], file: &RawFile) -> Option<(SliceField, PropRule)> {
        let place = earlier.len() as u32;
        if let Some(rule) = new_input_path_rule(earlier, &file.path) {
            return Some((SliceField::InputPath { place }, rule));
        }
        if let Some(rule) = digest_rule(file.digest.as_str()) {
            return Some((SliceField::InputDigest { place }, rule));
        }
        let rule = size_rule(file.size)?;
        Some((SliceField::InputSize { place }, rule))
    }
}

pub(crate) fn broken_inputs(files: &[RawFile]) -> Option<(SliceField, PropRule)>
    ensures { result ≡ spec_broken_inputs files.now }
{
    if let Some(rule) = most_rule(64, files.len()) {
        return Some((SliceField::Inputs, rule));
    }
    first_broken_item(&EachInput, files)
}

/// The digest that a text of 64 hexadecimal digits writes.
fn digest_of(text: &str) -> Digest
    requires { spec_digest_rule text.now ≡ None }
    ensures { result ≡ spec_digest_of text.now }
{
    match read_digest(text) {
        Some(digest) => digest,
        None => [0; 32],
    }
}

fn read_file(raw: RawFile) -> File
    requires digest { spec_digest_rule raw.digest ≡ None }
    requires size { spec_size_rule raw.size ≡ None }
    ensures { result ≡ file_of raw }
{
    File {
        digest: digest_of(raw.digest.as_str()),
        path: raw.path,
        size: natural(0, LARGEST_CONTENT, raw.size),
    }
}

fn read_files(alloc: Global, raw: Seq<RawFile>) -> Result<Seq<File>, AllocError>
    requires digests { All (λ file. spec_digest_rule file.digest ≡ None) raw }
    requires sizes { All (λ file. spec_size_rule file.size ≡ None) raw }
    ensures { IfOk result (λ files. files ≡ map file_of raw) }
{
    let raw = raw.into_vec();
    let mut files = Vec::with_capacity(alloc, raw.len())?;
    for file in raw {
        files.push(read_file(file))?;
    }
    Ok(Seq::from_vec(files))
}

fn sorted_inputs(files: Seq<File>) -> Result<Seq<File>, AllocError>
    ensures { IfOk result (λ sorted. sorted ≡ sorted_by is_file_below files) }
{
    let sorted = files.into_sorted()?;
    Ok(sorted)
}

/// The files of inputs that break no rule, in order.
pub(crate) fn read_inputs(alloc: Global, raw: Seq<RawFile>) -> Result<Seq<File>, AllocError>
    requires { spec_broken_inputs raw ≡ None }
    ensures { IfOk result (λ files. files ≡ sorted_by is_file_below (map file_of raw)) }
{
    let files = read_files(alloc, raw)?;
    sorted_inputs(files)
}
