//! The files that a bot reports.
ghost use Rattle.std.specs.Prelude.{◌≡◌, ◌≤◌, true, IfOk, length, codes};
ghost use Rattle.std.specs.List.{list_all};
ghost use Rattle.serde_json.specs.View.{view};
ghost use Rattle.task_props.specs.Sorted.{is_file, is_path};
ghost use Rattle.json_fields.specs.Readings.{Reads, at};
ghost use Rattle.bot_bodies.specs.Files.{file_in, files_in, path_of, file_of, files_of};

use crate::names::read_kept_text;
use dimensions::{Seq, Text};
use json_fields::{
    CheckItem, ReadFields, broken, check_items, read_digest_at, read_number, read_optional_objects,
    read_text, read_whole,
};
use serde_json::Value;
use std::alloc::Global;
use task_checks::{RawFile, path_rule};
use task_props::{File, PropFault};

/// A file.
struct FileFields;

impl ReadFields for FileFields {
    type Value = RawFile;

    ghost fields = { file_in };

    #[tactic(auto, unfolding(crate::specs::Files::file_in))]
    fn read_fields(alloc: Global, file: &Value) -> Result<RawFile, PropFault> {
        let path = read_text(alloc, file, "path")?;
        let digest = read_kept_text(alloc, file, "digest")?;
        let size = read_number(alloc, file, "size")?;
        Ok(RawFile { path, digest, size })
    }
}

/// The files of a body; an absent list is empty.
pub(crate) fn read_raw_files(alloc: Global, body: &Value) -> Result<Seq<RawFile>, PropFault>
    ensures { Reads result (files_in (view body.now)) }
{
    read_optional_objects::<FileFields>(alloc, body, "files")
}

fn read_path(alloc: Global, path: &str) -> Result<Text, PropFault>
    ensures exact { Reads result (at (codes "path") (path_of path.now)) }
    ensures path { IfOk result (λ path. is_path path ≡ true) }
{
    match path_rule(path) {
        None => Ok(Text::from_str(alloc, path)?),
        Some(rule) => Err(broken(alloc, "path", rule)),
    }
}

/// The rules of a file.
struct FileRules;

impl CheckItem for FileRules {
    type Raw = RawFile;

    type Value = File;

    ghost checked = { file_of };

    ghost fits = { is_file };

    #[tactic(auto, using(crate::proofs::Fitting::file_fits), unfolding(crate::specs::Files::file_of))]
    fn check_item(alloc: Global, raw: &RawFile) -> Result<File, PropFault> {
        let path = read_path(alloc, raw.path.as_str())?;
        let digest = read_digest_at(alloc, "digest", raw.digest.as_str())?;
        let size = read_whole(alloc, "size", 0, 16_777_216, raw.size)?;
        Ok(File {
            path,
            digest,
            size: size as u32,
        })
    }
}

/// The same files, checked.
pub(crate) fn read_files(alloc: Global, raws: &[RawFile]) -> Result<Seq<File>, PropFault>
    ensures exact { Reads result (files_of raws.now) }
    ensures fit { IfOk result (λ files. list_all is_file files ≡ true) }
    ensures few { IfOk result (λ files. length files ≤ 64) }
{
    check_items::<FileRules>(alloc, "files", 64, raws)
}
