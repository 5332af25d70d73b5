//! A bot's report on its run.
ghost use Rattle.std.specs.Prelude.{◌≡◌, ◌≤◌, ◌%◌, ◌^◌, true, IfOk, IfSome, length, codes};
ghost use Rattle.std.specs.List.{list_all};
ghost use Rattle.std.specs.Option.{option_map_or};
ghost use Rattle.sha2.specs.Sha256.{sha256};
ghost use Rattle.serde_json.specs.View.{view};
ghost use Rattle.json_fields.specs.Readings.{Reads, at};
ghost use Rattle.json_fields.specs.Ids.{is_try};
ghost use Rattle.swarm_model.specs.Fits.{is_name, fits_chunk, fits_last};
ghost use Rattle.task_props.specs.Sorted.{is_file};
ghost use Rattle.bot_bodies.specs.ExitCodes.{code_of as spec_code_of};
ghost use Rattle.bot_bodies.specs.Reports.{raw_exit_in, raw_end_in, raw_report_in, end_of, last_of as spec_last_of, report_of, report_in};

use crate::exit_codes::code_of;
use crate::files::{read_files, read_raw_files};
use crate::names::{read_kept_text, read_name};
use crate::outputs::{Output, RawOutput, read_output, read_raw_output};
use dimensions::{Seq, Text};
use json_fields::{broken, read_flag, read_number, read_optional_number, read_run, read_whole};
use serde_json::Value;
use std::alloc::Global;
use swarm_model::Last;
use task_checks::RawFile;
use task_props::{File, PropFault};

/// How a run ended, as it was read.
#[derive(Clone, Copy)]
pub(crate) struct RawExit {
    pub exit_code: Option<i128>,
    pub duration_ms: i128,
    pub hard_timeout: bool,
    pub io_timeout: bool,
}

/// The end of a run, as it was read.
#[derive(Drop)]
pub(crate) struct RawEnd {
    pub exit: RawExit,
    pub dropped: i128,
    pub files: Seq<RawFile>,
}

/// A report, as it was read.
#[derive(Drop)]
pub(crate) struct RawReport {
    pub bot: Text,
    pub run: Text,
    pub output: RawOutput,
    pub end: RawEnd,
}

/// The end of a run, checked. The run has ended where there is an exit code.
#[derive(Drop)]
pub(crate) struct End {
    pub exit_code: Option<i32>,
    pub duration_ms: u64,
    pub hard_timeout: bool,
    pub io_timeout: bool,
    pub dropped: u64,
    pub files: Seq<File>,
}

/// A report on the run of an id.
#[derive(Drop)]
pub struct Report {
    pub bot: Text,
    pub run: u32,
    pub output: Output,
    /// The end of the run, where it has ended.
    pub last: Option<Last>,
}

#[tactic(auto, unfolding(crate::specs::Reports::raw_exit_in))]
fn read_raw_exit(alloc: Global, body: &Value) -> Result<RawExit, PropFault>
    ensures { Reads result (raw_exit_in (view body.now)) }
{
    let exit_code = read_optional_number(alloc, body, "exit_code")?;
    let duration_ms = read_number(alloc, body, "duration_ms")?;
    let hard_timeout = read_flag(alloc, body, "hard_timeout")?;
    let io_timeout = read_flag(alloc, body, "io_timeout")?;
    Ok(RawExit {
        exit_code,
        duration_ms,
        hard_timeout,
        io_timeout,
    })
}

#[tactic(auto, unfolding(crate::specs::Reports::raw_end_in))]
fn read_raw_end(alloc: Global, body: &Value) -> Result<RawEnd, PropFault>
    ensures { Reads result (raw_end_in (view body.now)) }
{
    let exit = read_raw_exit(alloc, body)?;
    let dropped = read_number(alloc, body, "dropped")?;
    let files = read_raw_files(alloc, body)?;
    Ok(RawEnd {
        exit,
        dropped,
        files,
    })
}

#[tactic(auto, unfolding(crate::specs::Reports::raw_report_in))]
fn read_raw_report(alloc: Global, body: &Value) -> Result<RawReport, PropFault>
    ensures { Reads result (raw_report_in (view body.now)) }
{
    let bot = read_kept_text(alloc, body, "bot_id")?;
    let run = read_kept_text(alloc, body, "task_id")?;
    let output = read_raw_output(alloc, body)?;
    let end = read_raw_end(alloc, body)?;
    Ok(RawReport {
        bot,
        run,
        output,
        end,
    })
}

fn read_code(alloc: Global, code: Option<i128>) -> Result<Option<i32>, PropFault>
    ensures { Reads result (at (codes "exit_code") (spec_code_of code)) }
{
    match code_of(code) {
        Ok(code) => Ok(code),
        Err(rule) => Err(broken(alloc, "exit_code", rule)),
    }
}

#[tactic(auto, unfolding(crate::specs::Reports::end_of))]
fn read_end(alloc: Global, raw: RawEnd) -> Result<End, PropFault>
    ensures exact { Reads result (end_of raw) }
    ensures duration { IfOk result (λ end. end.duration_ms ≤ 2 ^ 40) }
    ensures dropped { IfOk result (λ end. end.dropped ≤ 2 ^ 53) }
    ensures files { IfOk result (λ end. list_all is_file end.files ≡ true) }
    ensures few { IfOk result (λ end. length end.files ≤ 64) }
{
    let exit_code = read_code(alloc, raw.exit.exit_code)?;
    let duration_ms = read_whole(alloc, "duration_ms", 0, 1 << 40, raw.exit.duration_ms)?;
    let dropped = read_whole(alloc, "dropped", 0, 1 << 53, raw.dropped)?;
    let files = read_files(alloc, raw.files.as_slice())?;
    Ok(End {
        exit_code,
        duration_ms,
        hard_timeout: raw.exit.hard_timeout,
        io_timeout: raw.exit.io_timeout,
        dropped,
        files,
    })
}

/// How the run ended, where it has.
fn last_of(end: End) -> Option<Last>
    requires duration { end.duration_ms ≤ 2 ^ 40 }
    requires dropped { end.dropped ≤ 2 ^ 53 }
    requires files { list_all is_file end.files ≡ true }
    requires few { length end.files ≤ 64 }
    ensures is { result ≡ spec_last_of end }
    ensures fits { option_map_or fits_last result true ≡ true }
{
    let exit_code = end.exit_code?;
    Some(Last {
        exit_code,
        duration_ms: end.duration_ms,
        hard_timeout: end.hard_timeout,
        io_timeout: end.io_timeout,
        dropped: end.dropped,
        files: end.files,
    })
}

#[tactic(auto, unfolding(crate::specs::Reports::report_of))]
fn check_report(alloc: Global, raw: RawReport) -> Result<Report, PropFault>
    ensures exact { Reads result (report_of raw) }
    ensures named { IfOk result (λ report. is_name report.bot ≡ true) }
    ensures try_no { IfOk result (λ report. is_try (report.run % 16) ≡ true) }
    ensures chunk { IfOk result (λ report. option_map_or fits_chunk report.output.chunk true ≡ true) }
    ensures last { IfOk result (λ report. option_map_or fits_last report.last true ≡ true) }
    ensures digest { IfOk result (λ report. IfSome report.output.chunk (λ chunk. chunk.digest ≡ sha256 report.output.bytes)) }
    ensures size { IfOk result (λ report. IfSome report.output.chunk (λ chunk. chunk.size ≡ length report.output.bytes)) }
{
    let bot = read_name(alloc, "bot_id", raw.bot.as_str())?;
    let run = read_run(alloc, raw.run.as_str())?;
    let output = read_output(alloc, &raw.output)?;
    let end = read_end(alloc, raw.end)?;
    Ok(Report {
        bot,
        run,
        output,
        last: last_of(end),
    })
}

/// The report in a body.
#[tactic(auto, unfolding(crate::specs::Reports::report_in))]
pub fn read_report(alloc: Global, body: &Value) -> Result<Report, PropFault>
    ensures exact { Reads result (report_in (view body.now)) }
    ensures named { IfOk result (λ report. is_name report.bot ≡ true) }
    ensures try_no { IfOk result (λ report. is_try (report.run % 16) ≡ true) }
    ensures chunk { IfOk result (λ report. option_map_or fits_chunk report.output.chunk true ≡ true) }
    ensures last { IfOk result (λ report. option_map_or fits_last report.last true ≡ true) }
    ensures digest { IfOk result (λ report. IfSome report.output.chunk (λ chunk. chunk.digest ≡ sha256 report.output.bytes)) }
    ensures size { IfOk result (λ report. IfSome report.output.chunk (λ chunk. chunk.size ≡ length report.output.bytes)) }
{
    let raw = read_raw_report(alloc, body)?;
    check_report(alloc, raw)
}
