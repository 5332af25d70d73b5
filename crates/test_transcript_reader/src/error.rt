use std::alloc::{AllocError, AllocFailed};
use std::error::Error;
use std::fmt;

/// What is wrong with a line of a text.
#[derive(Debug, Drop)]
pub enum TextFault {
    /// A part of the line is not what has to stand there.
    Form { wanted: &'static str, came: String },
    /// A name that no line above gives.
    UnknownName(String),
    RepeatedName(String),
    /// No line below has use of the name.
    UnusedName(String),
    /// No transcript of this name stands above.
    UnknownTranscript(String),
    RepeatedTranscript(String),
    /// The line belongs to a transcript, and stands before the first.
    OutsideTranscript,
    /// `from` stands behind a row.
    LateFrom,
    /// The transcript has a file of this path already.
    RepeatedFile(String),
    /// `file` stands behind a row.
    LateFile,
    /// What fails of the store stands behind `again`.
    LateStore,
    /// A line of a file that does not stand right below its `file` or another line of it.
    LineWithoutFile,
    /// A line of a base or of a log before the first records.
    LineWithoutRecords,
    RequestWithoutCaller,
    FieldWithoutRequest,
    /// A reply before the first request, or the second reply to one.
    ReplyWithoutRequest,
}

impl fmt::Display for TextFault {
    fn fmt<W: fmt::Write>(&self, f: &mut fmt::Formatter<W>) -> fmt::Result {
        match self {
            TextFault::Form { wanted, came } => write!(f, "{wanted} is wanted, and not `{came}`"),
            TextFault::UnknownName(name) => write!(f, "the name `{name}` was not given before"),
            TextFault::RepeatedName(name) => write!(f, "the name `{name}` was given before"),
            TextFault::UnusedName(name) => write!(f, "the name `{name}` is used nowhere below"),
            TextFault::UnknownTranscript(name) => {
                write!(f, "no transcript `{name}` ends above this line")
            }
            TextFault::RepeatedTranscript(name) => {
                write!(f, "there is a transcript `{name}` above this line")
            }
            TextFault::OutsideTranscript => write!(f, "this line stands outside any transcript"),
            TextFault::LateFrom => write!(f, "`from` has to stand before the first row"),
            TextFault::RepeatedFile(path) => {
                write!(f, "the transcript has a file `{path}` already")
            }
            TextFault::LateFile => write!(f, "`file` has to stand before the first row"),
            TextFault::LateStore => {
                write!(
                    f,
                    "what fails of the store has to stand before the first `again`"
                )
            }
            TextFault::LineWithoutFile => write!(f, "no file stands right above this line of one"),
            TextFault::LineWithoutRecords => write!(f, "no records stand above this line of some"),
            TextFault::RequestWithoutCaller => write!(f, "this request has no caller"),
            TextFault::FieldWithoutRequest => write!(f, "no request follows this field"),
            TextFault::ReplyWithoutRequest => write!(f, "this reply has no request before it"),
        }
    }
}

impl TextFault {
    /// The error of this fault at a line.
    pub(crate) fn at(self, line: usize) -> TranscriptError {
        TranscriptError::Text { line, fault: self }
    }
}

/// Why a text holds no transcripts, or how a run differs from its transcript. Lines are those of the
/// text, counted from 1.
#[derive(Debug, Drop)]
pub enum TranscriptError {
    /// A line is not of the form.
    Text {
        line: usize,
        fault: TextFault,
    },
    /// Other bytes came than those of the reply at this line. Both are shown from the same place on,
    /// a little before the first byte that differs.
    Reply {
        line: usize,
        wanted: String,
        came: String,
    },
    /// More bytes came than those of the replies, the last of which stands at this line.
    More {
        line: usize,
        came: String,
    },
    /// The program ended with another status than the transcript that begins at this line has.
    Status {
        line: usize,
        wanted: u8,
        came: u8,
    },
    /// The transcript that begins at this line has so many connections, or so many links that are
    /// dialed, and another number of them was used.
    Links {
        line: usize,
        wanted: usize,
        came: usize,
    },
    /// The clock was asked for more moments, or for fewer, than the transcript that begins at this
    /// line has.
    Moments {
        line: usize,
        wanted: usize,
        came: usize,
    },
    /// More seconds were waited, or fewer, than the transcript that begins at this line has.
    Waits {
        line: usize,
        wanted: u64,
        came: u64,
    },
    /// The run in which the call of this number failed, or the line of this number was cut, is none
    /// of those that there may be.
    Case {
        line: usize,
        number: u64,
        text: String,
    },
    /// Of the calls that were to fail in runs of the transcript that begins at this line, so many
    /// came, and it is to have others.
    Cases {
        line: usize,
        wanted: usize,
        came: usize,
    },
    /// The store had no keeper for the records at this line, or its keeper failed.
    Store {
        line: usize,
    },
    /// Of so many answers that the runner gives in the transcript that begins at this line, some were
    /// not taken.
    RunnerAnswers {
        line: usize,
        wanted: usize,
        left: usize,
    },
    Memory,
}

impl TranscriptError {
    /// The line that it is about, or 0 for none.
    pub fn line(&self) -> usize {
        match self {
            TranscriptError::Text { line, .. }
            | TranscriptError::Reply { line, .. }
            | TranscriptError::More { line, .. }
            | TranscriptError::Status { line, .. }
            | TranscriptError::Links { line, .. }
            | TranscriptError::Moments { line, .. }
            | TranscriptError::Waits { line, .. }
            | TranscriptError::Case { line, .. }
            | TranscriptError::Cases { line, .. }
            | TranscriptError::Store { line }
            | TranscriptError::RunnerAnswers { line, .. } => *line,
            TranscriptError::Memory => 0,
        }
    }
}

/// What was wanted and what came, without the line.
impl fmt::Display for TranscriptError {
    fn fmt<W: fmt::Write>(&self, f: &mut fmt::Formatter<W>) -> fmt::Result {
        match self {
            TranscriptError::Text { fault, .. } => write!(f, "{fault}"),
            TranscriptError::Reply { wanted, came, .. } => {
                write!(f, "{wanted} was wanted, and {came} came")
            }
            TranscriptError::More { came, .. } => {
                write!(
                    f,
                    "nothing was wanted behind the last reply, and {came} came"
                )
            }
            TranscriptError::Status { wanted, came, .. } => {
                write!(f, "status {wanted} was wanted, and {came} came")
            }
            TranscriptError::Links { wanted, came, .. } => write!(
                f,
                "{wanted} links were to be used, and {came} were"
            ),
            TranscriptError::Moments { wanted, came, .. } => write!(
                f,
                "the clock was to be asked {wanted} times, and was asked {came} times"
            ),
            TranscriptError::Waits { wanted, came, .. } => write!(
                f,
                "{wanted} seconds were to be waited, and {came} were"
            ),
            TranscriptError::Case { number, text, .. } => write!(f, "case {number}: {text}"),
            TranscriptError::Cases { wanted, came, .. } => write!(
                f,
                "{wanted} calls were to fail in a run each, and {came} did"
            ),
            TranscriptError::Store { .. } => write!(f, "the store failed"),
            TranscriptError::RunnerAnswers { wanted, left, .. } => write!(
                f,
                "all {wanted} answers of the runner were to be taken, and {left} are left"
            ),
            TranscriptError::Memory => write!(f, "there was no memory"),
        }
    }
}

impl Error for TextFault {}

impl Error for TranscriptError {}

impl From<AllocError> for TranscriptError {
    fn from(_error: AllocError) -> TranscriptError {
        TranscriptError::Memory
    }
}

impl<T: Drop> From<AllocFailed<T>> for TranscriptError {
    fn from(_error: AllocFailed<T>) -> TranscriptError {
        TranscriptError::Memory
    }
}
