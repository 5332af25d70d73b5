use batch_plays::BatchTurn;
use dimensions::Text;
use refusal_codes::RefusalCode;
use std::alloc::{AllocError, Global};

/// A file of tasks, the name under which it is read, and its progress.
#[derive(Drop)]
pub(crate) struct Opening {
    pub(crate) name: String,
    pub(crate) file: Vec<u8>,
    pub(crate) done: Option<Vec<u8>>,
}

/// What is done or wanted at a line of a case.
#[derive(Drop)]
pub(crate) enum Step {
    /// A file is read.
    Read(Opening),
    /// It is refused at this line, by this rule.
    Broken {
        opening: Opening,
        line: u32,
        rule: String,
    },
    Again(Vec<u8>),
    Next(Option<u32>),
    Body(Vec<u8>),
    Told {
        place: u32,
        task: u32,
    },
    Refused {
        code: RefusalCode,
        again: bool,
    },
    Progress(Vec<u8>),
    Printed(Vec<u8>),
    Turns(Vec<BatchTurn>),
    Log(u64),
    /// A batch may have this name, or may not.
    Name {
        name: Vec<u8>,
        may: bool,
    },
    /// The name in the first line of a progress.
    Names {
        name: Option<Vec<u8>>,
        text: Vec<u8>,
    },
}

/// A step with the number of its line.
#[derive(Drop)]
pub(crate) struct Row {
    pub(crate) line: usize,
    pub(crate) step: Step,
}

/// The rows of one pool. The name and the file are those of the next reading.
#[derive(Drop)]
pub(crate) struct Case {
    pub(crate) line: usize,
    pub(crate) who: Text,
    pub(crate) name: String,
    pub(crate) file: Vec<u8>,
    pub(crate) settings: Option<Vec<u8>>,
    pub(crate) rows: Vec<Row>,
}

impl Case {
    pub(crate) fn new(alloc: Global, line: usize) -> Result<Case, AllocError> {
        Ok(Case {
            line,
            who: Text::from_str(alloc, "ana")?,
            name: String::from_str(alloc, "n1")?,
            file: Vec::new(alloc),
            settings: None,
            rows: Vec::new(alloc),
        })
    }
}
