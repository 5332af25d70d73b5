use crate::{Conversation, Each, PoolRecords};
use runners::RunnerAnswer;
use std::alloc::{AllocError, Global};

/// The bytes of a reply, and the line at which it stands.
#[derive(Drop)]
pub struct Reply {
    pub line: usize,
    pub bytes: Vec<u8>,
}

/// A file that the program finds.
#[derive(Drop)]
pub struct File {
    pub path: String,
    pub bytes: Vec<u8>,
}

impl File {
    /// Adds a line, which ends in LF.
    pub(crate) fn add_line(&mut self, text: &[u8]) -> Result<(), AllocError> {
        self.bytes.extend_from_slice(text)?;
        self.bytes.push(b'\n')?;
        Ok(())
    }
}

/// The sizes of the pieces in which the bytes of a connection come, from the first to the last.
#[derive(Clone, Copy, Debug, PartialEq, Eq)]
pub struct Pieces {
    pub first: usize,
    pub last: usize,
}

/// One run of the program, and what it is to answer.
#[derive(Drop)]
pub struct Transcript {
    pub name: String,
    /// The line at which it begins.
    pub line: usize,
    /// Whether it goes on with the store that the run before it left.
    pub is_again: bool,
    /// The words of the command line.
    pub words: Vec<String>,
    /// What goes over the console.
    pub console: Conversation,
    /// Texts that stand somewhere in what is printed. Where there are some, the console's replies
    /// are not compared.
    pub mentions: Vec<Vec<u8>>,
    /// What goes over the links that come to the first acceptor that the listener gives, in order.
    pub connections: Vec<Conversation>,
    /// What goes over those that come to each acceptor behind it.
    pub further_connections: Vec<Vec<Conversation>>,
    /// What goes over the links that the program dials, in order.
    pub dials: Vec<Conversation>,
    /// Where the last dialed link's bytes are also cut at each place: the status with which the
    /// program then ends, once it has printed nothing.
    pub cut_status: Option<u8>,
    /// The moments that the clock answers, in seconds and in order.
    pub moments: Vec<u64>,
    /// How many seconds are waited in all, where that is compared.
    pub waits: Option<u64>,
    /// The step of the second clock over which it is run, in seconds.
    pub step: Option<u64>,
    pub pieces: Pieces,
    /// The numbers of the calls that listen, accept and dial and that fail, each kind by itself.
    pub listen_fails: Vec<u64>,
    pub accept_fails: Vec<u64>,
    pub dial_fails: Vec<u64>,
    /// What the runner answers to the calls on it, in order.
    pub runner_answers: Vec<RunnerAnswer>,
    /// The files, no two of which have one path.
    pub files: Vec<File>,
    /// The numbers of the loads of files that fail.
    pub file_fails: Vec<u64>,
    /// The numbers of the attaches of keepers that fail, over all runs of the store.
    pub attach_fails: Vec<u64>,
    /// The numbers of the calls that fail, of each keeper in the order in which they are attached.
    pub keeper_fails: Vec<Vec<u64>>,
    /// What is put into the store before the run.
    pub records_before: Vec<PoolRecords>,
    /// What the store keeps behind it.
    pub records_after: Vec<PoolRecords>,
    /// What it is also repeated for.
    pub each: Vec<Each>,
    /// The status with which the program ends.
    pub status: u8,
}

impl Transcript {
    /// A transcript without rows, whose one word is `session`.
    pub(crate) fn new(alloc: Global, name: &str, line: usize) -> Result<Transcript, AllocError> {
        Ok(Transcript {
            name: String::from_str(alloc, name)?,
            line,
            is_again: false,
            words: vec![in alloc; String::from_str(alloc, "session")?]?,
            console: Conversation::new(alloc, line),
            mentions: Vec::new(alloc),
            connections: Vec::new(alloc),
            further_connections: Vec::new(alloc),
            dials: Vec::new(alloc),
            cut_status: None,
            moments: Vec::new(alloc),
            waits: None,
            step: None,
            pieces: Pieces {
                first: 1000,
                last: 1000,
            },
            listen_fails: Vec::new(alloc),
            accept_fails: Vec::new(alloc),
            dial_fails: Vec::new(alloc),
            runner_answers: Vec::new(alloc),
            files: Vec::new(alloc),
            file_fails: Vec::new(alloc),
            attach_fails: Vec::new(alloc),
            keeper_fails: Vec::new(alloc),
            records_before: Vec::new(alloc),
            records_after: Vec::new(alloc),
            each: Vec::new(alloc),
            status: 0,
        })
    }

    /// What goes over the links that come to the last acceptor.
    pub(crate) fn last_connections(&mut self) -> &mut Vec<Conversation> {
        match self.further_connections.last_mut() {
            Some(last) => last,
            None => &mut self.connections,
        }
    }

    /// The next run over the same store, which has the words and the files of this one.
    pub(crate) fn next_run(&self, alloc: Global, line: usize) -> Result<Transcript, AllocError> {
        let mut next = Transcript::new(alloc, self.name.as_str(), line)?;
        next.is_again = true;
        next.words.clear();
        for word in self.words.iter() {
            next.words.push(String::from_str(alloc, word.as_str())?)?;
        }
        for file in self.files.iter() {
            let path = String::from_str(alloc, file.path.as_str())?;
            let bytes = Vec::from_slice(alloc, file.bytes.as_slice())?;
            next.files.push(File { path, bytes })?;
        }
        Ok(next)
    }
}
