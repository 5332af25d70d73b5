use crate::{Conversation, File, PoolRecords, TextFault, Transcript, TranscriptError};
use std::alloc::{AllocError, Global};
use std::mem;

/// Which link the rows are of.
#[derive(Clone, Copy)]
pub(crate) enum Place {
    Console,
    /// The last of those that come to the last acceptor.
    Connection,
    /// The last of those that are dialed.
    Dial,
}

/// When the store has the records whose lines are read.
#[derive(Clone, Copy)]
pub(crate) enum When {
    BeforeTheRun,
    BehindTheRun,
}

/// A transcript whose lines are being read.
#[derive(Drop)]
pub(crate) struct Draft {
    pub(crate) transcript: Transcript,
    place: Place,
    /// What goes over the link that the rows are of. It is not in the transcript yet.
    pub(crate) link: Conversation,
    has_row: bool,
    has_from: bool,
    /// Whether the next line may be one of the last file.
    is_in_file: bool,
    /// When the store has the records that were begun last.
    when: Option<When>,
    /// How many requests over the link have no reply yet.
    unanswered: usize,
    /// The further fields of the next request, and the line of the last of them.
    fields: Vec<u8>,
    fields_line: usize,
}

impl Draft {
    pub(crate) fn new(alloc: Global, name: &str, line: usize) -> Result<Draft, AllocError> {
        Ok(Draft {
            transcript: Transcript::new(alloc, name, line)?,
            place: Place::Console,
            link: Conversation::new(alloc, line),
            has_row: false,
            has_from: false,
            is_in_file: false,
            when: None,
            unanswered: 0,
            fields: Vec::new(alloc),
            fields_line: line,
        })
    }

    /// The next run over the same store. It has no rows yet, and takes no more files.
    pub(crate) fn next_run(
        alloc: Global,
        before: &Transcript,
        line: usize,
    ) -> Result<Draft, AllocError> {
        Ok(Draft {
            transcript: before.next_run(alloc, line)?,
            place: Place::Console,
            link: Conversation::new(alloc, line),
            has_row: true,
            has_from: false,
            is_in_file: false,
            when: None,
            unanswered: 0,
            fields: Vec::new(alloc),
            fields_line: line,
        })
    }

    /// The transcript, where its store is not in use yet.
    pub(crate) fn before_store(&mut self, line: usize) -> Result<&mut Transcript, TranscriptError> {
        if self.transcript.is_again {
            return Err(TextFault::LateStore.at(line));
        }
        Ok(&mut self.transcript)
    }

    /// Begins the rows of a link.
    pub(crate) fn begin_link(
        &mut self,
        alloc: Global,
        line: usize,
        place: Place,
    ) -> Result<(), AllocError> {
        self.keep_link(Conversation::new(alloc, line))?;
        if matches!(place, Place::Console) {
            let none = Conversation::new(alloc, line);
            self.link = mem::replace(&mut self.transcript.console, none);
        }
        self.has_row = true;
        self.place = place;
        self.unanswered = 0;
        Ok(())
    }

    /// Lets the links that follow come to the next acceptor.
    pub(crate) fn begin_acceptor(&mut self, alloc: Global, line: usize) -> Result<(), AllocError> {
        self.begin_link(alloc, line, Place::Console)?;
        self.transcript.further_connections.push(Vec::new(alloc))?;
        Ok(())
    }

    /// Puts what goes over the link into the transcript, and goes on with the next.
    fn keep_link(&mut self, next: Conversation) -> Result<(), AllocError> {
        let link = mem::replace(&mut self.link, next);
        match self.place {
            Place::Console => self.transcript.console = link,
            Place::Connection => self.transcript.last_connections().push(link)?,
            Place::Dial => self.transcript.dials.push(link)?,
        }
        Ok(())
    }

    /// Begins with the rows and the files of another transcript.
    pub(crate) fn begin_with(
        &mut self,
        alloc: Global,
        line: usize,
        other: &Transcript,
    ) -> Result<(), TranscriptError> {
        if self.has_row || self.has_from {
            return Err(TextFault::LateFrom.at(line));
        }
        self.has_from = true;
        self.link.add_rows(alloc, &other.console)?;
        let moments = other.moments.as_slice();
        self.transcript.moments.extend_from_slice(moments)?;
        for file in other.files.iter() {
            let bytes = Vec::from_slice(alloc, file.bytes.as_slice())?;
            self.add_file(alloc, line, file.path.as_str(), bytes)?;
        }
        Ok(())
    }

    /// Adds a file whose path no other has.
    fn add_file(
        &mut self,
        alloc: Global,
        line: usize,
        path: &str,
        bytes: Vec<u8>,
    ) -> Result<(), TranscriptError> {
        let is_given = self
            .transcript
            .files
            .iter()
            .any(|it| it.path.as_str() == path);
        let path = String::from_str(alloc, path)?;
        if is_given {
            return Err(TextFault::RepeatedFile(path).at(line));
        }
        self.transcript.files.push(File { path, bytes })?;
        Ok(())
    }

    /// Begins a file, which has no lines yet.
    pub(crate) fn begin_file(
        &mut self,
        alloc: Global,
        line: usize,
        path: &str,
    ) -> Result<(), TranscriptError> {
        if self.has_row {
            return Err(TextFault::LateFile.at(line));
        }
        self.add_file(alloc, line, path, Vec::new(alloc))?;
        self.is_in_file = true;
        Ok(())
    }

    /// Adds a line to the file that was begun last.
    pub(crate) fn add_file_line(
        &mut self,
        line: usize,
        text: &[u8],
    ) -> Result<(), TranscriptError> {
        match self.transcript.files.last_mut() {
            Some(file) if self.is_in_file => Ok(file.add_line(text)?),
            _ => Err(TextFault::LineWithoutFile.at(line)),
        }
    }

    /// Lets no more lines come to the last file.
    pub(crate) fn end_file(&mut self) {
        self.is_in_file = false;
    }

    /// Begins records of a pool, which have no lines yet.
    pub(crate) fn begin_records(
        &mut self,
        when: When,
        records: PoolRecords,
    ) -> Result<(), AllocError> {
        match when {
            When::BeforeTheRun => self.transcript.records_before.push(records)?,
            When::BehindTheRun => self.transcript.records_after.push(records)?,
        }
        self.when = Some(when);
        Ok(())
    }

    /// The records that were begun last.
    pub(crate) fn records(&mut self, line: usize) -> Result<&mut PoolRecords, TranscriptError> {
        let records = match self.when {
            Some(When::BeforeTheRun) => self.transcript.records_before.last_mut(),
            Some(When::BehindTheRun) => self.transcript.records_after.last_mut(),
            None => None,
        };
        match records {
            Some(records) => Ok(records),
            None => Err(TextFault::LineWithoutRecords.at(line)),
        }
    }

    /// Adds a field to the head of the next request.
    pub(crate) fn add_field(&mut self, line: usize, field: &[u8]) -> Result<(), AllocError> {
        self.fields.extend_from_slice(field)?;
        self.fields.extend_from_slice(b"\r\n")?;
        self.fields_line = line;
        Ok(())
    }

    /// The fields of the next request, which has them alone.
    pub(crate) fn take_fields(&mut self, alloc: Global) -> Vec<u8> {
        mem::replace(&mut self.fields, Vec::new(alloc))
    }

    /// Adds bytes that are sent.
    pub(crate) fn add_request(&mut self, bytes: &[u8]) -> Result<(), AllocError> {
        self.has_row = true;
        self.unanswered = self.unanswered.saturating_add(1);
        self.link.input.extend_from_slice(bytes)
    }

    /// Adds the reply to one of the requests.
    pub(crate) fn add_reply(&mut self, line: usize, bytes: Vec<u8>) -> Result<(), TranscriptError> {
        if self.unanswered == 0 {
            return Err(TextFault::ReplyWithoutRequest.at(line));
        }
        self.add_bytes(line, bytes)?;
        Ok(())
    }

    /// Adds bytes that are answered, to one of the requests or to none.
    pub(crate) fn add_bytes(&mut self, line: usize, bytes: Vec<u8>) -> Result<(), AllocError> {
        self.has_row = true;
        self.unanswered = self.unanswered.saturating_sub(1);
        self.link.add_reply(line, bytes)
    }

    /// The transcript, all lines of which were read.
    pub(crate) fn end(mut self, alloc: Global) -> Result<Transcript, TranscriptError> {
        if !self.fields.is_empty() {
            return Err(TextFault::FieldWithoutRequest.at(self.fields_line));
        }
        self.keep_link(Conversation::new(alloc, 0))?;
        Ok(self.transcript)
    }
}
