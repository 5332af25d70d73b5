use crate::draft::{Draft, Place, When};
use crate::each::read_each;
use crate::exchange::{dialed_bytes, reply_bytes, request_bytes};
use crate::names::Names;
use crate::parts::{form_error, is_front, is_name, is_status, read_number, read_numbers};
use crate::runner_answers::read_runner_answer;
use crate::{Pieces, PoolRecords, TextFault, Transcript, TranscriptError};
use std::alloc::Global;

/// What the lines so far have said.
#[derive(Drop)]
struct Reader {
    alloc: Global,
    /// The line that is being read.
    line: usize,
    names: Names,
    caller: Option<String>,
    earlier: Vec<Transcript>,
    current: Option<Draft>,
}

impl Reader {
    fn new(alloc: Global) -> Reader {
        Reader {
            alloc,
            line: 0,
            names: Names::new(alloc),
            caller: None,
            earlier: Vec::new(alloc),
            current: None,
        }
    }

    /// Reads a line: its key, and the entry behind it.
    fn read_line(&mut self, text: &str) -> Result<(), TranscriptError> {
        if text.trim().is_empty() || text.starts_with('#') {
            return Ok(());
        }
        let (key, entry) = text.split_once(' ').unwrap_or((text, ""));
        if key != "|" {
            self.end_file();
        }
        match key {
            "let" => self.give_name(entry),
            "caller" => self.set_caller(entry),
            "transcript" => self.begin(entry),
            "from" => self.begin_with(entry),
            "words" => self.set_words(entry),
            "step" => self.set_step(entry),
            "pieces" => self.set_pieces(entry),
            "fails" => self.set_fails(entry),
            "connection" => self.begin_link(Place::Connection, entry),
            "acceptor" => self.begin_acceptor(entry),
            "dial" => self.begin_link(Place::Dial, entry),
            "console" => self.begin_link(Place::Console, entry),
            "listen_fails" => self.set_listen_fails(entry),
            "accept_fails" => self.set_accept_fails(entry),
            "dial_fails" => self.set_dial_fails(entry),
            "cuts" => self.set_cut_status(entry),
            "mentions" => self.add_mention(entry),
            "file" => self.begin_file(entry),
            "|" => self.add_file_line(entry),
            "file_fails" => self.set_file_fails(entry),
            "attach_fails" => self.set_attach_fails(entry),
            "keeper_fails" => self.add_keeper_fails(entry),
            "puts" => self.begin_records(When::BeforeTheRun, entry),
            "keeps" => self.begin_records(When::BehindTheRun, entry),
            "base" => self.add_base_line(entry),
            "line" => self.add_log_line(entry),
            "again" => self.begin_again(entry),
            "each" => self.add_each(entry),
            "ends" => self.set_status(entry),
            "field" => self.add_field(entry),
            "moment" => self.add_moments(entry),
            "waits" => self.set_waits(entry),
            "runner" => self.add_runner_answer(entry),
            ">" => self.add_request("POST", entry),
            ">put" => self.add_request("PUT", entry),
            ">get" => self.add_request("GET", entry),
            ">reply" => self.add_dialed_reply("application/json", entry),
            ">blob" => self.add_dialed_reply("application/octet-stream", entry),
            "<request" => self.add_dialed_request("POST", entry),
            "<put" => self.add_dialed_request("PUT", entry),
            "<get" => self.add_dialed_request("GET", entry),
            "<" => self.add_reply("application/json", entry),
            "<blob" => self.add_reply("application/octet-stream", entry),
            ">>" => self.add_sent(entry),
            "<<" => self.add_answered(entry),
            _ => Err(self.form_error("a key", key)),
        }
    }

    fn form_error(&self, wanted: &'static str, came: &str) -> TranscriptError {
        form_error(self.alloc, self.line, wanted, came)
    }

    /// The bytes of a text of this line.
    fn expand(&mut self, text: &str) -> Result<Vec<u8>, TranscriptError> {
        self.names.expand(self.alloc, self.line, text)
    }

    /// The transcript that this line belongs to.
    fn draft(&mut self) -> Result<&mut Draft, TranscriptError> {
        match &mut self.current {
            Some(draft) => Ok(draft),
            None => Err(TextFault::OutsideTranscript.at(self.line)),
        }
    }

    fn give_name(&mut self, entry: &str) -> Result<(), TranscriptError> {
        let (name, text) = entry.split_once(' ').unwrap_or((entry, ""));
        let text = self.expand(text)?;
        self.names.give(self.alloc, self.line, name, text)
    }

    fn set_caller(&mut self, caller: &str) -> Result<(), TranscriptError> {
        if caller.is_empty() {
            return Err(self.form_error("a caller", caller));
        }
        self.caller = Some(String::from_str(self.alloc, caller)?);
        Ok(())
    }

    /// Ends the transcript that was read last, if there is one.
    fn end_draft(&mut self) -> Result<(), TranscriptError> {
        if let Some(draft) = self.current.take() {
            self.earlier.push(draft.end(self.alloc)?)?;
        }
        Ok(())
    }

    fn begin(&mut self, name: &str) -> Result<(), TranscriptError> {
        if !is_name(name) {
            return Err(self.form_error("a name of letters, digits and `_`", name));
        }
        self.end_draft()?;
        if self.earlier.iter().any(|it| it.name.as_str() == name) {
            let name = String::from_str(self.alloc, name)?;
            return Err(TextFault::RepeatedTranscript(name).at(self.line));
        }
        self.current = Some(Draft::new(self.alloc, name, self.line)?);
        Ok(())
    }

    fn begin_with(&mut self, name: &str) -> Result<(), TranscriptError> {
        let Some(draft) = &mut self.current else {
            return Err(TextFault::OutsideTranscript.at(self.line));
        };
        match self.earlier.iter().find(|it| it.name.as_str() == name) {
            Some(other) => draft.begin_with(self.alloc, self.line, other),
            None => {
                let name = String::from_str(self.alloc, name)?;
                Err(TextFault::UnknownTranscript(name).at(self.line))
            }
        }
    }

    fn set_words(&mut self, entry: &str) -> Result<(), TranscriptError> {
        let mut words = Vec::new(self.alloc);
        for word in entry.split_whitespace() {
            words.push(String::from_str(self.alloc, word)?)?;
        }
        self.draft()?.transcript.words = words;
        Ok(())
    }

    fn set_step(&mut self, entry: &str) -> Result<(), TranscriptError> {
        let step = read_number(self.alloc, self.line, entry)?;
        self.draft()?.transcript.step = Some(step);
        Ok(())
    }

    fn set_pieces(&mut self, entry: &str) -> Result<(), TranscriptError> {
        let (first, last) = entry.split_once(' ').unwrap_or((entry, entry));
        let first = read_number(self.alloc, self.line, first)?;
        let last = read_number(self.alloc, self.line, last)?;
        if first < 1 || last < first {
            return Err(self.form_error("a size from 1 on and one that is not below it", entry));
        }
        self.draft()?.transcript.pieces = Pieces { first, last };
        Ok(())
    }

    fn set_fails(&mut self, entry: &str) -> Result<(), TranscriptError> {
        let fails = read_numbers(self.alloc, self.line, entry)?;
        self.draft()?.link.fails = fails;
        Ok(())
    }

    /// Begins the rows of a link, behind whose key nothing stands.
    fn begin_link(&mut self, place: Place, entry: &str) -> Result<(), TranscriptError> {
        if !entry.is_empty() {
            return Err(self.form_error("nothing behind the key", entry));
        }
        let line = self.line;
        let alloc = self.alloc;
        self.draft()?.begin_link(alloc, line, place)?;
        Ok(())
    }

    /// Begins the links of the next acceptor, behind whose key nothing stands.
    fn begin_acceptor(&mut self, entry: &str) -> Result<(), TranscriptError> {
        if !entry.is_empty() {
            return Err(self.form_error("nothing behind the key", entry));
        }
        let line = self.line;
        let alloc = self.alloc;
        self.draft()?.begin_acceptor(alloc, line)?;
        Ok(())
    }

    fn set_listen_fails(&mut self, entry: &str) -> Result<(), TranscriptError> {
        let fails = read_numbers(self.alloc, self.line, entry)?;
        self.draft()?.transcript.listen_fails = fails;
        Ok(())
    }

    fn set_accept_fails(&mut self, entry: &str) -> Result<(), TranscriptError> {
        let fails = read_numbers(self.alloc, self.line, entry)?;
        self.draft()?.transcript.accept_fails = fails;
        Ok(())
    }

    fn set_dial_fails(&mut self, entry: &str) -> Result<(), TranscriptError> {
        let fails = read_numbers(self.alloc, self.line, entry)?;
        self.draft()?.transcript.dial_fails = fails;
        Ok(())
    }

    fn add_mention(&mut self, entry: &str) -> Result<(), TranscriptError> {
        let text = self.expand(entry)?;
        self.draft()?.transcript.mentions.push(text)?;
        Ok(())
    }

    fn set_cut_status(&mut self, entry: &str) -> Result<(), TranscriptError> {
        let status = read_number(self.alloc, self.line, entry)?;
        self.draft()?.transcript.cut_status = Some(status);
        Ok(())
    }

    fn set_file_fails(&mut self, entry: &str) -> Result<(), TranscriptError> {
        let fails = read_numbers(self.alloc, self.line, entry)?;
        self.draft()?.transcript.file_fails = fails;
        Ok(())
    }

    fn set_attach_fails(&mut self, entry: &str) -> Result<(), TranscriptError> {
        let line = self.line;
        let fails = read_numbers(self.alloc, line, entry)?;
        self.draft()?.before_store(line)?.attach_fails = fails;
        Ok(())
    }

    fn add_keeper_fails(&mut self, entry: &str) -> Result<(), TranscriptError> {
        let line = self.line;
        let fails = read_numbers(self.alloc, line, entry)?;
        self.draft()?.before_store(line)?.keeper_fails.push(fails)?;
        Ok(())
    }

    fn begin_records(&mut self, when: When, entry: &str) -> Result<(), TranscriptError> {
        let Some((count, place)) = entry.split_once(' ') else {
            return Err(self.form_error("COUNT FOLDER POOL", entry));
        };
        let Some((folder, pool)) = place.split_once(' ') else {
            return Err(self.form_error("COUNT FOLDER POOL", entry));
        };
        let count = read_number(self.alloc, self.line, count)?;
        let records = PoolRecords::new(self.alloc, self.line, folder, pool, count)?;
        self.draft()?.begin_records(when, records)?;
        Ok(())
    }

    /// The text of a line of records.
    fn record_line(&mut self, entry: &str) -> Result<String, TranscriptError> {
        let bytes = self.expand(entry)?;
        let text = String::from_utf8_lossy(self.alloc, bytes.as_slice())?;
        Ok(text)
    }

    fn add_base_line(&mut self, entry: &str) -> Result<(), TranscriptError> {
        let line = self.line;
        let text = self.record_line(entry)?;
        self.draft()?.records(line)?.base.push(text)?;
        Ok(())
    }

    fn add_log_line(&mut self, entry: &str) -> Result<(), TranscriptError> {
        let line = self.line;
        let text = self.record_line(entry)?;
        self.draft()?.records(line)?.lines.push(text)?;
        Ok(())
    }

    /// Ends a run, and begins the next one over the same store.
    fn begin_again(&mut self, entry: &str) -> Result<(), TranscriptError> {
        if !entry.is_empty() {
            return Err(self.form_error("nothing behind `again`", entry));
        }
        let Some(draft) = self.current.take() else {
            return Err(TextFault::OutsideTranscript.at(self.line));
        };
        let before = draft.end(self.alloc)?;
        self.current = Some(Draft::next_run(self.alloc, &before, self.line)?);
        self.earlier.push(before)?;
        Ok(())
    }

    fn add_each(&mut self, entry: &str) -> Result<(), TranscriptError> {
        let each = read_each(self.alloc, self.line, entry)?;
        self.draft()?.transcript.each.push(each)?;
        Ok(())
    }

    fn set_status(&mut self, entry: &str) -> Result<(), TranscriptError> {
        let status = read_number(self.alloc, self.line, entry)?;
        self.draft()?.transcript.status = status;
        Ok(())
    }

    fn begin_file(&mut self, path: &str) -> Result<(), TranscriptError> {
        if path.is_empty() {
            return Err(self.form_error("a path", path));
        }
        let line = self.line;
        let alloc = self.alloc;
        self.draft()?.begin_file(alloc, line, path)
    }

    fn add_file_line(&mut self, entry: &str) -> Result<(), TranscriptError> {
        let line = self.line;
        let text = self.expand(entry)?;
        self.draft()?.add_file_line(line, text.as_slice())
    }

    /// Ends the file whose lines were read last, if there is one.
    fn end_file(&mut self) {
        if let Some(draft) = &mut self.current {
            draft.end_file();
        }
    }

    fn add_field(&mut self, entry: &str) -> Result<(), TranscriptError> {
        let line = self.line;
        let field = self.expand(entry)?;
        self.draft()?.add_field(line, field.as_slice())?;
        Ok(())
    }

    fn add_moments(&mut self, entry: &str) -> Result<(), TranscriptError> {
        let moments = read_numbers(self.alloc, self.line, entry)?;
        let given = &mut self.draft()?.transcript.moments;
        given.extend_from_slice(moments.as_slice())?;
        Ok(())
    }

    fn set_waits(&mut self, entry: &str) -> Result<(), TranscriptError> {
        let seconds = read_number(self.alloc, self.line, entry)?;
        self.draft()?.transcript.waits = Some(seconds);
        Ok(())
    }

    fn add_runner_answer(&mut self, entry: &str) -> Result<(), TranscriptError> {
        let answer = read_runner_answer(self.alloc, self.line, &mut self.names, entry)?;
        self.draft()?.transcript.runner_answers.push(answer)?;
        Ok(())
    }

    fn add_request(&mut self, method: &str, entry: &str) -> Result<(), TranscriptError> {
        let Some((moment, target)) = entry.split_once(' ') else {
            return Err(self.form_error("MOMENT PATH BODY", entry));
        };
        if moment != "-" {
            let moment = read_number(self.alloc, self.line, moment)?;
            self.draft()?.transcript.moments.push(moment)?;
        }
        let (path, body) = target.split_once(' ').unwrap_or((target, ""));
        let path = self.expand(path)?;
        let body = self.expand(body)?;
        let alloc = self.alloc;
        let fields = self.draft()?.take_fields(alloc);
        let Some(caller) = &self.caller else {
            return Err(TextFault::RequestWithoutCaller.at(self.line));
        };
        let caller = caller.as_str();
        let bytes = request_bytes(
            alloc,
            method,
            path.as_slice(),
            caller,
            fields.as_slice(),
            body.as_slice(),
        )?;
        self.draft()?.add_request(bytes.as_slice())?;
        Ok(())
    }

    /// The bytes of a reply: its status, its front and its body.
    fn read_reply(&mut self, content_type: &str, entry: &str) -> Result<Vec<u8>, TranscriptError> {
        let Some((status, rest)) = entry.split_once(" | ") else {
            return Err(self.form_error("STATUS | FRONT | BODY", entry));
        };
        let Some((front, body)) = rest.split_once(" | ") else {
            return Err(self.form_error("STATUS | FRONT | BODY", entry));
        };
        if !is_status(status) {
            return Err(self.form_error("a status as `200 OK`", status));
        }
        if !is_front(front) {
            return Err(self.form_error("a front or `-`", front));
        }
        let body = self.expand(body)?;
        let bytes = reply_bytes(self.alloc, status, content_type, front, body.as_slice())?;
        Ok(bytes)
    }

    fn add_reply(&mut self, content_type: &str, entry: &str) -> Result<(), TranscriptError> {
        let line = self.line;
        let bytes = self.read_reply(content_type, entry)?;
        self.draft()?.add_reply(line, bytes)
    }

    /// Adds a reply that a dialed link gives.
    fn add_dialed_reply(&mut self, content_type: &str, entry: &str) -> Result<(), TranscriptError> {
        let bytes = self.read_reply(content_type, entry)?;
        self.draft()?.add_request(bytes.as_slice())?;
        Ok(())
    }

    /// Adds a request that the program writes to a dialed link.
    fn add_dialed_request(&mut self, method: &str, entry: &str) -> Result<(), TranscriptError> {
        let line = self.line;
        let (path, body) = entry.split_once(' ').unwrap_or((entry, ""));
        let path = self.expand(path)?;
        let body = self.expand(body)?;
        let Some(caller) = &self.caller else {
            return Err(TextFault::RequestWithoutCaller.at(line));
        };
        let bytes = dialed_bytes(
            self.alloc,
            method,
            path.as_slice(),
            caller.as_str(),
            body.as_slice(),
        )?;
        self.draft()?.add_bytes(line, bytes)?;
        Ok(())
    }

    fn add_sent(&mut self, entry: &str) -> Result<(), TranscriptError> {
        let bytes = self.expand(entry)?;
        self.draft()?.add_request(bytes.as_slice())?;
        Ok(())
    }

    fn add_answered(&mut self, entry: &str) -> Result<(), TranscriptError> {
        let line = self.line;
        let bytes = self.expand(entry)?;
        self.draft()?.add_bytes(line, bytes)?;
        Ok(())
    }

    /// The transcripts, once all lines were read.
    fn end(mut self) -> Result<Vec<Transcript>, TranscriptError> {
        self.end_draft()?;
        self.names.end(self.alloc)?;
        Ok(self.earlier)
    }
}

/// Reads the transcripts of a text.
///
/// # Errors
///
/// The first line that is not of the form, the first name that nothing uses, or want of memory.
pub fn read(alloc: Global, text: &str) -> Result<Vec<Transcript>, TranscriptError> {
    let mut reader = Reader::new(alloc);
    for line in text.lines() {
        reader.line = reader.line.saturating_add(1);
        reader.read_line(line)?;
    }
    reader.end()
}
