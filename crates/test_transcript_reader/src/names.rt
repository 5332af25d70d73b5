use crate::parts::{form_error, is_name, read_byte, read_number};
use crate::{TextFault, TranscriptError};
use std::alloc::{AllocError, Global};

/// A name of a text, what it stands for, and the line that gives it.
#[derive(Drop)]
struct Name {
    name: String,
    text: Vec<u8>,
    line: usize,
    is_used: bool,
}

/// The names that were given so far.
#[derive(Drop)]
pub(crate) struct Names {
    names: Vec<Name>,
}

/// Adds some bytes so many times.
fn repeat(bytes: &[u8], times: u64, into: &mut Vec<u8>) -> Result<(), AllocError> {
    for _ in 0..times {
        into.extend_from_slice(bytes)?;
    }
    Ok(())
}

impl Names {
    pub(crate) fn new(alloc: Global) -> Names {
        Names {
            names: Vec::new(alloc),
        }
    }

    /// Lets a name stand for a text from here on.
    pub(crate) fn give(
        &mut self,
        alloc: Global,
        line: usize,
        name: &str,
        text: Vec<u8>,
    ) -> Result<(), TranscriptError> {
        if !is_name(name) {
            return Err(form_error(alloc, line, "a name of letters, digits and `_`", name));
        }
        let is_given = self.names.iter().any(|it| it.name.as_str() == name);
        let name = String::from_str(alloc, name)?;
        if is_given {
            return Err(TextFault::RepeatedName(name).at(line));
        }
        self.names.push(Name {
            name,
            text,
            line,
            is_used: false,
        })?;
        Ok(())
    }

    /// The bytes of a text, with what its names and bytes in `${..}` stand for.
    pub(crate) fn expand(
        &mut self,
        alloc: Global,
        line: usize,
        text: &str,
    ) -> Result<Vec<u8>, TranscriptError> {
        let mut bytes = Vec::new(alloc);
        let mut parts = text.split("${");
        if let Some(first) = parts.next() {
            bytes.extend_from_slice(first.as_bytes())?;
        }
        for part in parts {
            let Some((word, rest)) = part.split_once('}') else {
                return Err(form_error(alloc, line, "a `}` behind `${`", part));
            };
            self.put(alloc, line, word, &mut bytes)?;
            bytes.extend_from_slice(rest.as_bytes())?;
        }
        Ok(bytes)
    }

    /// Adds what a word stands for: a name or a byte, and how many times it comes.
    fn put(
        &mut self,
        alloc: Global,
        line: usize,
        word: &str,
        into: &mut Vec<u8>,
    ) -> Result<(), TranscriptError> {
        let (name, times) = match word.split_once('*') {
            Some((name, times)) => (name, read_number(alloc, line, times)?),
            None => (word, 1),
        };
        if let Some(digits) = name.strip_prefix("0x") {
            let byte = read_byte(alloc, line, digits)?;
            repeat(&[byte], times, into)?;
            return Ok(());
        }
        for given in self.names.iter_mut() {
            if given.name.as_str() == name {
                given.is_used = true;
                repeat(given.text.as_slice(), times, into)?;
                return Ok(());
            }
        }
        let name = String::from_str(alloc, name)?;
        Err(TextFault::UnknownName(name).at(line))
    }

    /// Refuses names that nothing used.
    pub(crate) fn end(&self, alloc: Global) -> Result<(), TranscriptError> {
        match self.names.iter().find(|it| !it.is_used) {
            None => Ok(()),
            Some(unused) => {
                let name = String::from_str(alloc, unused.name.as_str())?;
                Err(TextFault::UnusedName(name).at(unused.line))
            }
        }
    }
}
