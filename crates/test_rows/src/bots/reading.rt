use crate::bots::course::{Course, Row, Wanted};
use crate::bots::event_text::read_event;
use crate::fault::{Fault, fault_at, form_fault};
use crate::limits::read_limits;
use bot_core::BotEvent;
use std::alloc::{AllocError, Global};

/// The rows, once more.
fn copy_rows(alloc: Global, rows: &[Row]) -> Result<Vec<Row>, AllocError> {
    let mut copies = Vec::new(alloc);
    for row in rows {
        let wanted = match &row.wanted {
            Wanted::Action(text) => Wanted::Action(String::from_str(alloc, text.as_str())?),
            Wanted::NotExpected => Wanted::NotExpected,
            Wanted::Repeated { then, times } => Wanted::Repeated {
                then: *then,
                times: *times,
            },
        };
        copies.push(Row {
            line: row.line,
            aside: row.aside,
            event: row.event,
            moment: row.moment,
            wanted,
        })?;
    }
    Ok(copies)
}

/// What the lines so far have said.
#[derive(Drop)]
struct Reader {
    alloc: Global,
    /// The line that is being read.
    line: usize,
    courses: Vec<Course>,
}

impl Reader {
    /// The fault that this line is not as it has to be.
    fn form_fault(&self, wanted: &'static str, came: &str) -> Fault {
        form_fault(self.alloc, self.line, wanted, came)
    }

    fn begin(&mut self, name: &str) -> Result<(), Fault> {
        if name.is_empty() || self.courses.iter().any(|it| it.name.as_str() == name) {
            return Err(self.form_fault("a new name", name));
        }
        let name = String::from_str(self.alloc, name)?;
        self.courses.push(Course::new(name, Vec::new(self.alloc)))?;
        Ok(())
    }

    /// The course that this line belongs to.
    fn course(&mut self) -> Result<&mut Course, Fault> {
        let alloc = self.alloc;
        let line = self.line;
        match self.courses.as_mut_slice().last_mut() {
            Some(course) => Ok(course),
            None => Err(fault_at(
                line,
                String::from_str(alloc, "this line stands outside any course"),
            )),
        }
    }

    fn set_limits(&mut self, entry: &str) -> Result<(), Fault> {
        match read_limits(entry) {
            Some(limits) => {
                self.course()?.limits = limits;
                Ok(())
            }
            None => Err(self.form_fault("`tasks N polls N steps N`", entry)),
        }
    }

    fn begin_with(&mut self, name: &str) -> Result<(), Fault> {
        let alloc = self.alloc;
        let Some(earlier) = self.courses.iter().find(|it| it.name.as_str() == name) else {
            return Err(self.form_fault("the name of an earlier course", name));
        };
        let limits = earlier.limits;
        let rows = copy_rows(alloc, earlier.rows.as_slice())?;
        let course = self.course()?;
        if !course.rows.is_empty() {
            return Err(self.form_fault("`from` before the first row", name));
        }
        course.limits = limits;
        course.taken = rows.len();
        course.rows = rows;
        Ok(())
    }

    fn read_event(&self, text: &str) -> Result<BotEvent, Fault> {
        match read_event(text) {
            Some(event) => Ok(event),
            None => Err(self.form_fault("an event", text)),
        }
    }

    fn read_moment(&self, text: &str) -> Result<u64, Fault> {
        match text.parse::<u64>() {
            Ok(moment) => Ok(moment),
            Err(_) => Err(self.form_fault("a moment", text)),
        }
    }

    fn add(
        &mut self,
        aside: bool,
        event: BotEvent,
        moment: u64,
        wanted: Wanted,
    ) -> Result<(), Fault> {
        let line = self.line;
        self.course()?.rows.push(Row {
            line,
            aside,
            event,
            moment,
            wanted,
        })?;
        Ok(())
    }

    /// Two events that come so many times in turn.
    fn add_repeated(&mut self, entry: &str) -> Result<(), Fault> {
        let Some((times, rest)) = entry.split_once(" times ") else {
            return Err(self.form_fault("`N times EVENT then EVENT at MOMENT`", entry));
        };
        let Some((events, moment)) = rest.split_once(" at ") else {
            return Err(self.form_fault("`N times EVENT then EVENT at MOMENT`", entry));
        };
        let Some((event, then)) = events.split_once(" then ") else {
            return Err(self.form_fault("`N times EVENT then EVENT at MOMENT`", entry));
        };
        let Ok(times) = times.parse::<u32>() else {
            return Err(self.form_fault("a number", times));
        };
        let event = self.read_event(event)?;
        let then = self.read_event(then)?;
        let moment = self.read_moment(moment)?;
        self.add(false, event, moment, Wanted::Repeated { then, times })
    }

    fn add_row(&mut self, aside: bool, text: &str) -> Result<(), Fault> {
        let Some((left, wanted)) = text.split_once(": ") else {
            return Err(self.form_fault("`EVENT at MOMENT: ACTION`", text));
        };
        let Some((event, moment)) = left.split_once(" at ") else {
            return Err(self.form_fault("`EVENT at MOMENT`", left));
        };
        let event = self.read_event(event)?;
        let moment = self.read_moment(moment)?;
        let wanted = if wanted == "not expected" {
            Wanted::NotExpected
        } else {
            Wanted::Action(String::from_str(self.alloc, wanted)?)
        };
        self.add(aside, event, moment, wanted)
    }

    fn read_line(&mut self, text: &str) -> Result<(), Fault> {
        let text = text.trim();
        if text.is_empty() || text.starts_with('#') {
            return Ok(());
        }
        let (key, entry) = text.split_once(' ').unwrap_or((text, ""));
        match key {
            "course" => self.begin(entry),
            "limits" => self.set_limits(entry),
            "from" => self.begin_with(entry),
            "play" => self.add_repeated(entry),
            "aside" => self.add_row(true, entry),
            _ => self.add_row(false, text),
        }
    }
}

/// The courses of a text.
pub(crate) fn read_courses(alloc: Global, text: &str) -> Result<Vec<Course>, Fault> {
    let mut reader = Reader {
        alloc,
        line: 0,
        courses: Vec::new(alloc),
    };
    for line in text.lines() {
        reader.line = reader.line.saturating_add(1);
        reader.read_line(line)?;
    }
    Ok(reader.courses)
}
