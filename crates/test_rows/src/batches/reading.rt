//! Rows, as they are read.
ghost use Rattle.std.specs.Prelude.{◌≤◌, length};

use crate::batches::case::{Case, Opening, Row, Step};
use crate::batches::texts::Texts;
use crate::fault::{Fault, fault_at, form_fault};
use batch_plays::BatchTurn;
use dimensions::{Seq, Text};
use refusal_codes::RefusalCode;
use routes::Route;
use std::alloc::Global;
use swarm_model::Settings;
use swarm_policy::open_settings;
use swarm_wire::{Parts, read_request};

/// What the lines so far have said.
#[derive(Drop)]
struct Reader {
    alloc: Global,
    /// The line that is being read.
    line: usize,
    texts: Texts,
    cases: Vec<Case>,
}

impl Reader {
    /// The fault that this line is not as it has to be.
    fn form_fault(&self, wanted: &'static str, came: &str) -> Fault {
        form_fault(self.alloc, self.line, wanted, came)
    }

    fn text(&self, text: &str) -> Result<Vec<u8>, Fault> {
        self.texts.filled(self.alloc, self.line, text)
    }

    fn number(&self, text: &str) -> Result<u32, Fault> {
        match text.parse::<u32>() {
            Ok(number) => Ok(number),
            Err(_) => Err(self.form_fault("a number", text)),
        }
    }

    fn moment(&self, text: &str) -> Result<u64, Fault> {
        match text.parse::<u64>() {
            Ok(moment) => Ok(moment),
            Err(_) => Err(self.form_fault("a moment", text)),
        }
    }

    /// The case that this line belongs to.
    fn case(&mut self) -> Result<&mut Case, Fault> {
        let alloc = self.alloc;
        let line = self.line;
        match self.cases.as_mut_slice().last_mut() {
            Some(case) => Ok(case),
            None => Err(fault_at(
                line,
                String::from_str(alloc, "this line stands outside any case"),
            )),
        }
    }

    fn add(&mut self, step: Step) -> Result<(), Fault> {
        let line = self.line;
        self.case()?.rows.push(Row { line, step })?;
        Ok(())
    }

    /// A text, or none where the line has none.
    fn text_or_none(&self, entry: &str) -> Result<Option<Vec<u8>>, Fault> {
        if entry.is_empty() {
            return Ok(None);
        }
        Ok(Some(self.text(entry)?))
    }

    /// The file and the name of the case, with this progress.
    fn opening(&mut self, done: Option<Vec<u8>>) -> Result<Opening, Fault> {
        let alloc = self.alloc;
        let case = self.case()?;
        Ok(Opening {
            name: String::from_str(alloc, case.name.as_str())?,
            file: Vec::from_slice(alloc, case.file.as_slice())?,
            done,
        })
    }

    fn add_read(&mut self, entry: &str) -> Result<(), Fault> {
        let done = self.text_or_none(entry)?;
        let opening = self.opening(done)?;
        self.add(Step::Read(opening))
    }

    fn add_broken(&mut self, entry: &str) -> Result<(), Fault> {
        let Some((line, rest)) = entry.split_once(' ') else {
            return Err(self.form_fault("`LINE RULE`", entry));
        };
        let (rule, done) = rest.split_once(' ').unwrap_or((rest, ""));
        let line = self.number(line)?;
        let rule = String::from_str(self.alloc, rule)?;
        let done = self.text_or_none(done)?;
        let opening = self.opening(done)?;
        self.add(Step::Broken {
            opening,
            line,
            rule,
        })
    }

    fn told(&self, entry: &str) -> Result<Step, Fault> {
        match entry.split_once(' ') {
            Some((place, rest)) => match rest.split_once(": ") {
                Some((task, "done")) => Ok(Step::Told {
                    place: self.number(place)?,
                    task: self.number(task)?,
                }),
                _ => Err(self.form_fault("`PLACE TASK: done`", entry)),
            },
            None => Err(self.form_fault("`PLACE TASK: done`", entry)),
        }
    }

    fn refused(&self, entry: &str) -> Result<Step, Fault> {
        let Some((name, end)) = entry.split_once(": ") else {
            return Err(self.form_fault("`CODE: done` or `CODE: again`", entry));
        };
        match RefusalCode::from_name(name) {
            Some(code) => Ok(Step::Refused {
                code,
                again: end == "again",
            }),
            None => Err(self.form_fault("a code", name)),
        }
    }

    /// A request of another caller for the task in a body.
    fn other(&self, settings: &Settings, entry: &str) -> Result<BatchTurn, Fault>
        requires { length settings.now.pools ≤ 4 }
    {
        let alloc = self.alloc;
        let Some((who, rest)) = entry.split_once(' ') else {
            return Err(self.form_fault("`WHO MOMENT TEXT`", entry));
        };
        let (moment, text) = rest.split_once(' ').unwrap_or((rest, ""));
        let body = self.text(text)?;
        if body.len() > 65_536 {
            return Err(self.form_fault("a short body", entry));
        }
        let parts = Parts {
            pool: Text::new(alloc),
            digest: Text::new(alloc),
        };
        match read_request(alloc, settings, Route::NewTask, &parts, body) {
            Ok(asked) => Ok(BatchTurn::Other {
                who: Text::from_str(alloc, who)?,
                request: asked.request,
                bytes: Seq::new(alloc),
                moment: self.moment(moment)?,
            }),
            Err(_) => Err(self.form_fault("the body of a new task", text)),
        }
    }

    fn turn(&self, entry: &str) -> Result<BatchTurn, Fault> {
        let (key, rest) = entry.split_once(' ').unwrap_or((entry, ""));
        match (key, rest) {
            ("send", _) => Ok(BatchTurn::Send {
                moment: self.moment(rest)?,
            }),
            ("lost", _) => Ok(BatchTurn::Lost {
                moment: self.moment(rest)?,
            }),
            ("stop", "saved") => Ok(BatchTurn::Stop { saved: true }),
            ("stop", "unsaved") => Ok(BatchTurn::Stop { saved: false }),
            ("other", _) => {
                let settings = open_settings(self.alloc)?;
                if settings.pools.as_slice().len() > 4 {
                    return Err(self.form_fault("few pools", entry));
                }
                self.other(&settings, rest)
            }
            _ => Err(self.form_fault("a turn", entry)),
        }
    }

    fn turns(&self, entry: &str) -> Result<Step, Fault> {
        let mut turns = Vec::new(self.alloc);
        for turn in entry.split("; ") {
            turns.push(self.turn(turn)?)?;
        }
        Ok(Step::Turns(turns))
    }

    fn name(&self, entry: &str, may: bool) -> Result<Step, Fault> {
        let (key, name) = entry.split_once(' ').unwrap_or((entry, ""));
        if key != "name" {
            return Err(self.form_fault("`name NAME`", entry));
        }
        Ok(Step::Name {
            name: self.text(name)?,
            may,
        })
    }

    fn names(&self, entry: &str) -> Result<Step, Fault> {
        let (name, text) = entry.split_once(' ').unwrap_or((entry, ""));
        Ok(Step::Names {
            name: if name == "none" {
                None
            } else {
                Some(self.text(name)?)
            },
            text: self.text(text)?,
        })
    }

    fn next(&self, entry: &str) -> Result<Step, Fault> {
        Ok(Step::Next(if entry == "none" {
            None
        } else {
            Some(self.number(entry)?)
        }))
    }

    fn step(&self, key: &str, entry: &str) -> Result<Step, Fault> {
        match key {
            "again" => Ok(Step::Again(self.text(entry)?)),
            "next" => self.next(entry),
            "body" => Ok(Step::Body(self.text(entry)?)),
            "told" => self.told(entry),
            "refused" => self.refused(entry),
            "progress" => Ok(Step::Progress(self.text(entry)?)),
            "printed" => Ok(Step::Printed(self.text(entry)?)),
            "turns" => self.turns(entry),
            "log" => Ok(Step::Log(self.moment(entry)?)),
            "is" => self.name(entry, true),
            "no" => self.name(entry, false),
            "names" => self.names(entry),
            _ => Err(self.form_fault("the word of a line", key)),
        }
    }

    fn set_name(&mut self, entry: &str) -> Result<(), Fault> {
        let name = String::from_str(self.alloc, entry)?;
        self.case()?.name = name;
        Ok(())
    }

    fn read_line(&mut self, text: &str) -> Result<(), Fault> {
        if text.is_empty() || text.starts_with('#') {
            return Ok(());
        }
        let (key, entry) = text.split_once(' ').unwrap_or((text, ""));
        match key {
            "let" => self.texts.give(self.alloc, self.line, entry),
            "case" => {
                let case = Case::new(self.alloc, self.line)?;
                self.cases.push(case)?;
                Ok(())
            }
            "name" => self.set_name(entry),
            "read" => self.add_read(entry),
            "broken" => self.add_broken(entry),
            "file" => {
                let file = self.text(entry)?;
                self.case()?.file = file;
                Ok(())
            }
            "settings" => {
                let settings = self.text(entry)?;
                self.case()?.settings = Some(settings);
                Ok(())
            }
            _ => {
                let step = self.step(key, entry)?;
                self.add(step)
            }
        }
    }
}

/// The cases of a text.
pub(crate) fn read_cases(alloc: Global, text: &str) -> Result<Vec<Case>, Fault> {
    let mut reader = Reader {
        alloc,
        line: 0,
        texts: Texts::new(alloc),
        cases: Vec::new(alloc),
    };
    for line in text.lines() {
        reader.line = reader.line.saturating_add(1);
        reader.read_line(line)?;
    }
    Ok(reader.cases)
}
