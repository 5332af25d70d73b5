use crate::fault::{Fault, fault_at, form_fault};
use crate::limits::{OPEN_LIMITS, read_limits};
use crate::worlds::course::Course;
use crate::worlds::opening::{Opened, open};
use crate::worlds::requests::{NamedRequest, read_asked};
use crate::worlds::sentences::broken_sentence;
use crate::worlds::turn_text::{read_child, read_place};
use crate::worlds::world_text::world_text;
use bot_core::BotLimits;
use dimensions::Text;
use routes::Routes;
use std::alloc::{AllocError, Global};
use swarm_model::Machine;
use swarm_wire::Asked;
use two_ends::Turn;

/// How much of a file was played.
#[derive(Clone, Copy)]
pub(crate) struct Counts {
    pub worlds: usize,
    pub expectations: usize,
}

/// Rows that a line names, with semicolons between them.
#[derive(Drop)]
struct NamedSteps {
    name: String,
    rows: String,
}

/// Plays worlds, line by line.
#[derive(Drop)]
struct Player<M: Machine + Drop> {
    alloc: Global,
    /// The line that is being read.
    line: usize,
    routes: Routes,
    limits: BotLimits,
    /// The settings of the pools to come, in TOML.
    settings: String,
    requests: Vec<NamedRequest>,
    steps: Vec<NamedSteps>,
    course: Option<Course<M>>,
    counts: Counts,
}

impl<M: Machine + Drop> Player<M> {
    /// The fault that this line is not as it has to be.
    fn form_fault(&self, wanted: &'static str, came: &str) -> Fault {
        form_fault(self.alloc, self.line, wanted, came)
    }

    fn set_limits(&mut self, entry: &str) -> Result<(), Fault> {
        match read_limits(entry) {
            Some(limits) => {
                self.limits = limits;
                Ok(())
            }
            None => Err(self.form_fault("`tasks N polls N steps N`", entry)),
        }
    }

    /// The settings of the pools to come: the keys of TOML, with commas between them.
    fn set_settings(&mut self, entry: &str) -> Result<(), Fault> {
        let mut lines = String::new(self.alloc);
        for key in entry.split(", ") {
            lines.push_str(key)?;
            lines.push('\n')?;
        }
        self.settings = lines;
        Ok(())
    }

    fn add_request(&mut self, entry: &str) -> Result<(), Fault> {
        let Some((name, call)) = entry.split_once(' ') else {
            return Err(self.form_fault("`NAME TARGET BODY`", entry));
        };
        let Some((target, body)) = call.split_once(' ') else {
            return Err(self.form_fault("`NAME TARGET BODY`", entry));
        };
        let named = NamedRequest {
            name: String::from_str(self.alloc, name)?,
            target: String::from_str(self.alloc, target)?,
            body: String::from_str(self.alloc, body)?,
        };
        self.requests.push(named)?;
        Ok(())
    }

    fn add_steps(&mut self, entry: &str) -> Result<(), Fault> {
        let Some((name, rows)) = entry.split_once(' ') else {
            return Err(self.form_fault("`NAME ROW; ROW`", entry));
        };
        let named = NamedSteps {
            name: String::from_str(self.alloc, name)?,
            rows: String::from_str(self.alloc, rows)?,
        };
        self.steps.push(named)?;
        Ok(())
    }

    /// Plays the turns that were read.
    fn play_turns(&mut self) -> Result<(), Fault> {
        let Some(course) = self.course.take() else {
            return Ok(());
        };
        match course.played(self.alloc) {
            Some(course) => {
                self.course = Some(course);
                Ok(())
            }
            None => Err(Fault::Memory),
        }
    }

    /// Plays the turns that were read, and looks at the sentences.
    fn look(&mut self) -> Result<(), Fault> {
        self.play_turns()?;
        let alloc = self.alloc;
        let Some(course) = &self.course else {
            return Ok(());
        };
        match broken_sentence(&course.world) {
            None => Ok(()),
            Some(broken) => {
                let world = course.name.as_str();
                Err(fault_at(self.line, format!(in alloc; "{world}: {broken}")))
            }
        }
    }

    /// Ends a world, and begins the next one.
    fn begin(&mut self, entry: &str) -> Result<(), Fault> {
        self.look()?;
        let alloc = self.alloc;
        let Some((name, moment)) = entry.split_once(" at ") else {
            return Err(self.form_fault("`NAME at MOMENT`", entry));
        };
        let moment = self.read_moment(moment)?;
        let Some(opened) = open(alloc, self.settings.as_str(), self.limits, moment)? else {
            return Err(self.form_fault("settings of a pool", self.settings.as_str()));
        };
        let Opened { settings, world } = opened;
        self.course = Some(Course {
            name: String::from_str(alloc, name)?,
            settings,
            world,
            turns: Vec::new(alloc),
        });
        self.counts.worlds = self.counts.worlds.saturating_add(1);
        Ok(())
    }

    /// The fault that this line stands before any world.
    fn early_fault(&self) -> Fault {
        fault_at(
            self.line,
            String::from_str(self.alloc, "this line stands before any world"),
        )
    }

    fn add_turn(&mut self, turn: Turn) -> Result<(), Fault> {
        let Some(course) = &mut self.course else {
            return Err(self.early_fault());
        };
        course.turns.push(turn)?;
        Ok(())
    }

    fn read_moment(&self, text: &str) -> Result<u64, Fault> {
        match text.parse::<u64>() {
            Ok(moment) => Ok(moment),
            Err(_) => Err(self.form_fault("a moment", text)),
        }
    }

    /// A place among the requests that were sent, or among the replies that were got. One that counts from
    /// the end counts what the turns so far have left.
    fn read_place(&mut self, text: &str, of_replies: bool) -> Result<u32, Fault> {
        if text.starts_with('-') {
            self.play_turns()?;
        }
        let Some(course) = &self.course else {
            return Err(self.early_fault());
        };
        let world = &course.world;
        let count = if of_replies {
            world.got().len()
        } else {
            world.sent().len()
        };
        match read_place(text, count) {
            Some(place) => Ok(place),
            None => Err(self.form_fault("a place", text)),
        }
    }

    fn add_child(&mut self, text: &str, moment: u64) -> Result<(), Fault> {
        match read_child(self.alloc, text)? {
            Some(turn) => self.add_turn(Turn::Child { turn, moment }),
            None => Err(self.form_fault("what the bot hears of its command", text)),
        }
    }

    /// What a request of that name asks of the pool.
    fn asked(&self, name: &str) -> Result<Asked, Fault> {
        let Some(named) = self.requests.iter().find(|it| it.name.as_str() == name) else {
            return Err(self.form_fault("the name of a request", name));
        };
        let Some(course) = &self.course else {
            return Err(self.early_fault());
        };
        match read_asked(self.alloc, &self.routes, &course.settings, named)? {
            Some(asked) => Ok(asked),
            None => Err(self.form_fault("a request to the pool", named.body.as_str())),
        }
    }

    /// A request of another caller, as `WHO asks NAME`.
    fn add_other(&mut self, text: &str, moment: u64) -> Result<(), Fault> {
        let Some((who, name)) = text.split_once(" asks ") else {
            return Err(self.form_fault("a turn", text));
        };
        let asked = self.asked(name)?;
        let who = Text::from_str(self.alloc, who)?;
        self.add_turn(Turn::Other {
            who,
            request: asked.request,
            bytes: asked.bytes,
            moment,
        })
    }

    fn read_turn(&mut self, text: &str, moment: u64) -> Result<(), Fault> {
        let (word, rest) = text.split_once(' ').unwrap_or((text, ""));
        match word {
            "deliver" => {
                let sent = self.read_place(rest, false)?;
                self.add_turn(Turn::Deliver { sent, moment })
            }
            "answer" => {
                let got = self.read_place(rest, true)?;
                self.add_turn(Turn::Answer { got, moment })
            }
            "lose" => self.add_turn(Turn::Lose { moment }),
            "wake" => self.add_turn(Turn::Wake { moment }),
            "child" => self.add_child(rest, moment),
            _ => self.add_other(text, moment),
        }
    }

    /// Compares what stands in the world under a name.
    fn check(&mut self, name: &str, wanted: &str) -> Result<(), Fault> {
        self.look()?;
        let alloc = self.alloc;
        let Some(course) = &self.course else {
            return Err(self.early_fault());
        };
        let Some(came) = world_text(alloc, &course.world, name)? else {
            return Err(self.form_fault("what a world has", name));
        };
        let came = came.as_str();
        if came != wanted {
            let world = course.name.as_str();
            return Err(fault_at(
                self.line,
                format!(in alloc; "{world}, {name}: `{wanted}` is wanted, and not `{came}`"),
            ));
        }
        self.counts.expectations = self.counts.expectations.saturating_add(1);
        Ok(())
    }

    /// A turn or an expectation.
    fn read_row(&mut self, text: &str) -> Result<(), Fault> {
        if let Some((turn, moment)) = text.rsplit_once(" at ") {
            let moment = self.read_moment(moment)?;
            return self.read_turn(turn, moment);
        }
        match text.split_once(": ") {
            Some((name, wanted)) => self.check(name, wanted),
            None => Err(self.form_fault("a turn or an expectation", text)),
        }
    }

    fn read_rows(&mut self, rows: &str) -> Result<(), Fault> {
        for row in rows.split("; ") {
            self.read_row(row)?;
        }
        Ok(())
    }

    /// The rows of that name.
    fn do_steps(&mut self, name: &str) -> Result<(), Fault> {
        let Some(named) = self.steps.iter().find(|it| it.name.as_str() == name) else {
            return Err(self.form_fault("the name of steps", name));
        };
        let rows = String::from_str(self.alloc, named.rows.as_str())?;
        self.read_rows(rows.as_str())
    }

    fn read_line(&mut self, text: &str) -> Result<(), Fault> {
        let text = text.trim();
        if text.is_empty() || text.starts_with('#') {
            return Ok(());
        }
        let (word, entry) = text.split_once(' ').unwrap_or((text, ""));
        match word {
            "settings" => self.set_settings(entry),
            "limits" => self.set_limits(entry),
            "request" => self.add_request(entry),
            "steps" => self.add_steps(entry),
            "world" => self.begin(entry),
            "do" => self.do_steps(entry),
            "look" => self.look(),
            _ => self.read_row(text),
        }
    }
}

fn new_player<M: Machine + Drop>(alloc: Global) -> Result<Player<M>, AllocError> {
    Ok(Player {
        alloc,
        line: 0,
        routes: Routes::new(alloc)?,
        limits: OPEN_LIMITS,
        settings: String::from_str(alloc, "store_units = 64")?,
        requests: Vec::new(alloc),
        steps: Vec::new(alloc),
        course: None,
        counts: Counts {
            worlds: 0,
            expectations: 0,
        },
    })
}

/// Plays the worlds of a text, and answers how many there are, with their expectations.
pub(crate) fn play_worlds<M: Machine + Drop>(alloc: Global, text: &str) -> Result<Counts, Fault> {
    let mut player: Player<M> = new_player(alloc)?;
    for line in text.lines() {
        player.line = player.line.saturating_add(1);
        player.read_line(line)?;
    }
    player.look()?;
    Ok(player.counts)
}
