//! What holds at a line, as the values of the signals.

ghost use Rattle.std.specs.Prelude.{◌≡◌, Option, None};
ghost use Rattle.pictures.specs.Dump.{IsReading, running_after, running_value};
ghost use Rattle.pictures.specs.Levels as spec;
ghost use Rattle.pictures.specs.declared.dump.signal.Signal.{Signal};
ghost use Rattle.pictures.specs.declared.transcript.line.Line.{Line};

use crate::dump::changes::{Change, LEVELS, Level};
use crate::dump::signal::Signal;
use crate::dump::values::Value;
use crate::memory::Sizes;
use crate::transcript::{Line, read_line};

/// The levels after the lines so far.
#[derive(Clone, Copy)]
pub(crate) struct Levels {
    sizes: Sizes,
    /// The process that takes its turn.
    running: Option<usize>,
    /// Whether the mote rests, so that no activation goes on.
    rests: bool,
    /// Each level, at its position.
    levels: [u64; LEVELS],
}

/// The bytes of a size that are left where some are taken.
fn free(size: u32, taken: u64) -> Value
    ensures { result ≡ spec.free size taken }
{
    match (size as u64).checked_sub(taken) {
        Some(free) => Value::Number(free),
        None => Value::Unknown,
    }
}

impl Levels {
    pub(crate) fn new(sizes: Sizes) -> Self
        ensures { result.running ≡ None }
    {
        Levels {
            sizes,
            running: None,
            rests: true,
            levels: [0; LEVELS],
        }
    }

    fn level(&self, level: Level) -> u64 {
        self.levels.get(level.index()).copied().unwrap_or(0)
    }

    pub(crate) fn apply_all(&mut self, changes: &[Change])
        ensures { self.new.running ≡ self.old.running }
    {
        for change in changes {
            if let Some(level) = self.levels.get_mut(change.level.index()) {
                *level = if change.rises {
                    level.saturating_add(change.amount)
                } else {
                    level.saturating_sub(change.amount)
                };
            }
        }
    }

    /// Advances to a line.
    pub(crate) fn take_line(&mut self, line: &str)
        ensures { (reading : Option Line) × IsReading line.now reading × (self.new.running ≡ running_after reading self.old.running) }
    {
        self.rests = false;
        match read_line(line) {
            Some(Line::Turn(turn)) => self.running = Some(turn.pid),
            Some(Line::Note(_)) => {}
            _ => self.running = None,
        }
    }

    /// No line is left at this clock.
    pub(crate) fn rest(&mut self)
        ensures { self.new.running ≡ None }
    {
        self.running = None;
        self.rests = true;
    }

    fn process(&self, pid: usize) -> Value {
        if self.running == Some(pid) {
            Value::Number(3)
        } else if !self.rests && self.level(Level::Activation(pid)) > 0 {
            Value::Number(2)
        } else {
            Value::Number(self.level(Level::Life(pid)).min(1))
        }
    }

    pub(crate) fn value(&self, signal: Signal) -> Value
        ensures { signal ≡ Signal.Running → result ≡ running_value self.now.running }
    {
        match signal {
            Signal::Running => match self.running {
                Some(pid) => Value::Number(pid as u64),
                None => Value::Nothing,
            },
            Signal::Queue => Value::Number(self.level(Level::Queue)),
            Signal::ManagedFree => free(self.sizes.managed, self.level(Level::Managed)),
            Signal::HeapFree => free(self.sizes.heap, self.level(Level::Heap)),
            Signal::Timers => Value::Number(self.level(Level::Timers)),
            Signal::Process(pid) => self.process(pid),
        }
    }
}
