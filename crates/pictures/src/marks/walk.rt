//! The walk over the lines of a transcript: what each of them changes.

use crate::marks::activations::{Activations, PROCESSES};
use crate::marks::lives::Lives;
use crate::marks::posts::Posts;
use crate::marks::tally::Tally;
use crate::marks::timers::{Moment, Timers};
use crate::memory::{Memory, RepliedCall, Sizes};
use crate::numbers::{asked_by, number_of};
use crate::transcript::{Input, Line, Note, Origin, Turn, read_turn};
use std::alloc::{AllocError, Global};

/// A frame that arrived; the next line says whether it is lost.
#[derive(Clone, Copy)]
struct Arrived {
    size: u64,
    row: usize,
    number: usize,
}

/// A call that has no reply yet: its row, and the number of its line.
#[derive(Clone, Copy)]
struct Awaited {
    row: usize,
    number: usize,
}

/// What a line says of rows: in which of them the call was made to which it has the reply, if any, and the delay of its timer in
/// ticks.
#[derive(Clone, Copy)]
pub(crate) struct RowFacts {
    pub(crate) replied: Option<usize>,
    pub(crate) late: u64,
}

/// What a line says that says nothing of rows.
const NO_FACTS: RowFacts = RowFacts {
    replied: None,
    late: 0,
};

/// What the lines so far show together. `clocks.rt` adds the clock, and what there is once for each row.
#[derive(Drop)]
pub(crate) struct Walk {
    pub(crate) activations: Activations,
    pub(crate) lives: Lives,
    pub(crate) timers: Timers,
    pub(crate) memory: Memory,
    pub(crate) posts: Posts,
    pub(crate) tally: Tally,
    /// One more than the greatest number of a process that took a turn.
    pub(crate) processes: usize,
    pub(crate) is_quiet: bool,
    arrived: Option<Arrived>,
    /// For each process its call that has no reply yet.
    awaited: [Option<Awaited>; PROCESSES],
}

impl Walk {
    pub(crate) fn new(alloc: Global, sizes: Sizes, is_quiet: bool) -> Result<Self, AllocError> {
        let memory = Memory::new(alloc, sizes)?;
        Ok(Walk {
            activations: Activations::new(alloc),
            lives: Lives::new(alloc),
            timers: Timers::new(alloc),
            memory,
            posts: Posts::new(alloc),
            tally: Tally::default(),
            processes: 0,
            is_quiet,
            arrived: None,
            awaited: [None; PROCESSES],
        })
    }

    fn take_input(&mut self, input: &Input<'_>, row: usize, number: usize) {
        self.tally.inputs = self.tally.inputs.saturating_add(1);
        match *input {
            Input::Frame(digits) => {
                let size = (digits.len() / 2) as u64;
                self.arrived = Some(Arrived { size, row, number });
            }
            Input::Tick(_) | Input::Serial(_) => {}
        }
    }

    /// The frame that arrived last is held, if it is not lost.
    fn hold_frame(&mut self) {
        if let Some(Arrived { size, row, number }) = self.arrived.take() {
            self.memory.managed.hold_frame(size, row, number);
        }
    }

    fn take_note(&mut self, note: &Note<'_>) {
        match *note {
            Note::Lost(reason) => {
                self.tally.lost = self.tally.lost.saturating_add(1);
                if let Some(Arrived { size, number, .. }) = self.arrived.take() {
                    self.memory.managed.lose_frame(size, reason, number);
                }
            }
            Note::Sent(_) => self.tally.sent = self.tally.sent.saturating_add(1),
        }
        self.hold_frame();
    }

    /// A process ends in a row.
    fn end_life(&mut self, pid: usize, row: usize) {
        self.timers.end_all(pid, row);
        self.lives.end(pid, row, self.activations.is_folded);
    }

    /// The call whose reply a process receives, which no longer waits for one.
    fn take_awaited(&mut self, pid: usize) -> Option<Awaited> {
        self.awaited.get_mut(pid)?.take()
    }

    /// A process receives the reply to its call.
    fn take_reply(&mut self, lines: &[&str], turn: &Turn<'_>, awaited: Awaited, clock: u64) {
        if awaited.number >= lines.len() {
            return;
        }
        let Some(asked) = read_turn(lines[awaited.number]) else {
            return;
        };
        let called = RepliedCall {
            pid: asked.pid,
            call: asked.call,
            reply: turn.stimulus,
            row: awaited.row,
            line: awaited.number,
        };
        if turn.stimulus.starts_with("refused ") {
            self.tally.refused = self.tally.refused.saturating_add(1);
            self.memory.refuse(&called);
        } else {
            let row = awaited.row;
            self.carry_out(&asked, &called, Moment { row, clock });
        }
    }

    /// A call was accepted.
    fn carry_out(&mut self, turn: &Turn<'_>, called: &RepliedCall<'_>, moment: Moment) {
        let row = moment.row;
        let (word, rest) = turn.call.split_once(' ').unwrap_or((turn.call, ""));
        match word {
            "print" => self.tally.count_printed(rest),
            "kill" => self.end_life(number_of(Some(rest)) as usize, row),
            "post" | "broadcast" => self.posts.carry_out(turn, called.line, row),
            _ => {
                let asked = asked_by(turn.call);
                self.memory.carry_out(called, &asked);
                self.timers.carry_out(turn.pid, &asked, moment);
            }
        }
    }

    /// A process's activation begins in a row. Returns the delay of its timer in ticks.
    fn begin(&mut self, lines: &[&str], turn: &Turn<'_>, moment: Moment) -> u64 {
        let row = moment.row;
        match turn.origin {
            Origin::Synch => self.activations.give(turn.pid, row),
            Origin::Event => self.posts.receive(lines, turn, row),
            _ => {}
        }
        let late = self.timers.receive(turn, moment);
        self.tally.count_late(late);
        self.activations.begin(turn.pid, row);
        if turn.stimulus.starts_with("129 ") {
            self.lives.begin(turn.pid, row);
        }
        late
    }

    /// A turn in a row, from the line of that number.
    fn take_turn(
        &mut self,
        lines: &[&str],
        turn: &Turn<'_>,
        moment: Moment,
        number: usize,
    ) -> RowFacts {
        let Moment { row, clock } = moment;
        self.tally.turns = self.tally.turns.saturating_add(1);
        self.processes = self.processes.max(turn.pid.saturating_add(1));
        let mut facts = NO_FACTS;
        if self.is_quiet {
            self.take_quiet_turn(turn, row);
            return facts;
        }
        if turn.origin == Origin::Answer {
            if let Some(awaited) = self.take_awaited(turn.pid) {
                facts.replied = Some(awaited.row);
                self.take_reply(lines, turn, awaited, clock);
            }
        }
        if turn.origin != Origin::Answer || !self.activations.has(turn.pid) {
            facts.late = self.begin(lines, turn, moment);
        }
        self.take_call(turn, Awaited { row, number });
        facts
    }

    /// A turn of a quiet transcript: this is all that is known of its activation.
    fn take_quiet_turn(&mut self, turn: &Turn<'_>, row: usize) {
        if let Some(digits) = turn.call.strip_prefix("print ") {
            self.tally.count_printed(digits);
        }
        self.activations.mark_turn(turn.pid, row);
    }

    /// What a process calls.
    fn take_call(&mut self, turn: &Turn<'_>, call: Awaited) {
        let row = call.row;
        self.activations.go_on(turn.pid, row);
        if let Some(awaited) = self.awaited.get_mut(turn.pid) {
            *awaited = Some(call);
        }
        match turn.call {
            "wait" => self.activations.end(turn.pid, row),
            "exit" => {
                self.activations.end(turn.pid, row);
                self.end_life(turn.pid, row);
            }
            _ => {}
        }
    }

    /// The line of that number, and what it says.
    pub(crate) fn take_line(
        &mut self,
        lines: &[&str],
        line: Option<Line<'_>>,
        moment: Moment,
        number: usize,
    ) -> RowFacts {
        if let Some(Line::Note(note)) = line {
            self.take_note(&note);
            return NO_FACTS;
        }
        self.hold_frame();
        match line {
            Some(Line::Input(input)) => {
                self.activations.end_all();
                self.take_input(&input, moment.row, number);
                NO_FACTS
            }
            Some(Line::Turn(turn)) => self.take_turn(lines, &turn, moment, number),
            _ => NO_FACTS,
        }
    }

    /// What was before the first row shows in no row, and counts nowhere.
    pub(crate) fn forget_rows(&mut self) {
        self.tally = Tally::default();
        self.activations.forget_rows();
        self.lives.forget_rows();
        self.timers.forget_rows();
        self.memory.forget_rows();
        self.posts.forget_rows();
    }

    /// What is still going on lasts to the end.
    ///
    /// # Errors
    ///
    /// `AllocError` where memory was refused at any line: then marks are missing.
    pub(crate) fn close(&mut self) -> Result<(), AllocError> {
        self.activations.end_all();
        self.hold_frame();
        let is_whole = self.activations.is_whole() & self.lives.close() & self.posts.is_whole();
        if is_whole & self.timers.close() & self.memory.close() {
            Ok(())
        } else {
            Err(AllocError)
        }
    }
}
