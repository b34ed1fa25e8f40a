//! An application that has rows.

ghost use Rattle.std.specs.Prelude.{◌≡◌};
ghost use Rattle.call_lists.specs.Rows.{Reaction, made_call, changed, begun_anew, chosen, gone_on, is_refusal_row, reaction_says, row_at, row_for, received_after};

use crate::rows::row::Row;
use arrayvec::ArrayVec;
use mote_types::app::App;
use mote_types::call::Call;
use mote_types::event::{Payload, Stimulus};
use mote_types::reply::{Chunk, Reply};
use std::marker::Model;

/// Makes the calls of the first row for each event and each expiry of a callback timer, and on a refusal those of a row
/// for refusals, where there is one (this project's profile).
#[derive(Drop)]
pub struct Reactions {
    rows: Vec<Row>,
    /// The active row.
    current: Option<usize>,
    received: Payload,
}

impl Model for Reactions {
    ghost Value = { Reaction };

    ghost view = { λ reactions. record { rules = reactions.rows.items; current = reactions.current; received = reactions.received } };
}

/// The same bytes as a line.
fn line_of(bytes: &Chunk) -> ArrayVec<u8, 127>
    ensures { result ≡ record { items = bytes.now.items } }
{
    let mut line = ArrayVec::new();
    let _ = line.try_extend_from_slice(bytes.as_slice());
    line
}

impl Reactions {
    /// The application that has these rows, and has received nothing.
    pub fn new(rows: Vec<Row>) -> Self
        ensures { result ≡ record { rules = rows.items; current = None; received = Payload.Empty } }
    {
        Reactions {
            rows,
            current: None,
            received: Payload::Empty,
        }
    }

    /// Stores the received value.
    fn receive(&mut self, stimulus: &Stimulus)
        ensures { self.new ≡ record self.old { received = received_after self.old.received stimulus.now } }
    {
        match stimulus {
            Stimulus::Event(event) => self.received = event.payload.copied(),
            Stimulus::Callback(timer) => self.received = Payload::Num(u32::from(*timer)),
            Stimulus::Answer(Reply::Num(number)) => self.received = Payload::Num(*number),
            Stimulus::Answer(Reply::Bytes(bytes)) => self.received = Payload::Line(line_of(bytes)),
            Stimulus::Answer(_) => {}
        }
    }

    /// The first row for a stimulus.
    fn row_for(&self, stimulus: &Stimulus) -> Option<usize>
        ensures { result ≡ row_for self.now.rules stimulus.now }
    {
        self.rows
            .iter()
            .position(|row| row.trigger().is_for(stimulus))
    }

    /// Whether a row for refusals is active.
    fn handles_refusal(&self) -> bool
        ensures { result ≡ is_refusal_row (row_at self.now.rules self.now.current) }
    {
        match self.current {
            Some(place) if place < self.rows.len() => self.rows[place].trigger().is_refusal(),
            _ => false,
        }
    }

    /// Lets the active row begin anew.
    fn break_off(&mut self)
        ensures { self.new ≡ record self.old { rules = changed begun_anew self.old.rules self.old.current } }
    {
        if let Some(place) = self.current {
            if place < self.rows.len() {
                self.rows[place].begin_anew();
            }
        }
    }

    /// Turns to the row for a stimulus.
    fn choose(&mut self, stimulus: &Stimulus)
        ensures { self.new ≡ chosen self.old stimulus.now }
    {
        match stimulus {
            Stimulus::Answer(Reply::Refused(_)) => {
                if let Some(place) = self.row_for(stimulus) {
                    if !self.handles_refusal() {
                        self.break_off();
                        self.current = Some(place);
                    }
                }
            }
            Stimulus::Answer(_) => {}
            _ => self.current = self.row_for(stimulus),
        }
    }

    /// The next call of that row.
    fn go_on(&mut self) -> Call
        ensures call { result ≡ made_call self.old }
        ensures state { self.new ≡ gone_on self.old }
    {
        match self.current {
            Some(place) if place < self.rows.len() => self.rows[place].make_call(&self.received),
            _ => Call::Wait,
        }
    }
}

impl App for Reactions {
    ghost says = { reaction_says };

    fn turn(&mut self, stimulus: &Stimulus) -> Call {
        self.receive(stimulus);
        self.choose(stimulus);
        self.go_on()
    }
}
