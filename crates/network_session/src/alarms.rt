//! The alarms.

ghost use Rattle.std.specs.Prelude.{◌≡◌, ◌≤◌, ◌<◌, ◌+◌, ◌^◌, IfOk, length, slice_set};
ghost use Rattle.network_session.specs.Alarms.{earliest_in, first_alarm, first_come};

use crate::alarm::Alarm;
use crate::fault::AlarmsFault;
use crate::tournament::{climb, play, row_of};
use std::alloc::Global;
use std::marker::Model;

/// The largest number of alarms.
const MOST_ALARMS: usize = 1 << 32;

/// A moment for each number from 0 on.
#[derive(Drop)]
pub struct Alarms {
    nodes: Vec<Alarm>,
    count: usize,
}

impl Model for Alarms {
    ghost use Rattle.network_session.specs.Code.Tournaments.{IsTournament, moments_in};
    ghost use Rattle.std.specs.Prelude.{ℕ, List};

    ghost Value = { List ℕ };

    ghost view = { λ a. moments_in a.count a.nodes.items };

    ghost invariant = { λ a. IsTournament a.count a.nodes.items };
}

impl Alarms {
    /// An alarm for each of these moments.
    ///
    /// # Errors
    ///
    /// `Memory` where memory is refused, or there are more than 2^32.
    pub fn new(alloc: Global, moments: &[u64]) -> Result<Alarms, AlarmsFault>
        ensures { IfOk result (λ alarms. alarms ≡ moments.now) }
    {
        let count = moments.len();
        if count > MOST_ALARMS {
            return Err(AlarmsFault::Memory);
        }
        let mut nodes = row_of(alloc, moments)?;
        play(&mut nodes, count);
        Ok(Alarms { nodes, count })
    }

    /// Sets the moment of this number.
    pub fn set(&mut self, owner: usize, moment: u64)
        requires { owner < length self.old }
        ensures { self.new ≡ slice_set self.old owner moment }
    {
        let at = self.count + owner;
        // A mote that works twice in a moment often sets the same.
        if self.nodes[at].moment == moment {
            return;
        }
        self.nodes[at] = Alarm { moment, owner };
        climb(&mut self.nodes, self.count, at / 2);
    }

    /// The first of the earliest moment, if there is any.
    pub fn first(&self) -> Option<Alarm>
        ensures { result ≡ first_alarm 0 self.now }
    {
        if self.count == 0 {
            None
        } else {
            Some(self.nodes[1])
        }
    }

    /// The first of the earliest moment, if that moment has come.
    pub fn first_come(&self, now: u64) -> Option<usize>
        ensures { result ≡ first_come now self.now }
    {
        match self.first() {
            Some(alarm) => {
                if alarm.moment <= now {
                    Some(alarm.owner)
                } else {
                    None
                }
            }
            None => None,
        }
    }

    /// The earliest of these moments and of that one.
    pub fn earliest(&self, limit: u64) -> u64
        ensures value { result ≡ earliest_in limit self.now }
        ensures most { result ≤ limit }
    {
        match self.first() {
            Some(alarm) => alarm.moment.min(limit),
            None => limit,
        }
    }
}
