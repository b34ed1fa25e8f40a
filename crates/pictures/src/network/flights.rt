//! Which send each arrival belongs to, by the links of the network: the frames on their way from one mote to another.

ghost use Rattle.std.specs.Prelude.{◌≡◌, All, IfOk, length};
ghost use Rattle.pictures.specs.Network.Flights.{IsFlight};
ghost use Rattle.pictures.specs.Network.InFlight.{at_end, flights_by};

use crate::network::line::NetworkLine;
use crate::network::walk::walked;
use std::alloc::{AllocError, Global};

/// A link: what its first mote sends, its second one hears `delay` ticks later.
#[derive(Clone, Copy, Drop)]
pub struct Link {
    pub from: u64,
    pub to: u64,
    pub delay: u64,
}

/// What became of a frame on its way.
#[derive(Clone, Copy, PartialEq, Eq, Drop)]
pub enum Fate {
    /// It was heard.
    Heard,
    /// It arrived at a mote that was halted.
    Missed,
    /// The link's rule lost it.
    Lost,
    /// It found no room in flight.
    Full,
    /// It was in flight at the end.
    UnderWay,
}

/// A frame on its way from one mote to another. Lines are by their positions, from 0.
#[derive(Clone, Copy, Drop)]
pub struct Flight {
    pub from: u64,
    pub to: u64,
    /// The line that says that it was sent.
    pub sent: usize,
    /// The line that says what became of it; where it was in flight at the end, the number of lines.
    pub ended: usize,
    pub fate: Fate,
}

/// The frames on their way, in the order in which these ended.
#[derive(Drop)]
pub struct Flights {
    pub flights: Vec<Flight>,
    /// The lines with an arrival that belongs to no send: a frame from outside, where all links are known.
    pub outside: Vec<usize>,
}

/// The frames on their way, by the lines of a transcript and the links in the order of their lines. An arrival belongs to the first send
/// that is due there at that moment, by a link's delay, and has the same bytes. Where two links lead from one mote to another, a frame
/// that isn't carried is taken for the first link's.
///
/// # Errors
///
/// `AllocError` where memory was refused.
#[tactic(auto, using(crate::proofs::Walked::are_flights))]
pub fn flights_of(
    alloc: Global,
    lines: &[NetworkLine<'_>],
    links: &[Link],
) -> Result<Flights, AllocError>
    ensures all { IfOk result (λ found. found.flights.items ≡ flights_by (length lines.now) (at_end links.now lines.now)) }
    ensures flights { IfOk result (λ found. All (IsFlight links.now lines.now) found.flights.items) }
    ensures outside { IfOk result (λ found. found.outside.items ≡ (at_end links.now lines.now).outside) }
{
    walked(alloc, lines, links)
}
