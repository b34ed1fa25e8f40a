//! The walk over the lines of a run: which frames are in flight, and what became of the others.

ghost use Rattle.std.specs.Prelude.{◌≡◌, ◌<◌, ◌++◌, flat_map, length, map, position, IfOk, IfSome};
ghost use Rattle.pictures.specs.Network.InFlight as spec;
ghost use Rattle.pictures.specs.declared.network.flights.Fate.{Fate};

use crate::network::flights::{Fate, Flight, Flights, Link};
use crate::network::line::NetworkLine;
use crate::transcript::{Input, Line, Note};
use std::alloc::{AllocError, Global};

/// A frame that a mote sent.
#[derive(Clone, Copy, Drop)]
pub(crate) struct SentFrame<'a> {
    from: u64,
    /// The line that says so, and the clock then.
    line: usize,
    clock: u64,
    digits: &'a str,
}

/// A frame in flight on a link.
#[derive(Clone, Copy, Drop)]
pub(crate) struct Pending<'a> {
    sent: SentFrame<'a>,
    to: u64,
    /// The link's.
    delay: u64,
}

impl Pending<'_> {
    fn ended(&self, line: usize, fate: Fate) -> Flight
        ensures { result ≡ spec.ended self.now line fate }
    {
        Flight {
            from: self.sent.from,
            to: self.to,
            sent: self.sent.line,
            ended: line,
            fate,
        }
    }

    /// Whether it arrives at this clock.
    fn is_due(&self, clock: u64) -> bool
        ensures { result ≡ spec.is_due clock self.now }
    {
        match clock.checked_sub(self.sent.clock) {
            Some(ticks) => ticks == self.delay,
            None => false,
        }
    }

    fn is_heard(&self, clock: u64, to: u64, digits: &str) -> bool
        ensures { result ≡ spec.is_heard clock to digits.entry self.now }
    {
        self.to == to && self.is_due(clock) && self.sent.digits == digits
    }

    fn is_missed(&self, clock: u64, from: u64, to: u64) -> bool
        ensures { result ≡ spec.is_missed clock from to self.now }
    {
        self.sent.from == from && self.to == to && self.is_due(clock)
    }

    fn is_of_line(&self, line: usize, to: u64) -> bool
        ensures { result ≡ spec.is_of_line line to self.now }
    {
        self.sent.line == line && self.to == to
    }
}

/// The first of these frames that is to be heard as these bytes.
fn position_heard(pending: &[Pending<'_>], clock: u64, to: u64, digits: &str) -> Option<usize>
    ensures first { result ≡ position (spec.is_heard clock to digits.entry) pending.now }
    ensures inside { IfSome result (λ at. at < length pending.now) }
{
    pending
        .iter()
        .position(|frame| frame.is_heard(clock, to, digits))
}

/// The first of these frames that is due from the one mote to the other.
fn position_missed(pending: &[Pending<'_>], clock: u64, from: u64, to: u64) -> Option<usize>
    ensures first { result ≡ position (spec.is_missed clock from to) pending.now }
    ensures inside { IfSome result (λ at. at < length pending.now) }
{
    pending
        .iter()
        .position(|frame| frame.is_missed(clock, from, to))
}

/// The frame of this line on the first link to this mote.
fn position_of_line(pending: &[Pending<'_>], line: usize, to: u64) -> Option<usize>
    ensures first { result ≡ position (spec.is_of_line line to) pending.now }
    ensures inside { IfSome result (λ at. at < length pending.now) }
{
    pending.iter().position(|frame| frame.is_of_line(line, to))
}

/// Takes the frame in this position out of those in flight.
fn take_at<'a>(pending: &mut Vec<Pending<'a>>, at: Option<usize>) -> Option<Pending<'a>>
    requires { IfSome at (λ at. at < length pending.old.items) }
    ensures frame { result ≡ spec.frame_at at pending.old.items }
    ensures others { pending.new.items ≡ spec.without at pending.old.items }
{
    let at = at?;
    Some(pending.remove(at))
}

/// Puts a frame on a link, if that is one of its sender.
fn put_on_link<'a>(
    pending: &mut Vec<Pending<'a>>,
    link: &Link,
    sent: &SentFrame<'a>,
) -> Result<(), AllocError>
    ensures { IfOk result (λ _. pending.new.items ≡ pending.old.items ++ spec.on_link sent.now link.now) }
{
    if link.from == sent.from {
        pending.push(Pending {
            sent: *sent,
            to: link.to,
            delay: link.delay,
        })?;
    }
    Ok(())
}

/// Puts a frame on each link of its sender.
fn put_on_links<'a>(
    pending: &mut Vec<Pending<'a>>,
    links: &[Link],
    sent: &SentFrame<'a>,
) -> Result<(), AllocError>
    ensures { IfOk result (λ _. pending.new.items ≡ pending.old.items ++ flat_map (spec.on_link sent.now) links.now) }
{
    for link in links {
        put_on_link(pending, link, sent)?;
    }
    Ok(())
}

/// A walk over the lines of a run.
#[derive(Drop)]
pub(crate) struct Walk<'a, 'b> {
    links: &'b [Link],
    clock: u64,
    /// The frame that was sent last.
    last: Option<SentFrame<'a>>,
    /// In the order in which they were sent, and that of the links.
    pending: Vec<Pending<'a>>,
    found: Flights,
}

impl<'a> Walk<'a, '_> {
    /// A mote sends a frame.
    fn send(&mut self, line: usize, from: u64, digits: &'a str) -> Result<(), AllocError>
        ensures { IfOk result (λ _. spec.seen self.new ≡ spec.sent_by line from digits.entry (spec.seen self.old)) }
    {
        let sent = SentFrame {
            from,
            line,
            clock: self.clock,
            digits,
        };
        self.last = Some(sent);
        put_on_links(&mut self.pending, self.links, &sent)
    }

    /// The frame in this position arrives. Without one, the frame is from outside.
    fn arrive(&mut self, line: usize, at: Option<usize>, fate: Fate) -> Result<(), AllocError>
        requires { IfSome at (λ at. at < length self.old.pending.items) }
        ensures { IfOk result (λ _. spec.seen self.new ≡ spec.arrived_at line fate at (spec.seen self.old)) }
    {
        match take_at(&mut self.pending, at) {
            Some(frame) => self.found.flights.push(frame.ended(line, fate))?,
            None => self.found.outside.push(line)?,
        }
        Ok(())
    }

    /// A frame is heard: the first one in flight that is due there now and has these bytes.
    fn hear(&mut self, line: usize, to: u64, digits: &str) -> Result<(), AllocError>
        ensures { IfOk result (λ _. spec.seen self.new ≡ spec.heard_by line to digits.entry (spec.seen self.old)) }
    {
        let at = position_heard(self.pending.as_slice(), self.clock, to, digits);
        self.arrive(line, at, Fate::Heard)
    }

    /// A frame arrives at a mote that was halted.
    fn miss(&mut self, line: usize, from: u64, to: u64) -> Result<(), AllocError>
        ensures { IfOk result (λ _. spec.seen self.new ≡ spec.missed_by line from to (spec.seen self.old)) }
    {
        let at = position_missed(self.pending.as_slice(), self.clock, from, to);
        self.arrive(line, at, Fate::Missed)
    }

    /// The frame that was sent last isn't carried to this mote. Without links, that is all that is known of it.
    fn drop_last(&mut self, line: usize, from: u64, to: u64, fate: Fate) -> Result<(), AllocError>
        ensures { IfOk result (λ _. spec.seen self.new ≡ spec.dropped line from to fate self.old.last (spec.seen self.old)) }
    {
        let Some(last) = self.last else {
            return Ok(());
        };
        if last.from != from {
            return Ok(());
        }
        let at = position_of_line(self.pending.as_slice(), last.line, to);
        let _ = take_at(&mut self.pending, at);
        self.found.flights.push(Flight {
            from,
            to,
            sent: last.line,
            ended: line,
            fate,
        })?;
        Ok(())
    }

    fn take_mote_line(&mut self, at: usize, mote: u64, line: &Line<'a>) -> Result<(), AllocError>
        ensures { IfOk result (λ _. spec.seen self.new ≡ spec.after_line_of at mote line.now (spec.seen self.old)) }
    {
        match *line {
            Line::Note(Note::Sent(digits)) => self.send(at, mote, digits),
            Line::Input(Input::Frame(digits)) => self.hear(at, mote, digits),
            _ => Ok(()),
        }
    }

    fn take_line(&mut self, at: usize, line: &NetworkLine<'a>) -> Result<(), AllocError>
        ensures { IfOk result (λ _. spec.seen self.new ≡ spec.after_line at line.now (spec.seen self.old)) }
    {
        match *line {
            NetworkLine::Clock(moment) => {
                self.clock = moment;
                Ok(())
            }
            NetworkLine::Mote(mote, read) => self.take_mote_line(at, mote, &read),
            NetworkLine::Lost(from, to) => self.drop_last(at, from, to, Fate::Lost),
            NetworkLine::Full(from, to) => self.drop_last(at, from, to, Fate::Full),
            NetworkLine::Missed(from, to) => self.miss(at, from, to),
            NetworkLine::Unheard(_) | NetworkLine::Ending(_) => Ok(()),
        }
    }

    /// All flights, with those that are under way at the end.
    fn end(self, lines: usize) -> Result<Flights, AllocError>
        ensures flights { IfOk result (λ found. found.flights.items ≡ spec.flights_by lines (spec.seen self.entry)) }
        ensures outside { IfOk result (λ found. found.outside.items ≡ self.entry.found.outside.items) }
    {
        let Walk {
            pending,
            mut found,
            ..
        } = self;
        for frame in pending.as_slice() {
            found.flights.push(frame.ended(lines, Fate::UnderWay))?;
        }
        Ok(found)
    }
}

/// What a walk over the lines finds.
pub(crate) fn walked(
    alloc: Global,
    lines: &[NetworkLine<'_>],
    links: &[Link],
) -> Result<Flights, AllocError>
    ensures flights { IfOk result (λ found. found.flights.items ≡ spec.flights_by (length lines.now) (spec.at_end links.now lines.now)) }
    ensures outside { IfOk result (λ found. found.outside.items ≡ (spec.at_end links.now lines.now).outside) }
{
    let mut walk = Walk {
        links,
        clock: 0,
        last: None,
        pending: Vec::new(alloc),
        found: Flights {
            flights: Vec::new(alloc),
            outside: Vec::new(alloc),
        },
    };
    for (at, line) in lines.iter().enumerate() {
        walk.take_line(at, line)?;
    }
    walk.end(lines.len())
}
