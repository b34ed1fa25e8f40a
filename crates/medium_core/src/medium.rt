//! The medium.

ghost use Rattle.std.specs.Prelude.{◌≡◌, ◌≤◌, ◌-◌, ◌^◌, ◌++◌, [], ◌↔◌, false, true, IfErr, IfNone, IfOk, IfSome, IsErrOf, IsSomeAnd, None, length};
ghost use Rattle.std.specs.List.{list_all};
ghost use Rattle.medium_core.specs.Code.Airs.{link_lists};
ghost use Rattle.medium_core.specs.Code.Queue.{Queue};
ghost use Rattle.medium_core.specs.Air.{after_frames, are_links, arrival, begun, flight_over, free_room, gone_on, if_carried, landed, links_from, may_add, sent, still_air, with_link};
ghost use Rattle.medium_core.specs.Flights.{IsSeenAs, next_due, with_flights};
ghost use Rattle.medium_core.specs.Links.{after_frame, fate, is_link};

use crate::fault::MediumFault;
use crate::flight::Flight;
use crate::flights::{Arriving, Flights};
use crate::link::{Fate, Link};
use arrayvec::ArrayVec;
use std::alloc::Global;
use std::marker::Model;

/// Whether each of these links is sound.
fn are_sound(links: &[Link]) -> bool
    ensures { result ≡ list_all is_link links.now }
{
    for link in links {
        if !link.is_sound() {
            return false;
        }
    }
    true
}

/// Whether each link of each mote is sound.
fn are_all_sound(lists: &[Vec<Link>]) -> bool
    ensures { result ≡ are_links (link_lists lists.now) }
{
    for links in lists {
        if !are_sound(links.as_slice()) {
            return false;
        }
    }
    true
}

/// Sends a frame over one link.
fn send_over_one(
    flights: &mut Flights,
    link: &mut Link,
    clock: u64,
    from: usize,
    position: usize,
    bytes: &ArrayVec<u8, 127>,
)
    requires { clock ≤ 2 ^ 62 }
    ensures link { link.new ≡ after_frame (flights.old.room - length flights.old.flights) link.old }
    ensures flights { flights.new ≡ record flights.old {
      flights =
          with_flights (if_carried (fate (flights.old.room - length flights.old.flights) link.old) (flight_over clock from bytes.now position link.old) [])
          flights.old.flights;
    } }
{
    let free = flights.free();
    let due = clock + link.delay as u64;
    if let Fate::Carried = link.fate(free) {
        flights.add_frame(due, from, position, link.to, bytes);
    }
    *link = link.after(free);
}

/// Sends a frame over each of these links.
fn send_over(
    flights: &mut Flights,
    links: &mut [Link],
    clock: u64,
    from: usize,
    bytes: &ArrayVec<u8, 127>,
)
    requires { clock ≤ 2 ^ 62 }
    ensures links { links.new ≡ after_frames (flights.old.room - length flights.old.flights) links.old }
    ensures flights { flights.new ≡ record flights.old {
      flights =
          with_flights (begun (flights.old.room - length flights.old.flights) clock from bytes.now 0 links.old) flights.old.flights;
    } }
{
    let mut position: usize = 0;
    for link in links.iter_mut() {
        send_over_one(flights, link, clock, from, position, bytes);
        position += 1;
    }
}

/// Links, frames in flight, and a clock.
#[derive(Drop)]
pub struct Medium {
    clock: u64,
    links: Vec<Vec<Link>>,
    flights: Flights,
}

impl Model for Medium {
    ghost use Rattle.medium_core.specs.Air.{Air};
    ghost use Rattle.medium_core.specs.Code.Airs.{link_lists};
    ghost use Rattle.std.specs.Prelude.{◌≤◌, ◌^◌};

    ghost Value = { Air };

    ghost view = { λ m. record { clock = m.clock; room = m.flights.room; links = link_lists m.links.items; flights = m.flights.flights } };

    ghost invariant = { λ m. m.clock ≤ 2 ^ 62 };
}

impl Medium {
    /// A medium with these links of mote 0, of mote 1, and so on, and room for `room` frames in flight. Nothing was sent so far.
    /// All memory that it needs is allocated here.
    ///
    /// # Errors
    ///
    /// `BadLink` exactly where a link isn't sound (`Link::is_sound`); `Memory` where memory is refused.
    pub fn new(alloc: Global, links: Vec<Vec<Link>>, room: usize) -> Result<Medium, MediumFault>
        ensures made { IfOk result (λ medium. medium ≡ still_air room (link_lists links.items)) }
        ensures sound { IfOk result (λ _. are_links (link_lists links.items) ≡ true) }
        ensures bad_link { IsErrOf result MediumFault.BadLink ↔ (are_links (link_lists links.items) ≡ false) }
    {
        if !are_all_sound(links.as_slice()) {
            return Err(MediumFault::BadLink);
        }
        match Flights::new(alloc, room) {
            Ok(flights) => Ok(Medium {
                clock: 0,
                links,
                flights,
            }),
            Err(_) => Err(MediumFault::Memory),
        }
    }

    /// Adds a link of mote `from`, after its other ones.
    ///
    /// # Errors
    ///
    /// `BadLink` exactly where the link isn't sound (`Link::is_sound`), or there are no links of such a mote; `Memory` where memory
    /// is refused.
    pub fn add_link(&mut self, from: usize, link: Link) -> Result<(), MediumFault>
        ensures added { IfOk result (λ _. self.new ≡ with_link from link self.old) }
        ensures sound { IfOk result (λ _. may_add from link self.old ≡ true) }
        ensures bad_link { IsErrOf result MediumFault.BadLink ↔ (may_add from link self.old ≡ false) }
        ensures refused { IfErr result (λ _. self.new ≡ self.old) }
    {
        if from >= self.links.len() || !link.is_sound() {
            return Err(MediumFault::BadLink);
        }
        match self.links[from].push(link) {
            Ok(()) => Ok(()),
            Err(_) => Err(MediumFault::Memory),
        }
    }

    /// The ticks since boot.
    pub fn clock(&self) -> u64
        ensures value { result ≡ self.now.clock }
        ensures most { result ≤ 2 ^ 62 }
    {
        self.clock
    }

    /// When the next frame arrives, if any is in flight.
    pub fn next_due(&self) -> Option<u64>
        ensures { result ≡ next_due self.now.flights }
    {
        self.flights.next_due()
    }

    /// The links of a mote, each with what became of the frame that was sent over it last.
    pub fn links(&self, from: usize) -> &[Link]
        ensures { result.now ≡ links_from from self.now }
    {
        if from < self.links.len() {
            self.links[from].as_slice()
        } else {
            &[]
        }
    }

    /// The frame that arrives now, if one does.
    pub fn arriving(&self) -> Option<Arriving<'_>>
        ensures some { IfSome result (λ next. IsSomeAnd (arrival self.now) (IsSeenAs next.due next.from next.to next.bytes.now)) }
        ensures none { IfNone result (arrival self.now ≡ None) }
    {
        match self.flights.next() {
            Some(next) => {
                if next.due <= self.clock {
                    Some(next)
                } else {
                    None
                }
            }
            None => None,
        }
    }

    /// A mote sends a frame: it is in flight over each link of the mote that carries it, from now until the link's delay has passed.
    /// `links` shows what became of it.
    pub fn send(&mut self, from: usize, bytes: &ArrayVec<u8, 127>)
        ensures { self.new ≡ sent from bytes.now self.old }
    {
        if from < self.links.len() {
            send_over(
                &mut self.flights,
                &mut self.links[from],
                self.clock,
                from,
                bytes,
            );
        }
    }

    /// The clock advances to this moment, or only to the next arrival.
    pub fn go_on(&mut self, moment: u64)
        requires { moment ≤ 2 ^ 62 }
        ensures { self.new ≡ gone_on moment self.old }
    {
        let until = match self.flights.next_due() {
            Some(due) => due.min(moment),
            None => moment,
        };
        self.clock = self.clock.max(until);
    }

    /// The frame that arrives now, if one does, leaves the medium.
    // Inlined, so that a caller who drops it gets no copy.
    #[inline(always)]
    pub fn land(&mut self) -> Option<Flight>
        ensures flight { result ≡ arrival self.old }
        ensures landed { self.new ≡ landed self.old }
    {
        match self.flights.next_due() {
            Some(due) => {
                if due <= self.clock {
                    self.flights.take_next()
                } else {
                    None
                }
            }
            None => None,
        }
    }
}
