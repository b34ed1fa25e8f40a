//! What C passes to a network, and what is reported, in numbers.

ghost use Rattle.std.specs.Prelude.{◌≡◌};
ghost use Rattle.library_core.specs.Networks.{happening_of, link_said, loss_said, number_of, place_of};

use crate::configuration::Configuration;
use medium_core::link::{Link, Loss};
use network_steps::came::Came;

/// A mote of a network.
#[repr(C)]
#[derive(Drop)]
pub struct NetworkMote {
    pub configuration: Configuration,
    /// The number of its applications.
    pub applications: u32,
}

/// The sizes of a network.
#[repr(C)]
#[derive(Drop)]
pub struct NetworkSizes {
    /// The most frames in flight.
    pub room: u32,
    /// The most links.
    pub links: u32,
    /// The most rounds of one input.
    pub rounds: u64,
}

/// A link between two motes, by their numbers from 1 on.
#[repr(C)]
#[derive(Drop)]
pub struct PlainLink {
    pub from: u32,
    pub to: u32,
    /// In ticks, at least 1.
    pub delay: u32,
    /// 0 no frame is lost, 1 each n-th, 2 by lot.
    pub loss: u32,
    /// The n, or the chance of 65,536.
    pub number: u32,
    /// That of a lot.
    pub seed: u64,
}

/// What `next` came to in a network.
#[repr(C)]
#[derive(Drop)]
pub struct Happening {
    /// 0 a turn, 1 another entry, 2 the clock, 3 lost, 4 full, 5 missed, 6 rest, 7 exhausted.
    pub step: u32,
    /// The mote's number, or the receiver's; otherwise 0.
    pub mote: u32,
    /// The sender's number; otherwise 0.
    pub from: u32,
    /// The network's clock.
    pub clock: u64,
}

/// The index of the mote of this number. No mote has the number 0.
pub fn place_of(number: u32) -> usize
    ensures { result ≡ place_of number }
{
    if number == 0 {
        usize::MAX
    } else {
        number as usize - 1
    }
}

/// The number of the mote with this index.
fn number_of(mote: usize) -> u32
    ensures { result ≡ number_of mote }
{
    if mote < 4_294_967_295 {
        mote as u32 + 1
    } else {
        4_294_967_295
    }
}

/// The loss of this kind. One that is never sound where there is no such kind.
fn loss_of(kind: u32, number: u32, seed: u64) -> Loss
    ensures { result ≡ loss_said kind number seed }
{
    match kind {
        0 => Loss::Never,
        1 => Loss::every_nth(number),
        2 => Loss::ByLot {
            chance: number,
            drawn: seed,
        },
        _ => Loss::every_nth(0),
    }
}

impl PlainLink {
    /// The link that the numbers say.
    pub fn link(&self) -> Link
        ensures { result ≡ link_said self.now }
    {
        Link::new(
            place_of(self.to),
            self.delay,
            loss_of(self.loss, self.number, self.seed),
        )
    }
}

/// What happened, in numbers.
pub fn happening_of(came: Came, clock: u64) -> Happening
    ensures { result ≡ happening_of came clock }
{
    let (step, mote, from) = match came {
        Came::Turn(mote) => (0, number_of(mote), 0),
        Came::Entry(mote) => (1, number_of(mote), 0),
        Came::Clock => (2, 0, 0),
        Came::Lost(from, to) => (3, number_of(to), number_of(from)),
        Came::Full(from, to) => (4, number_of(to), number_of(from)),
        Came::Missed(from, to) => (5, number_of(to), number_of(from)),
        Came::Unheard(mote) => (5, number_of(mote), 0),
        Came::Rest => (6, 0, 0),
        Came::Exhausted => (7, 0, 0),
    };
    Happening {
        step,
        mote,
        from,
        clock,
    }
}
