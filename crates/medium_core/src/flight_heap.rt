//! A heap of frames in flight.

ghost use Rattle.std.specs.Prelude.{◌≡◌, ◌≤◌, ◌<◌, ◌+◌, ◌^◌, [], ◌∷◌, IfNone, IfOk, IfSome, IsSomeAnd, None, length};
ghost use Rattle.medium_core.specs.Code.Heap.{Pile};
ghost use Rattle.medium_core.specs.Flights.{first_flight, next_due, with_flight};

use crate::flight::Flight;
use crate::numbered::Numbered;
use std::alloc::{AllocError, Global};
use std::collections::BinaryHeap;
use std::marker::Model;

/// Frames in flight, and room for `room` of them, which is allocated once. Adding one takes as many steps as their number has
/// binary digits, and so does removing the next to arrive.
#[derive(Drop)]
pub(crate) struct FlightHeap {
    heap: BinaryHeap<Numbered>,
    /// The number of the next one: those that arrive at one moment leave in the order in which they came.
    number: u64,
    room: usize,
}

impl Model for FlightHeap {
    ghost use Rattle.medium_core.specs.Code.Heap.{IsHeld, Pile, flights_of, sorted};
    ghost use Rattle.std.specs.BinaryHeap.{heap_capacity, heap_items};

    ghost Value = { Pile };

    ghost view = { λ h. record { room = h.room; number = h.number; flights = flights_of (sorted (heap_items h.heap)) } };

    ghost invariant = { λ h. IsHeld h.room (heap_capacity h.heap) h.number (heap_items h.heap) };
}

impl FlightHeap {
    /// None; room for `room` is allocated.
    pub(crate) fn new(alloc: Global, room: usize) -> Result<FlightHeap, AllocError>
        ensures { IfOk result (λ heap. heap ≡ record { room = room; number = 0; flights = [] }) }
    {
        let heap = BinaryHeap::with_capacity(alloc, room)?;
        Ok(FlightHeap {
            heap,
            number: 0,
            room,
        })
    }

    pub(crate) fn len(&self) -> usize
        ensures { result ≡ length self.now.flights }
    {
        self.heap.len()
    }

    /// The number of the next one.
    pub(crate) fn number(&self) -> u64
        ensures { result ≡ self.now.number }
    {
        self.number
    }

    /// Adds one, after all that arrive no later.
    #[inline(never)]
    pub(crate) fn add(&mut self, flight: Flight)
        requires room { length self.old.flights < self.old.room }
        requires number { self.old.number + 1 < 2 ^ 64 }
        ensures { self.new ≡ record self.old { number = self.old.number + 1; flights = with_flight flight self.old.flights } }
    {
        let number = self.number;
        self.number += 1;
        let _ = self.heap.push(Numbered { number, flight });
    }

    /// The one that arrives next.
    pub(crate) fn first(&self) -> Option<&Flight>
        ensures some { IfSome result (λ flight. first_flight self.now.flights ≡ Some flight.now) }
        ensures none { IfNone result (self.now.flights ≡ []) }
    {
        match self.heap.peek() {
            Some(first) => Some(&first.flight),
            None => None,
        }
    }

    /// Removes the one that arrives next.
    #[inline(never)]
    pub(crate) fn take_next(&mut self) -> Option<Flight>
        ensures some { IfSome result (λ flight. self.old.flights ≡ flight ∷ self.new.flights) }
        ensures none { IfNone result (self.old.flights ≡ []) }
        ensures empty { IfNone result (self.new.flights ≡ []) }
        ensures room { self.new.room ≡ self.old.room }
    {
        match self.heap.pop() {
            Some(first) => Some(first.flight),
            None => None,
        }
    }
}
