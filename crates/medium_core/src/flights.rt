//! The frames in flight, in the order of their arrival.

ghost use Rattle.std.specs.Prelude.{◌≡◌, ◌≤◌, ◌<◌, ◌+◌, ◌-◌, ℕ, [], ◌∷◌, ◌++◌, IfNone, IfSome, IfOk, IsSomeAnd, None, Some, drop, false, insert, length, take};
ghost use Rattle.std.specs.VecDeque.{deque_capacity};
ghost use Rattle.medium_core.specs.Code.Heap.{Pile};
ghost use Rattle.medium_core.specs.Code.Queue.{HasRoom, InOrder, is_overtaken, last_due};
ghost use Rattle.medium_core.specs.Flights.{IsSeenAs, first_flight, next_due, with_flight, with_flights};

use crate::flight::{Flight, copied};
use crate::flight_heap::FlightHeap;
use arrayvec::ArrayVec;
use std::alloc::{AllocError, Global};
use std::collections::VecDeque;
use std::marker::Model;

/// A frame that is about to arrive.
#[derive(Clone, Copy, Drop)]
pub struct Arriving<'a> {
    /// The moment of its arrival, in ticks since boot.
    pub due: u64,
    /// The number of its sender.
    pub from: usize,
    /// The number of its receiver.
    pub to: usize,
    pub bytes: &'a ArrayVec<u8, 127>,
}

/// The position after all that arrive no later than `due`.
fn position_after(queue: &VecDeque<Flight>, due: u64) -> usize
    requires { InOrder queue.now.items }
    ensures bound { result ≤ length queue.now.items }
    ensures position { (flight : Flight) → flight.due ≡ due → insert queue.now.items result flight ≡ with_flight flight queue.now.items }
{
    let mut at = queue.len();
    while at > 0 {
        let before = at - 1;
        if queue[before].due <= due {
            return at;
        }
        at = before;
    }
    0
}

/// Adds one, after all that arrive no later.
fn insert_in_order(queue: &mut VecDeque<Flight>, flight: Flight)
    requires order { InOrder queue.old.items }
    requires room { length queue.old.items < deque_capacity queue.old }
    ensures items { queue.new.items ≡ with_flight flight queue.old.items }
    ensures capacity { deque_capacity queue.old ≤ deque_capacity queue.new }
{
    let at = position_after(queue, flight.due);
    let _ = queue.insert(at, flight);
}

/// Moves all of the heap into the queue.
#[inline(never)]
fn empty_heap(queue: &mut VecDeque<Flight>, heap: &mut FlightHeap)
    requires order { InOrder queue.old.items }
    requires room { length heap.old.flights + length queue.old.items ≤ deque_capacity queue.old }
    ensures items { queue.new.items ≡ with_flights heap.old.flights queue.old.items }
    ensures empty { heap.new.flights ≡ [] }
    ensures capacity { deque_capacity queue.old ≤ deque_capacity queue.new }
    ensures room { heap.new.room ≡ heap.old.room }
{
    while let Some(flight) = heap.take_next() {
        insert_in_order(queue, flight);
    }
}

/// When the last one arrives; 0 where there is none.
fn last_arrival(queue: &VecDeque<Flight>) -> u64
    ensures { result ≡ last_due 0 queue.now.items }
{
    match queue.back() {
        Some(last) => last.due,
        None => 0,
    }
}

/// Whether one of the heap arrives before all of the queue.
fn overtakes(heap: &FlightHeap, queue: &VecDeque<Flight>) -> bool
    ensures { result ≡ is_overtaken heap.now.flights queue.now.items }
{
    let Some(overtaking) = heap.first() else {
        return false;
    };
    match queue.front() {
        Some(first) => overtaking.due < first.due,
        None => true,
    }
}

/// Moves the first of the heap, if any, to the front of the queue.
#[inline(never)]
fn let_overtake(queue: &mut VecDeque<Flight>, heap: &mut FlightHeap)
    requires { length heap.old.flights + length queue.old.items ≤ deque_capacity queue.old }
    ensures queue { queue.new.items ≡ take 1 heap.old.flights ++ queue.old.items }
    ensures heap { heap.new.flights ≡ drop 1 heap.old.flights }
    ensures capacity { deque_capacity queue.old ≤ deque_capacity queue.new }
    ensures room { heap.new.room ≡ heap.old.room }
{
    if let Some(flight) = heap.take_next() {
        let _ = queue.insert(0, flight);
    }
}

/// Puts the next to arrive at the front of the queue.
#[inline(always)]
fn put_in_turn(queue: &mut VecDeque<Flight>, heap: &mut FlightHeap)
    requires order { InOrder heap.old.flights }
    requires room { length heap.old.flights + length queue.old.items ≤ deque_capacity queue.old }
    ensures same { with_flights heap.new.flights queue.new.items ≡ with_flights heap.old.flights queue.old.items }
    ensures in_turn { is_overtaken heap.new.flights queue.new.items ≡ false }
    ensures room { (room : ℕ) → HasRoom room (deque_capacity queue.old) heap.old queue.old.items → HasRoom room (deque_capacity queue.new) heap.new queue.new.items }
{
    if overtakes(heap, queue) {
        let_overtake(queue, heap);
    }
}

/// The frames in flight, and room for `room` of them, which is allocated once.
///
/// Where all delays are alike, each frame arrives after those that were sent before it, and goes to the end of the queue. Only one
/// that overtakes the last of the queue goes into the heap. The next to arrive is always the first of the queue.
#[derive(Drop)]
pub(crate) struct Flights {
    queue: VecDeque<Flight>,
    overtaking: FlightHeap,
    room: usize,
}

impl Model for Flights {
    ghost use Rattle.medium_core.specs.Code.Queue.{InTurn, Queue};
    ghost use Rattle.medium_core.specs.Flights.{with_flights};
    ghost use Rattle.std.specs.VecDeque.{deque_capacity};

    ghost Value = { Queue };

    ghost view = { λ f. record { room = f.room; flights = with_flights f.overtaking.flights f.queue.items } };

    ghost invariant = { λ f. InTurn f.room (deque_capacity f.queue) f.overtaking f.queue.items };
}

impl Flights {
    /// None; room for `room` is allocated.
    pub(crate) fn new(alloc: Global, room: usize) -> Result<Flights, AllocError>
        ensures { IfOk result (λ flights. (flights.room ≡ room) × (flights.flights ≡ [])) }
    {
        let queue = VecDeque::with_capacity(alloc, room)?;
        let overtaking = FlightHeap::new(alloc, room)?;
        Ok(Flights {
            queue,
            overtaking,
            room,
        })
    }

    /// The number of further frames that find room.
    pub(crate) fn free(&self) -> usize
        ensures { result ≡ self.now.room - length self.now.flights }
    {
        self.room - self.overtaking.len() - self.queue.len()
    }

    /// Adds a frame that is on its way, after all that arrive no later.
    // Mostly at the end of the queue: each function that is passed a whole flight copies it.
    pub(crate) fn add_frame(
        &mut self,
        due: u64,
        from: usize,
        position: usize,
        to: usize,
        bytes: &ArrayVec<u8, 127>,
    )
        requires { length self.old.flights < self.old.room }
        ensures { self.new ≡ record self.old {
          flights = with_flight (record { due = due; from = from; position = position; to = to; bytes = bytes.now }) self.old.flights;
        } }
    {
        let bytes = copied(bytes);
        if last_arrival(&self.queue) <= due {
            self.queue.push_back_reserved(Flight {
                due,
                from,
                position,
                to,
                bytes,
            });
        } else {
            self.add(Flight {
                due,
                from,
                position,
                to,
                bytes,
            });
        }
    }

    /// Adds one, after all that arrive no later.
    #[inline(never)]
    fn add(&mut self, flight: Flight)
        requires { length self.old.flights < self.old.room }
        ensures { self.new ≡ record self.old { flights = with_flight flight self.old.flights } }
    {
        if last_arrival(&self.queue) <= flight.due {
            self.queue.push_back_reserved(flight);
        } else if self.overtaking.number() < u64::MAX {
            self.overtaking.add(flight);
            put_in_turn(&mut self.queue, &mut self.overtaking);
        } else {
            // The heap has no number for it: from now on such a frame goes into the queue.
            empty_heap(&mut self.queue, &mut self.overtaking);
            insert_in_order(&mut self.queue, flight);
        }
    }

    /// The one that arrives next: always the first of the queue.
    fn first(&self) -> Option<&Flight>
        ensures some { IfSome result (λ flight. first_flight self.now.flights ≡ Some flight.now) }
        ensures none { IfNone result (self.now.flights ≡ []) }
    {
        self.queue.front()
    }

    /// When the next one arrives, if any is in flight.
    pub(crate) fn next_due(&self) -> Option<u64>
        ensures { result ≡ next_due self.now.flights }
    {
        match self.first() {
            Some(flight) => Some(flight.due),
            None => None,
        }
    }

    /// The one that arrives next.
    pub(crate) fn next(&self) -> Option<Arriving<'_>>
        ensures some { IfSome result (λ next. IsSomeAnd (first_flight self.now.flights) (IsSeenAs next.due next.from next.to next.bytes.now)) }
        ensures none { IfNone result (first_flight self.now.flights ≡ None) }
    {
        match self.first() {
            Some(flight) => Some(Arriving {
                due: flight.due,
                from: flight.from,
                to: flight.to,
                bytes: &flight.bytes,
            }),
            None => None,
        }
    }

    /// Removes the one that arrives next.
    #[inline(always)]
    pub(crate) fn take_next(&mut self) -> Option<Flight>
        ensures some { IfSome result (λ flight. self.old.flights ≡ flight ∷ self.new.flights) }
        ensures none { IfNone result (self.old.flights ≡ []) }
        ensures empty { IfNone result (self.new.flights ≡ []) }
        ensures room { self.new.room ≡ self.old.room }
    {
        let flight = self.queue.pop_front();
        put_in_turn(&mut self.queue, &mut self.overtaking);
        flight
    }
}
