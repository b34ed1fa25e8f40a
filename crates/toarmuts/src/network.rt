//! The calls by which C asks a network of motes step by step.
//!
//! Each works on the network that C holds. What C passes can be anything, as for one mote.

ghost use Rattle.std.specs.Prelude.{◌≡◌, ◌≢◌, ◌≤◌, ◌+◌, ◌↔◌, true, None, Some, length as size_of, take, drop, is_some, IsSomeAnd};
ghost use Rattle.std.specs.List.{list_any};
ghost use Rattle.network_steps.specs.Lines.{came_line};
ghost use Rattle.network_steps.specs.Works.{TakesFeed, TakesLink, TakesTicks};
ghost use Rattle.library_core.specs.BundledTurns.{NetworkTakesTurn, network_bundled_status};
ghost use Rattle.library_core.specs.Inputs.{input_said};
ghost use Rattle.library_core.specs.NetworkCalls.{IsNetworkOpened, NetworkGoes, NetworkGoesNext, NetworkTakesCall, awaits, is_unbootable, mote_due, network_due_status, network_feed_status, network_line_status, network_link_status, network_status, network_submit_status, network_tick_status, steps_in};
ghost use Rattle.library_core.specs.Networks.{link_said, place_of};

use library_core::application::PlainApplication;
use library_core::bundled_turn::take_network_turn;
use library_core::call::PlainCall;
use library_core::held_network::HeldNetwork;
use library_core::in_network::{
    add_link, boot_network, feed_mote, go_next, pass_ticks, put_mote_due, put_network_line,
    submit_call,
};
use library_core::input::input_of;
use library_core::plain_network::{Happening, NetworkMote, NetworkSizes, PlainLink};
use library_core::status::{BAD_SIZES, CLOSED, DONE, IS_OPEN, OUT_OF_MEMORY};
use library_core::turn::PlainTurn;
use mote_session::BootFault;
use std::alloc::Global;

/// Opens a network of these motes, with no links so far.
#[unsafe(no_mangle)]
pub extern "C" fn toarmuts_network_open(
    alloc: Global,
    sizes: &NetworkSizes,
    motes: &[NetworkMote],
    network: &mut HeldNetwork,
) -> u32
    ensures opened { result ≡ 0 → ((steps_in network.old) ≡ None) × IsSomeAnd (steps_in network.new) (IsNetworkOpened sizes.now motes.now) }
    ensures unchanged { result ≢ 0 → (steps_in network.new) ≡ (steps_in network.old) }
    ensures is_open { (result ≡ 23) ↔ (is_some (steps_in network.old) ≡ true) }
    ensures bad_sizes { (steps_in network.old) ≡ None → (result ≡ 19) ↔ (list_any is_unbootable motes.now ≡ true) }
    ensures else_memory { result ≢ 0 → result ≢ 19 → result ≢ 23 → result ≡ 21 }
{
    if let Some(_) = network.open_mut() {
        return IS_OPEN;
    }
    match boot_network(alloc, sizes, motes) {
        Ok(open_network) => {
            network.put(alloc, open_network);
            DONE
        }
        Err(BootFault::BadSizes) => BAD_SIZES,
        Err(BootFault::Memory) => OUT_OF_MEMORY,
    }
}

/// Adds a link, before the first `next`.
#[unsafe(no_mangle)]
pub extern "C" fn toarmuts_network_link(
    alloc: Global,
    network: &mut HeldNetwork,
    link: &PlainLink,
) -> u32
    ensures added { result ≡ 0 → NetworkGoes (TakesLink (place_of link.now.from) (link_said link.now)) (steps_in network.old) (steps_in network.new) }
    ensures accepted { result ≡ 0 → network_status (steps_in network.old) (network_link_status link.now) ≡ 0 }
    ensures status { result ≢ 0 → result ≢ 21 → result ≡ network_status (steps_in network.old) (network_link_status link.now) }
    ensures unchanged { result ≢ 0 → (steps_in network.new) ≡ (steps_in network.old) }
{
    let Some(open_network) = network.open_mut() else {
        return CLOSED;
    };
    add_link(&mut open_network.steps, link.from, link.link())
}

/// Works to the next turn, line, or rest; `happening` says which, and `turn` is the turn.
#[unsafe(no_mangle)]
pub extern "C" fn toarmuts_network_next(
    alloc: Global,
    network: &mut HeldNetwork,
    happening: &mut Happening,
    turn: &mut PlainTurn,
) -> u32
    ensures closed { (result ≡ 22) ↔ ((steps_in network.old) ≡ None) }
    ensures awaits { IsSomeAnd (steps_in network.old) (λ steps. awaits steps ≡ true) → (result ≡ 24) × ((steps_in network.new) ≡ (steps_in network.old)) }
    ensures goes { result ≡ 0 → NetworkGoes (NetworkGoesNext happening.new turn.old turn.new) (steps_in network.old) (steps_in network.new) }
    ensures untold { result ≢ 0 → (happening.new ≡ happening.old) × (turn.new ≡ turn.old) }
{
    let Some(open_network) = network.open_mut() else {
        return CLOSED;
    };
    go_next(&mut open_network.steps, happening, turn)
}

/// Submits the call of the application whose turn it is.
#[unsafe(no_mangle)]
pub extern "C" fn toarmuts_network_submit(
    alloc: Global,
    network: &mut HeldNetwork,
    call: &PlainCall,
) -> u32
    ensures status { result ≡ network_status (steps_in network.old) (network_submit_status call.now) }
    ensures taken { result ≡ 0 → NetworkGoes (NetworkTakesCall call.now) (steps_in network.old) (steps_in network.new) }
    ensures unchanged { result ≢ 0 → (steps_in network.new) ≡ (steps_in network.old) }
{
    let Some(open_network) = network.open_mut() else {
        return CLOSED;
    };
    submit_call(&mut open_network.steps, call)
}

/// Submits the call that a bundled application makes in its turn: the application is one that C holds.
#[unsafe(no_mangle)]
pub extern "C" fn toarmuts_network_submit_bundled(
    alloc: Global,
    network: &mut HeldNetwork,
    application: &mut PlainApplication,
) -> u32
    ensures status { result ≡ network_status (steps_in network.old) (network_bundled_status application.old) }
    ensures taken { result ≡ 0 → NetworkGoes (NetworkTakesTurn application.old application.new) (steps_in network.old) (steps_in network.new) }
    ensures unchanged { result ≢ 0 → ((steps_in network.new) ≡ (steps_in network.old)) × (application.new ≡ application.old) }
{
    let Some(open_network) = network.open_mut() else {
        return CLOSED;
    };
    take_network_turn(&mut open_network.steps, application)
}

/// Lets the clock advance by `ticks`, which `next` does.
#[unsafe(no_mangle)]
pub extern "C" fn toarmuts_network_tick(alloc: Global, network: &mut HeldNetwork, ticks: u32) -> u32
    ensures status { result ≡ network_status (steps_in network.old) (network_tick_status ticks) }
    ensures passes { result ≡ 0 → NetworkGoes (TakesTicks ticks) (steps_in network.old) (steps_in network.new) }
    ensures unchanged { result ≢ 0 → (steps_in network.new) ≡ (steps_in network.old) }
{
    let Some(open_network) = network.open_mut() else {
        return CLOSED;
    };
    pass_ticks(&mut open_network.steps, ticks)
}

/// Feeds an input from outside, of kind 1 serial bytes or 2 a frame, for the mote of this number.
#[unsafe(no_mangle)]
pub extern "C" fn toarmuts_network_feed(
    alloc: Global,
    network: &mut HeldNetwork,
    mote: u32,
    kind: u32,
    bytes: &[u8],
) -> u32
    ensures status { result ≡ network_status (steps_in network.old) (network_feed_status mote (input_said kind 0 bytes.now)) }
    ensures waits { result ≡ 0 → NetworkGoes (TakesFeed (place_of mote) (input_said kind 0 bytes.now)) (steps_in network.old) (steps_in network.new) }
    ensures unchanged { result ≢ 0 → (steps_in network.new) ≡ (steps_in network.old) }
{
    let Some(open_network) = network.open_mut() else {
        return CLOSED;
    };
    feed_mote(&mut open_network.steps, mote, input_of(kind, 0, bytes))
}

/// Puts the line of what happened last, without its end, to the front of the buffer, and reports its length, also where it is
/// longer than the buffer.
#[unsafe(no_mangle)]
pub extern "C" fn toarmuts_network_line(
    alloc: Global,
    network: &mut HeldNetwork,
    line: &mut [u8],
    length: &mut usize,
) -> u32
    ensures status { result ≡ network_status (steps_in network.old) (network_line_status (size_of line.old)) }
    ensures fits { result ≡ 0 → length.new ≤ size_of line.new }
    ensures rest { result ≡ 0 → drop length.new line.new ≡ drop length.new line.old }
    ensures front { result ≡ 0 → IsSomeAnd (steps_in network.old) (λ steps. take length.new line.new ≡ take length.new (came_line steps.last steps.net)) }
    ensures length { result ≢ 22 → result ≢ 30 → IsSomeAnd (steps_in network.old) (λ steps. length.new + 1 ≡ size_of (came_line steps.last steps.net)) }
    ensures no_line { result ≢ 0 → line.new ≡ line.old }
    ensures no_length { result ≢ 0 → result ≢ 20 → length.new ≡ length.old }
    ensures unchanged { (steps_in network.new) ≡ (steps_in network.old) }
{
    let Some(open_network) = network.open_mut() else {
        return CLOSED;
    };
    put_network_line(open_network, line, length)
}

/// Reports the ticks since boot.
#[unsafe(no_mangle)]
pub extern "C" fn toarmuts_network_clock(
    alloc: Global,
    network: &mut HeldNetwork,
    clock: &mut u64,
) -> u32
    ensures status { result ≡ network_status (steps_in network.old) (λ steps. 0) }
    ensures clock { result ≡ 0 → IsSomeAnd (steps_in network.old) (λ steps. clock.new ≡ steps.net.air.clock) }
    ensures no_clock { result ≢ 0 → clock.new ≡ clock.old }
    ensures unchanged { (steps_in network.new) ≡ (steps_in network.old) }
{
    let Some(open_network) = network.open_mut() else {
        return CLOSED;
    };
    *clock = open_network.steps.clock();
    DONE
}

/// Reports when the next timer of the mote of this number runs out.
#[unsafe(no_mangle)]
pub extern "C" fn toarmuts_network_due(
    alloc: Global,
    network: &mut HeldNetwork,
    mote: u32,
    clock: &mut u64,
) -> u32
    ensures status { result ≡ network_status (steps_in network.old) (network_due_status mote) }
    ensures clock { result ≡ 0 → IsSomeAnd (steps_in network.old) (λ steps. mote_due mote steps ≡ Some clock.new) }
    ensures no_clock { result ≢ 0 → clock.new ≡ clock.old }
    ensures unchanged { (steps_in network.new) ≡ (steps_in network.old) }
{
    let Some(open_network) = network.open_mut() else {
        return CLOSED;
    };
    put_mote_due(&open_network.steps, mote, clock)
}

/// Frees the network's memory.
#[unsafe(no_mangle)]
pub extern "C" fn toarmuts_network_close(alloc: Global, network: &mut HeldNetwork) -> u32
    ensures status { result ≡ network_status (steps_in network.old) (λ steps. 0) }
    ensures closed { (steps_in network.new) ≡ None }
{
    match network.take(alloc) {
        Some(_) => DONE,
        None => CLOSED,
    }
}
