//! What the calls do in an open network, and the status that they return.

ghost use Rattle.std.specs.Prelude.{◌≡◌, ◌≢◌, ◌≤◌, ◌+◌, ◌↔◌, None, Some, length as size_of, take, drop, true, false, IfNone, IfOk, IfSome, IsErrOf};
ghost use Rattle.std.specs.List.{list_any};
ghost use Rattle.kernel_core.specs.Machine.{is_bootable};
ghost use Rattle.mote_types.specs.declared.fault.BootFault.{BootFault};
ghost use Rattle.network_steps.specs.Lines.{came_line};
ghost use Rattle.network_steps.specs.Refusals.{awaited_turn, link_refusal};
ghost use Rattle.network_steps.specs.Works.{TakesFeed, TakesLink, TakesTicks};
ghost use Rattle.library_core.specs.Code.Opening.{IsMoteAdded};
ghost use Rattle.library_core.specs.NetworkCalls.{AreOpened, IsNetworkOpened, NetworkGoesNext, NetworkTakesCall, awaits, config_of_mote, fault_status_if, mote_due, network_due_status, network_feed_status, network_line_status, network_submit_status, network_tick_status};
ghost use Rattle.library_core.specs.NetworkCalls as network;
ghost use Rattle.library_core.specs.Networks.{place_of};
ghost use Rattle.library_core.specs.Steps.{IsOpened, TellsTurn};

use crate::call::PlainCall;
use crate::in_session::{put_due, put_line};
use crate::open_network::OpenNetwork;
use crate::plain_network::{Happening, NetworkMote, NetworkSizes, happening_of, place_of};
use crate::status::{DONE, NO_CALL, NO_LINE, fault_status};
use crate::turn::PlainTurn;
use medium_core::link::Link;
use mote_session::session::Session;
use mote_session::{BootFault, Config};
use mote_text::output_buffer::OutputBuffer;
use mote_types::entry::Input;
use mote_types::event::MOST_APPLICATIONS;
use network_steps::steps::NetworkSteps;
use std::alloc::Global;

/// Whether no mote boots so.
fn is_unbootable(mote: &NetworkMote) -> bool
    ensures { result ≡ network.is_unbootable mote.now }
{
    match u8::try_from(mote.applications) {
        Ok(apps) => apps > MOST_APPLICATIONS || !mote.configuration.sizes().are_allowed(apps),
        Err(_) => true,
    }
}

/// Whether one of the motes can't boot.
fn has_unbootable(motes: &[NetworkMote]) -> bool
    ensures { result ≡ list_any network.is_unbootable motes.now }
{
    motes.iter().any(|mote| is_unbootable(mote))
}

/// The configuration of a mote. None, if it has too many applications.
fn config_of(mote: &NetworkMote) -> Option<Config>
    ensures some { IfSome result (λ config. config ≡ config_of_mote mote.now) }
    ensures none { IfNone result (is_bootable (config_of_mote mote.now) ≡ false) }
{
    let Ok(apps) = u8::try_from(mote.applications) else {
        return None;
    };
    let sizes = mote.configuration.sizes();
    Some(Config {
        mmem: sizes.mmem,
        heap: sizes.heap,
        apps,
        quota: sizes.quota,
        header: sizes.header,
    })
}

/// A mote that has just booted.
fn boot_session(alloc: Global, config: Config) -> Result<Session, BootFault>
    ensures opened { IfOk result (λ session. IsOpened config session) }
    ensures bad_sizes { IsErrOf result BootFault.BadSizes → is_bootable config ≡ false }
{
    match Session::boot(alloc, config) {
        Ok(session) => Ok(session),
        Err(fault) => Err(fault),
    }
}

/// Boots one more mote.
fn boot_mote(alloc: Global, sessions: &mut Vec<Session>, config: Config) -> Result<(), BootFault>
    ensures added { IfOk result (λ _. IsMoteAdded config sessions.old.items sessions.new.items) }
    ensures bad_sizes { IsErrOf result BootFault.BadSizes → is_bootable config ≡ false }
{
    let session = match boot_session(alloc, config) {
        Ok(session) => session,
        Err(fault) => return Err(fault),
    };
    match sessions.push(session) {
        Ok(()) => Ok(()),
        Err(_) => Err(BootFault::Memory),
    }
}

/// Boots these motes.
fn boot_motes(alloc: Global, motes: &[NetworkMote]) -> Result<Vec<Session>, BootFault>
    ensures opened { IfOk result (λ sessions. AreOpened motes.now sessions.items) }
    ensures bad_sizes { IsErrOf result BootFault.BadSizes → list_any network.is_unbootable motes.now ≡ true }
{
    let Ok(mut sessions) = Vec::with_capacity(alloc, motes.len()) else {
        return Err(BootFault::Memory);
    };
    for mote in motes {
        let Some(config) = config_of(mote) else {
            return Err(BootFault::BadSizes);
        };
        match boot_mote(alloc, &mut sessions, config) {
            Ok(()) => {}
            Err(fault) => return Err(fault),
        }
    }
    Ok(sessions)
}

/// A network of these motes, which have just booted.
///
/// # Errors
///
/// `BadSizes` exactly if one of the motes can't boot, otherwise `Memory`.
pub fn boot_network(
    alloc: Global,
    sizes: &NetworkSizes,
    motes: &[NetworkMote],
) -> Result<Box<OpenNetwork>, BootFault>
    ensures opened { IfOk result (λ network. IsNetworkOpened sizes.now motes.now network.value.steps) }
    ensures bad_sizes { IsErrOf result BootFault.BadSizes ↔ (list_any network.is_unbootable motes.now ≡ true) }
{
    // First, so that it doesn't depend on the memory that the motes before take.
    if has_unbootable(motes) {
        return Err(BootFault::BadSizes);
    }
    let sessions = match boot_motes(alloc, motes) {
        Ok(sessions) => sessions,
        Err(fault) => return Err(fault),
    };
    let Ok(steps) = NetworkSteps::new(
        alloc,
        sessions,
        sizes.room as usize,
        sizes.links,
        sizes.rounds,
    ) else {
        return Err(BootFault::Memory);
    };
    let line = OutputBuffer::new();
    match Box::new(alloc, OpenNetwork { steps, line }) {
        Ok(open_network) => Ok(open_network),
        Err(_) => Err(BootFault::Memory),
    }
}

/// Adds a link.
pub fn add_link(steps: &mut NetworkSteps, from: u32, link: Link) -> u32
    ensures added { result ≡ 0 → TakesLink (place_of from) link steps.old steps.new }
    ensures accepted { result ≡ 0 → link_refusal (place_of from) link steps.old ≡ None }
    ensures status { result ≢ 0 → result ≢ 21 → result ≡ fault_status_if (link_refusal (place_of from) link steps.old) }
    ensures unchanged { result ≢ 0 → steps.new ≡ steps.old }
{
    match steps.add_link(place_of(from), link) {
        Ok(()) => DONE,
        Err(fault) => fault_status(fault),
    }
}

/// Reports the turn that awaits its call, if one does.
fn tell_awaited(steps: &NetworkSteps, turn: &mut PlainTurn)
    ensures { TellsTurn (awaited_turn steps.now.net) turn.old turn.new }
{
    if let Some(awaited) = steps.turn() {
        turn.tell(awaited.process, awaited.origin, awaited.stimulus);
    }
}

/// Works to the next turn, line, or rest.
pub fn go_next(steps: &mut NetworkSteps, happening: &mut Happening, turn: &mut PlainTurn) -> u32
    ensures open { result ≢ 22 }
    ensures awaits { awaits steps.old ≡ true → (result ≡ 24) × (steps.new ≡ steps.old) }
    ensures goes { result ≡ 0 → NetworkGoesNext happening.new turn.old turn.new steps.old steps.new }
    ensures untold { result ≢ 0 → (happening.new ≡ happening.old) × (turn.new ≡ turn.old) }
{
    match steps.next() {
        Ok(came) => {
            *happening = happening_of(came, steps.clock());
            tell_awaited(steps, turn);
            DONE
        }
        Err(fault) => fault_status(fault),
    }
}

/// Submits the call that a struct says.
pub fn submit_call(steps: &mut NetworkSteps, plain: &PlainCall) -> u32
    ensures status { result ≡ network_submit_status plain.now steps.old }
    ensures taken { result ≡ 0 → NetworkTakesCall plain.now steps.old steps.new }
    ensures unchanged { result ≢ 0 → steps.new ≡ steps.old }
{
    match steps.submit_from(plain) {
        Ok(true) => DONE,
        Ok(false) => NO_CALL,
        Err(fault) => fault_status(fault),
    }
}

/// Lets the clock advance.
pub fn pass_ticks(steps: &mut NetworkSteps, ticks: u32) -> u32
    ensures status { result ≡ network_tick_status ticks steps.old }
    ensures passes { result ≡ 0 → TakesTicks ticks steps.old steps.new }
    ensures unchanged { result ≢ 0 → steps.new ≡ steps.old }
{
    match steps.tick(ticks) {
        Ok(()) => DONE,
        Err(fault) => fault_status(fault),
    }
}

/// Feeds an input from outside for the mote of this number.
pub fn feed_mote(steps: &mut NetworkSteps, number: u32, input: Input) -> u32
    ensures status { result ≡ network_feed_status number input steps.old }
    ensures waits { result ≡ 0 → TakesFeed (place_of number) input steps.old steps.new }
    ensures unchanged { result ≢ 0 → steps.new ≡ steps.old }
{
    match steps.feed(place_of(number), input) {
        Ok(()) => DONE,
        Err(fault) => fault_status(fault),
    }
}

/// Puts the line of what happened last, without its end, to the front of the buffer.
pub fn put_network_line(open_network: &mut OpenNetwork, line: &mut [u8], length: &mut usize) -> u32
    ensures steps { open_network.new.steps ≡ open_network.old.steps }
    ensures status { result ≡ network_line_status (size_of line.old) open_network.old.steps }
    ensures fits { result ≡ 0 → length.new ≤ size_of line.new }
    ensures rest { result ≡ 0 → drop length.new line.new ≡ drop length.new line.old }
    ensures front { result ≡ 0 → take length.new line.new
        ≡ take length.new (came_line open_network.old.steps.last open_network.old.steps.net) }
    ensures length { result ≢ 30
        → length.new + 1 ≡ size_of (came_line open_network.old.steps.last open_network.old.steps.net) }
    ensures no_line { result ≢ 0 → line.new ≡ line.old }
    ensures no_length { result ≡ 30 → length.new ≡ length.old }
{
    open_network.steps.line_into(&mut open_network.line);
    let text = open_network.line.as_slice();
    if text.is_empty() {
        return NO_LINE;
    }
    put_line(text, line, length)
}

/// Reports when the next timer of the mote of this number runs out.
pub fn put_mote_due(steps: &NetworkSteps, number: u32, clock: &mut u64) -> u32
    ensures status { result ≡ network_due_status number steps.now }
    ensures clock { result ≡ 0 → mote_due number steps.now ≡ Some clock.new }
    ensures no_clock { result ≢ 0 → clock.new ≡ clock.old }
{
    match steps.due(place_of(number)) {
        Ok(due) => put_due(due, clock),
        Err(fault) => fault_status(fault),
    }
}
