//! The turns of bundled applications, and the status that they return.

ghost use Rattle.std.specs.Prelude.{◌≡◌, ◌≢◌};
ghost use Rattle.library_core.specs.BundledTurns.{NetworkTakesTurn, TakesTurn, bundled_status_of, network_bundled_status};

use crate::application::PlainApplication;
use crate::status::{DONE, NO_APPLICATION, NO_TURN, fault_status, refusal_status};
use mote_session::session::Session;
use network_steps::steps::NetworkSteps;

/// Submits the call that an application makes in the turn that awaits one.
pub fn take_turn(session: &mut Session, application: &mut PlainApplication) -> u32
    ensures status { result ≡ bundled_status_of application.old session.old }
    ensures taken { result ≡ 0 → TakesTurn application.old application.new session.old session.new }
    ensures unchanged { result ≢ 0 → (session.new ≡ session.old) × (application.new ≡ application.old) }
{
    let Some(turn) = session.turn() else {
        return NO_TURN;
    };
    let Some(call) = application.turn(turn.stimulus) else {
        return NO_APPLICATION;
    };
    match session.submit(call) {
        Ok(()) => DONE,
        Err(refusal) => refusal_status(refusal),
    }
}

/// The same in a network.
pub fn take_network_turn(steps: &mut NetworkSteps, application: &mut PlainApplication) -> u32
    ensures status { result ≡ network_bundled_status application.old steps.old }
    ensures taken { result ≡ 0 → NetworkTakesTurn application.old application.new steps.old steps.new }
    ensures unchanged { result ≢ 0 → (steps.new ≡ steps.old) × (application.new ≡ application.old) }
{
    let Some(turn) = steps.turn() else {
        return NO_TURN;
    };
    let Some(call) = application.turn(turn.stimulus) else {
        return NO_APPLICATION;
    };
    match steps.submit(call) {
        Ok(()) => DONE,
        Err(fault) => fault_status(fault),
    }
}
