//! When motes must get the time.

ghost use Rattle.std.specs.Prelude.{◌≡◌};
ghost use Rattle.network_session.specs.Network.{wakes_of};
ghost use Rattle.network_session.specs.Waking.{due_ticks, wake};

use mote_session::session::Session;
use std::alloc::{AllocError, Global};

/// For how many ticks a mote can sleep.
const LONGEST_SLEEP: u64 = 4_294_967_295;

/// The moment of a halted mote, which never comes.
const NEVER: u64 = u64::MAX;

/// When the mote must get the time at the latest.
pub(crate) fn wake_of(session: &Session) -> u64
    ensures { result ≡ wake session.now.machine }
{
    if session.halted() {
        return NEVER;
    }
    let clock = session.clock();
    let latest = clock + LONGEST_SLEEP;
    let wake = match session.next_deadline() {
        Some(deadline) => latest.min(deadline),
        None => latest,
    };
    wake.max(clock + 1)
}

/// By how many ticks a mote with this clock is behind, as far as one input can tell.
pub(crate) fn ticks_behind(now: u64, clock: u64) -> u32
    ensures { result ≡ due_ticks now clock }
{
    now.saturating_sub(clock).min(LONGEST_SLEEP) as u32
}
