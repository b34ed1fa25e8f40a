//! A turn in parts.

ghost use Rattle.std.specs.Prelude.{◌≡◌};
ghost use Rattle.mote_types.specs.declared.entry.Entry.{Entry};
ghost use Rattle.kernel_core.specs.Code.Steps.{entry_of};

use mote_types::call::Call;
use mote_types::event::{Origin, Pid, Stimulus};

/// A turn of an application. Each part is a field of its own, so that a stimulus and a call, which are large, are
/// written in place.
#[derive(Drop)]
pub struct Turn {
    pub pid: Pid,
    pub origin: Origin,
    pub stimulus: Stimulus,
    pub call: Call,
}

impl Turn {
    /// A buffer for turns, in which none was taken.
    pub fn none_yet() -> Turn
        ensures { entry_of result ≡ Entry.Turn (record { 0 = 0 }) Origin.Event (Stimulus.Callback 0) Call.Wait }
    {
        Turn {
            pid: Pid(0),
            origin: Origin::Event,
            stimulus: Stimulus::Callback(0),
            call: Call::Wait,
        }
    }
}
