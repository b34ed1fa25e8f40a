//! The applications of all motes, and their calls.

ghost use Rattle.std.specs.Prelude.{◌≡◌, ◌≢◌, ◌<◌, ◌≤◌, ◌+◌, ◌⊎◌, ℕ, false, true, List, [], ◌∷◌, length};
ghost use Rattle.mote_types.specs.Applications.{says_of};
ghost use Rattle.mote_types.specs.declared.event.Stimulus.{Stimulus};
ghost use Rattle.network_setup.specs.MoteApps.{mote_app_says, voices_of};

use crate::mote_app::MoteApp;
use mote_session::session::OpenTurn;
use mote_types::app::App;
use mote_types::call::Call;
use mote_types::event::{FIRST_APPLICATION, Pid, Stimulus};
use network_run::run::Caller;

/// A turn of one of a mote's applications.
fn take_turn(applications: &mut Vec<MoteApp>, pid: Pid, stimulus: &Stimulus, call: &mut Call)
    requires application { 4 ≤ pid.0 }
    requires present { pid.0 < 4 + length applications.old.items }
    ensures made { call.new ≡ says_of mote_app_says applications.old.items pid.0 (stimulus.now ∷ []) }
    ensures law { (next : Stimulus) (later : List Stimulus) → says_of mote_app_says applications.new.items pid.0 (next ∷ later) ≡
        says_of mote_app_says applications.old.items pid.0 (stimulus.now ∷ next ∷ later) }
    ensures others { (p : ℕ) (stimuli : List Stimulus) → p ≢ pid.0 →
        says_of mote_app_says applications.new.items p stimuli ≡ says_of mote_app_says applications.old.items p stimuli }
{
    applications[(pid.0 - FIRST_APPLICATION) as usize].turn_into(stimulus, call);
}

/// Whether a mote with this number of applications has this one.
fn has_application(applications: usize, pid: Pid) -> bool
    ensures has { result ≡ true → (4 ≤ pid.0) × (pid.0 < 4 + applications) }
    ensures lacks { result ≡ false → (pid.0 < 4) ⊎ (4 + applications ≤ pid.0) }
{
    pid.0 >= FIRST_APPLICATION && ((pid.0 - FIRST_APPLICATION) as usize) < applications
}

/// The applications of mote 1, of mote 2, and so on.
#[derive(Drop)]
pub struct Applications {
    pub motes: Vec<Vec<MoteApp>>,
}

impl Caller for Applications {
    ghost voices = { λ applications. voices_of applications.motes.items };

    fn call_into(&mut self, mote: usize, turn: OpenTurn<'_>, call: &mut Call) {
        if mote >= self.motes.len() {
            *call = Call::Wait;
        } else if has_application(self.motes[mote].len(), turn.process) {
            take_turn(&mut self.motes[mote], turn.process, turn.stimulus, call);
        } else {
            *call = Call::Wait;
        }
    }
}
