//! What holds of every run of a mote: laws over definitions, independent of the code.
//!
//! The functions do nothing; their contracts are the laws.

ghost use Rattle.std.specs.Prelude.{List, ◌≡◌, true};
ghost use Rattle.mote_types.specs.declared.entry.Input.{Input};
ghost use Rattle.mote_types.specs.Applications.{Applications};
ghost use Rattle.kernel_core.specs.declared.config.Config.{Config};
ghost use Rattle.kernel_core.specs.Machine.{is_bootable};
ghost use Rattle.kernel_core.specs.Run.{Running, Runs, at_start};
ghost use Rattle.kernel_core.specs.Code.LawfulRuns.{LawfulRuns};
ghost use Rattle.kernel_core.specs.Laws.RunLaws.{EventsArriveInOrder};

use crate::event_laws::events_arrive;
use crate::memory_laws::memory_is_private;

/// For each configuration, any applications and any inputs there is a run: after boot and after each input the machine
/// reaches rest, or it is halted.
pub fn run_exists()
    ensures exists { (config : Config) (says : Applications) (inputs : List Input) →
        (after : Running) × Runs says (at_start config) inputs after }
{}

/// Every run of a mote that boots keeps these laws; that of events holds for any run. Two functions have them, so that they are proved
/// beside each other.
///
/// - `memory`: A process reads from its managed and heap blocks what its own calls put there, whatever the others do, also
///   where a block was moved: a read returns the block that its own turns make, a call is refused as not live exactly where
///   they leave no such block, and an allocation as in use exactly where they leave one. Each note of a frame that was sent
///   is after a turn that sends it, with no turn between them, and has all bytes of the sender's managed block, as its own
///   turns made it.
/// - `events`: As long as an application hasn't ended, it gets the events that were accepted for it in the order in which
///   they were accepted. Wherever the mote rests it has got all of them.
/// - `timers`: An application gets no TIMER event early and none twice: of each of its timers no more than it has armings
///   whose deadline came while they lasted. None is lost: wherever the mote rests and the application hasn't ended, an armed
///   timer whose deadline has come was followed by its TIMER event.
/// - `isolation`: Where processes have a quota, an application's calls on managed memory have the replies that they would
///   have if it were alone, whatever the others do: those of a memory of its own that is as large as the quota, refusals and
///   what is free included. Where that memory has no room, the refusal is that of the quota.
/// - `alike`: So an application learns nothing of the others by these calls: in two runs with one quota, of whatever
///   applications over whatever inputs, its same calls on managed memory have the same replies; where only its first calls
///   are the same, those have.
pub fn runs_keep_laws()
    ensures laws { (config : Config) → is_bootable config ≡ true → LawfulRuns config }
    ensures events { (config : Config) (says : Applications) (inputs : List Input) (after : Running)
        → Runs says (at_start config) inputs after → EventsArriveInOrder config.apps after.entries }
{
    run_exists();
    memory_is_private();
    events_arrive();
}
