//! Which events a process receives, and when those of its timers: laws over definitions, independent of the code.

ghost use Rattle.std.specs.Prelude.{List, ◌≡◌, true};
ghost use Rattle.mote_types.specs.declared.entry.Input.{Input};
ghost use Rattle.mote_types.specs.Applications.{Applications};
ghost use Rattle.kernel_core.specs.declared.config.Config.{Config};
ghost use Rattle.kernel_core.specs.Machine.{is_bootable};
ghost use Rattle.kernel_core.specs.Run.{Running, Runs, at_start};
ghost use Rattle.kernel_core.specs.Laws.RunLaws.{EventsArriveInOrder, TimersAreKept};

/// The laws `events` and `timers` of `runs_keep_laws`.
pub(crate) fn events_arrive()
    ensures events { (config : Config) (says : Applications) (inputs : List Input) (after : Running)
        → Runs says (at_start config) inputs after → EventsArriveInOrder config.apps after.entries }
    ensures timers { (config : Config) (says : Applications) (inputs : List Input) (after : Running)
        → is_bootable config ≡ true → Runs says (at_start config) inputs after
        → TimersAreKept config.apps after.entries }
{}
