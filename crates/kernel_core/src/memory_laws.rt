//! What a process reads of its blocks, and what it learns of the others: laws over definitions, independent of the code.

ghost use Rattle.std.specs.Prelude.{List, ◌≡◌, true};
ghost use Rattle.mote_types.specs.declared.entry.Input.{Input};
ghost use Rattle.mote_types.specs.Applications.{Applications};
ghost use Rattle.kernel_core.specs.declared.config.Config.{Config};
ghost use Rattle.kernel_core.specs.Machine.{is_bootable};
ghost use Rattle.kernel_core.specs.Run.{Running, Runs, at_start};
ghost use Rattle.kernel_core.specs.Laws.RunLaws.{BlocksAreOwn, IsAnsweredAlike, ProcessesAreIsolated};

/// The laws `memory`, `isolation` and `alike` of `runs_keep_laws`.
pub(crate) fn memory_is_private()
    ensures own { (config : Config) (says : Applications) (inputs : List Input) (after : Running)
        → Runs says (at_start config) inputs after → BlocksAreOwn after.entries }
    ensures isolated { (config : Config) (says : Applications) (inputs : List Input) (after : Running)
        → is_bootable config ≡ true → Runs says (at_start config) inputs after
        → ProcessesAreIsolated config.quota config.apps after.entries }
    ensures alike { (config : Config) (says : Applications) (inputs : List Input) (after : Running)
        → is_bootable config ≡ true → Runs says (at_start config) inputs after
        → IsAnsweredAlike config.quota config.apps after.entries }
{}
