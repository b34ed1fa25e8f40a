//! That a script has one text, and that it has one.

ghost use Rattle.std.specs.Prelude.{◌≡◌, ℕ, Bool, List};
ghost use Rattle.mote_types.specs.Applications.{Applications};
ghost use Rattle.mote_text.specs.declared.script.End.{End as RunEnd};
ghost use Rattle.kernel_core.specs.declared.config.Config.{Config};
ghost use Rattle.mote_run.specs.RunText.{IsRunText};

use kernel_core::all_runs::run_exists;

/// For each configuration, applications and script there is one text that a run writes, and one end: *the* text of the
/// machine's run. The function does nothing; its contract is the law.
pub fn text_is_one()
    ensures text { (config : Config) (applications : Applications) (quiet : Bool) (script out also : List ℕ) (end ends : RunEnd) →
        IsRunText config applications quiet script out end → IsRunText config applications quiet script also ends → out ≡ also }
    ensures end { (config : Config) (applications : Applications) (quiet : Bool) (script out also : List ℕ) (end ends : RunEnd) →
        IsRunText config applications quiet script out end → IsRunText config applications quiet script also ends → end ≡ ends }
{}

/// For each configuration, applications and script there is a text that a run writes, and an end: with `text_is_one`,
/// exactly one of each. What `run` says of 'each text of the script' after a fault speaks of that text.
pub fn text_exists()
    ensures exists { (config : Config) (applications : Applications) (script : List ℕ) →
        (quiet : Bool) → (out : List ℕ) × (end : RunEnd) × IsRunText config applications quiet script out end }
{
    run_exists();
}
