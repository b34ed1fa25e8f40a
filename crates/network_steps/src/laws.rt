//! Laws of what a network's transcript says. The functions do nothing; their contracts are the laws.

ghost use Rattle.std.specs.Prelude.{◌≡◌, ◌++◌, ℕ, Bool, List};
ghost use Rattle.kernel_core.specs.declared.config.Config.{Config};
ghost use Rattle.medium_core.specs.Air.{still_air};
ghost use Rattle.medium_core.specs.declared.link.Link.{Link};
ghost use Rattle.network_session.specs.Happenings.{Happening};
ghost use Rattle.network_session.specs.Network.{NetworkView};
ghost use Rattle.network_session.specs.Promise.{IsLogOf, NetworkPromise};
ghost use Rattle.network_steps.specs.NetworkRuns.{Leads, Move, log_of};
ghost use Rattle.network_steps.specs.NetworkText.{log_text};

use network_session::laws::{logs_go_on, logs_keep_promise};

/// The log of a network goes on with its moves; it keeps the promise of a network; and its text goes on with theirs.
pub fn texts_go_on()
    ensures log { (configs : ℕ → Config) (room : ℕ) (links : List (List Link)) (log : List Happening)
        (moves : List Move) (old new : NetworkView) →
        IsLogOf configs room links log old → Leads old moves new → IsLogOf configs room links (log ++ log_of old moves) new }
    ensures promise { (configs : ℕ → Config) (room : ℕ) (links : List (List Link)) (log : List Happening)
        (moves : List Move) (old new : NetworkView) →
        IsLogOf configs room links log old → Leads old moves new → NetworkPromise configs room links (log ++ log_of old moves) new }
    ensures text { (quiet : Bool) (configs : ℕ → Config) (room : ℕ) (links : List (List Link))
        (log more : List Happening) (old : NetworkView) →
        IsLogOf configs room links log old →
        log_text quiet (still_air room links) (log ++ more) ≡ log_text quiet (still_air room links) log ++ log_text quiet old.air more }
{
    logs_go_on();
    logs_keep_promise();
}
