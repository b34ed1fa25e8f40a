//! Applications by their names.

ghost use Rattle.std.specs.Prelude.{◌≡◌, ℕ, List, Option};

use crate::app::App;

/// An application that is found by its name: mostly one of several, as an enum.
///
/// The default is the content of an unused slot of a list of applications.
pub trait FromName: App + Default {
    /// The application of each name, as it is before its first turn.
    ghost by_name: { List ℕ → Option Self };

    /// The application of this name, as it is before its first turn.
    fn from_name(name: &str) -> Option<Self>
        ensures { result ≡ by_name name.now };
}
