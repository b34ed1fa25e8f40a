//! What a program says of itself.

/// What a program says of itself in its help and its version.
#[derive(Clone, Copy, Drop)]
pub struct Program {
    /// Its name, which also begins its messages on standard error.
    pub name: &'static str,
    pub version: &'static str,
    /// The text after the options of the help.
    pub after_help: &'static str,
}
