//! Why a line isn't executed, and why a run failed.

/// Why a line isn't executed.
#[derive(Clone, Copy, Drop)]
pub enum LineFault {
    Malformed,
    /// Memory was refused.
    Memory,
}

/// Why the run of a network that was set up failed.
#[derive(Clone, Copy, Drop)]
pub enum SetUpRunFault {
    /// Memory was refused: nothing was written.
    Memory,
    /// The mote that is asked for doesn't exist: nothing was written.
    NoMote,
    /// A rule of this crate is broken: a link that passed its checks isn't sound.
    BadLink,
    /// The run of the network failed.
    Run(network_run::fault::NetworkRunFault),
}
