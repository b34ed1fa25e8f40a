//! What can go wrong around a mote: from a device's fault to what ends a mote's run.

ghost use Rattle.std.specs.Prelude.{◌≡◌};

use thiserror::Error;

/// Why a mote does not boot.
#[derive(Clone, Copy, Debug, PartialEq, Eq, Drop, Error)]
pub enum BootFault {
    /// A size is out of its range or no multiple of 4, or there are too many applications.
    #[error("bad sizes")]
    BadSizes,
    /// Memory was refused.
    #[error("out of memory")]
    Memory,
}

/// An I/O error: a read or a write failed.
#[derive(Clone, Copy, Debug, Drop, Error)]
#[error("the device failed")]
pub struct DeviceFault;

/// A device that failed during a run.
#[derive(Clone, Copy, Debug, PartialEq, Eq, Drop, Error)]
pub enum RunFault {
    /// The source failed.
    #[error("read failed")]
    Read,
    /// The sink failed.
    #[error("write failed")]
    Write,
}

/// What `?` makes of a failed write. A failed read is named where the piece is read.
impl From<DeviceFault> for RunFault {
    ghost use Rattle.mote_types.specs.declared.fault.RunFault.TheVariants.{Write};

    ghost from_gives = { λ _ fault. fault ≡ Write };

    fn from(_fault: DeviceFault) -> Self {
        RunFault::Write
    }
}

/// Why the run of a mote failed.
#[derive(Clone, Copy, Debug, PartialEq, Eq, Drop, Error)]
pub enum MoteFault {
    /// The mote did not boot.
    #[error("{0}")]
    Boot(#[from] BootFault),
    /// A device failed.
    #[error("{0}")]
    Run(#[from] RunFault),
}
