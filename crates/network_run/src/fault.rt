//! Why a network's run failed.

use mote_types::fault::DeviceFault;
use network_session::fault::NetworkFault;

/// Why a network's run failed.
#[derive(Clone, Copy, Drop)]
pub enum NetworkRunFault {
    /// The sink failed.
    Write,
    /// The network refused a step or an input: a mote was handed 2^40 inputs, or the clock would exceed 2^62.
    Refused(NetworkFault),
}

impl From<NetworkFault> for NetworkRunFault {
    ghost use Rattle.std.specs.Prelude.{◌≡◌};
    ghost use Rattle.network_run.specs.declared.fault.NetworkRunFault.TheVariants.{Refused};

    ghost from_gives = { λ cause fault. fault ≡ Refused cause };

    fn from(cause: NetworkFault) -> Self {
        NetworkRunFault::Refused(cause)
    }
}

impl From<DeviceFault> for NetworkRunFault {
    ghost use Rattle.std.specs.Prelude.{◌≡◌};
    ghost use Rattle.network_run.specs.declared.fault.NetworkRunFault.TheVariants.{Write};

    ghost from_gives = { λ _ fault. fault ≡ Write };

    fn from(_fault: DeviceFault) -> Self {
        NetworkRunFault::Write
    }
}
