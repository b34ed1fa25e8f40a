//! How an input from outside comes to a mote.

ghost use Rattle.std.specs.Prelude.{◌≡◌, not, true, false, slice_get, None, Some, IfErr, IfOk};
ghost use Rattle.mote_session.specs.SessionView.{SessionView};
ghost use Rattle.network_session.specs.Refusals.{feed_refusal};
ghost use Rattle.network_session.specs.Steps.{IsNetworkFed, IsToldTime};
ghost use Rattle.network_steps.specs.Works.{given_refusal, is_behind};
ghost use Rattle.network_steps.specs.NetworkRuns.{is_halted_in};

use mote_types::entry::Input;
use network_session::fault::NetworkFault;
use network_session::network::Network;

/// Whether there is this mote, and it was halted.
pub(crate) fn is_halted(network: &Network, mote: usize) -> bool
    ensures { result ≡ is_halted_in (slice_get network.now.motes mote) }
{
    match network.mote(mote) {
        Some(session) => session.halted(),
        None => false,
    }
}

/// Gives a mote the time before an input from outside, if it is behind and wasn't halted. Returns whether it got the time.
///
/// # Errors
///
/// As `Network::catch_up`.
pub(crate) fn give_time(network: &mut Network, mote: usize) -> Result<bool, NetworkFault>
    ensures given { IfOk result (λ given. given ≡ true → IsToldTime mote network.old network.new) }
    ensures kept { IfOk result (λ given. given ≡ false → network.new ≡ network.old) }
    ensures behind { IfOk result (λ given. (one : SessionView) → slice_get network.old.motes mote ≡ Some one → given ≡ is_behind network.old one) }
    ensures accepted { IfOk result (λ _. given_refusal mote network.old ≡ None) }
    ensures refused { IfErr result (λ fault. (given_refusal mote network.old ≡ Some fault) × (network.new ≡ network.old)) }
{
    if is_halted(network, mote) {
        return Ok(false);
    }
    network.catch_up(mote)
}

/// Hands an input from outside to a mote that has got the time. Returns whether it did: a mote that was halted misses the input.
///
/// # Errors
///
/// As `Network::feed`.
pub(crate) fn give_input(
    network: &mut Network,
    mote: usize,
    input: Input,
) -> Result<bool, NetworkFault>
    ensures given { IfOk result (λ given. given ≡ true → IsNetworkFed mote input network.old network.new) }
    ensures missed { IfOk result (λ given. given ≡ false → network.new ≡ network.old) }
    ensures halted { IfOk result (λ given. given ≡ not (is_halted_in (slice_get network.old.motes mote))) }
    ensures works { IfErr result (λ _. is_halted_in (slice_get network.old.motes mote) ≡ false) }
    ensures refused { IfErr result (λ fault. (feed_refusal mote input network.old ≡ Some fault) × (network.new ≡ network.old)) }
{
    if is_halted(network, mote) {
        return Ok(false);
    }
    network.feed(mote, input)?;
    Ok(true)
}
