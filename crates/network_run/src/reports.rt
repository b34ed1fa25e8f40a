//! The lines of what a network reports.

ghost use Rattle.std.specs.Prelude.{◌≡◌, ◌<◌, ◌-◌, ◌^◌, not, false, None, IfErr, IfOk, OnOk};
ghost use Rattle.mote_session.specs.Code.Shown.{is_last_shown};
ghost use Rattle.network_run.specs.Code.Reports.{rests_after};
ghost use Rattle.mote_text.specs.Code.Writing.{CountsFailure, WritesIf};
ghost use Rattle.network_steps.specs.Code.StepLines.{last_entry_line};
ghost use Rattle.network_steps.specs.Code.Turns.{is_of_mote};
ghost use Rattle.network_steps.specs.Lines.{came_line, shown_line, shown_losses};
ghost use Rattle.network_steps.specs.NetworkText.{if_shown, last_line};
ghost use Rattle.network_steps.specs.Works.{came_lines, sending_of};
ghost use Rattle.network_steps.specs.declared.came.Came.TheVariants.{Entry};
ghost use Rattle.network_steps.specs.declared.came.Phase.TheVariants.{Working as Works};

use crate::fault::NetworkRunFault;
use mote_session::session::Session;
use mote_text::output_buffer::OutputBuffer;
use mote_text::script::End;
use mote_types::device::ByteSink;
use network_session::network::Network;
use network_steps::came::Came;
use network_steps::came_lines::push_came;
use network_steps::lines::{MOTE_LINE, push_last_entry, push_last_line};
use network_steps::steps::NetworkSteps;

/// Puts a line of the network's own, unless the transcript is quiet.
fn put_own<K: ByteSink>(
    sink: &mut K,
    text: &mut OutputBuffer,
    network: &Network,
    came: Came,
    quiet: bool,
) -> Result<(), NetworkRunFault>
    requires countable { K.failure_count sink.old < 2 ^ 64 - 1 }
    ensures puts { K.is_named → WritesIf result (K.given sink.old) text.old.items (K.given sink.new) text.new.items
        (if_shown (not quiet) (came_line came network.now)) }
    ensures fault { IfErr result (λ fault. fault ≡ NetworkRunFault.Write) }
    ensures failures { CountsFailure result (K.failure_count sink.old) (K.failure_count sink.new) }
{
    if quiet {
        return Ok(());
    }
    text.make_room(sink, MOTE_LINE)?;
    push_came(came, network, text);
    Ok(())
}

/// Puts the line of a mote's last entry, if there is one, and it is shown.
#[inline(always)]
fn put_line<K: ByteSink>(
    sink: &mut K,
    text: &mut OutputBuffer,
    mote: usize,
    session: &Session,
    quiet: bool,
) -> Result<(), NetworkRunFault>
    requires countable { K.failure_count sink.old < 2 ^ 64 - 1 }
    ensures puts { K.is_named → WritesIf result (K.given sink.old) text.old.items (K.given sink.new) text.new.items
        (if_shown (is_last_shown quiet session.now.last) (last_entry_line mote session.now.last)) }
    ensures fault { IfErr result (λ fault. fault ≡ NetworkRunFault.Write) }
    ensures failures { CountsFailure result (K.failure_count sink.old) (K.failure_count sink.new) }
{
    if !session.shows_last(quiet) {
        return Ok(());
    }
    text.make_room(sink, MOTE_LINE)?;
    push_last_entry(mote, session, text);
    Ok(())
}

/// Puts the line of a mote's last entry, if there is this mote.
#[inline(always)]
fn put_last<K: ByteSink>(
    sink: &mut K,
    text: &mut OutputBuffer,
    network: &Network,
    mote: usize,
    quiet: bool,
) -> Result<(), NetworkRunFault>
    requires countable { K.failure_count sink.old < 2 ^ 64 - 1 }
    ensures puts { K.is_named → WritesIf result (K.given sink.old) text.old.items (K.given sink.new) text.new.items
        (shown_line quiet (Entry mote) network.now) }
    ensures fault { IfErr result (λ fault. fault ≡ NetworkRunFault.Write) }
    ensures failures { CountsFailure result (K.failure_count sink.old) (K.failure_count sink.new) }
{
    match network.mote(mote) {
        Some(session) => put_line(sink, text, mote, session, quiet),
        None => Ok(()),
    }
}

/// Puts the last line of a run that ends so, if there is one.
pub(crate) fn put_end<K: ByteSink>(
    sink: &mut K,
    text: &mut OutputBuffer,
    end: End,
) -> Result<(), NetworkRunFault>
    requires countable { K.failure_count sink.old < 2 ^ 64 - 1 }
    ensures puts { K.is_named → WritesIf result (K.given sink.old) text.old.items (K.given sink.new) text.new.items (last_line end) }
    ensures fault { IfErr result (λ fault. fault ≡ NetworkRunFault.Write) }
    ensures failures { CountsFailure result (K.failure_count sink.old) (K.failure_count sink.new) }
{
    text.make_room(sink, MOTE_LINE)?;
    push_last_line(end, text);
    Ok(())
}

/// Puts a line for each link that didn't carry the frame which was just sent.
// Few entries send a frame.
#[inline(never)]
fn put_losses<K: ByteSink>(
    sink: &mut K,
    text: &mut OutputBuffer,
    steps: &mut NetworkSteps,
    quiet: bool,
) -> Result<(), NetworkRunFault>
    requires countable { K.failure_count sink.old < 2 ^ 64 - 1 }
    ensures puts { K.is_named → WritesIf result (K.given sink.old) text.old.items (K.given sink.new) text.new.items
        (shown_losses quiet steps.old.sending steps.old.net) }
    ensures net { steps.new.net ≡ steps.old.net }
    ensures waiting { steps.new.waiting ≡ steps.old.waiting }
    ensures works { steps.old.phase ≡ Works → steps.new.phase ≡ Works }
    ensures reported { OnOk result (steps.new.sending ≡ None) }
    ensures fault { IfErr result (λ fault. fault ≡ NetworkRunFault.Write) }
    ensures failures { CountsFailure result (K.failure_count sink.old) (K.failure_count sink.new) }
{
    if quiet {
        steps.skip_losses();
        return Ok(());
    }
    while let Some(came) = steps.next_loss() {
        put_own(sink, text, steps.network(), came, false)?;
    }
    Ok(())
}

/// Puts the line of the entry that a mote just made, if it is shown, and what became of a frame that it sent.
// Each entry asks for it.
#[inline(always)]
pub(crate) fn put_entry<K: ByteSink>(
    sink: &mut K,
    text: &mut OutputBuffer,
    steps: &mut NetworkSteps,
    mote: usize,
    quiet: bool,
) -> Result<(), NetworkRunFault>
    requires noted { steps.old.sending ≡ sending_of (Entry mote) steps.old.net }
    requires countable { K.failure_count sink.old < 2 ^ 64 - 1 }
    ensures puts { K.is_named → WritesIf result (K.given sink.old) text.old.items (K.given sink.new) text.new.items
        (came_lines quiet (Entry mote) steps.old.net) }
    ensures net { steps.new.net ≡ steps.old.net }
    ensures waiting { steps.new.waiting ≡ steps.old.waiting }
    ensures works { steps.old.phase ≡ Works → steps.new.phase ≡ Works }
    ensures reported { OnOk result (steps.new.sending ≡ None) }
    ensures fault { IfErr result (λ fault. fault ≡ NetworkRunFault.Write) }
    ensures failures { CountsFailure result (K.failure_count sink.old) (K.failure_count sink.new) }
{
    put_last(sink, text, steps.network(), mote, quiet)?;
    if steps.has_sent() {
        put_losses(sink, text, steps, quiet)
    } else {
        Ok(())
    }
}

/// Whether the network rests after what was reported, or has used up its rounds. None, where it goes on.
// Out of line: its tests would be made at each entry, too.
#[inline(never)]
fn rests_after(came: Came) -> Option<bool>
    ensures { result ≡ rests_after came }
{
    match came {
        Came::Rest => Some(true),
        Came::Exhausted => Some(false),
        _ => None,
    }
}

/// Puts the line of what was reported that is no entry, if it has one. Returns whether the network rests after it, if nothing follows.
#[tactic(auto, using(crate::proofs::OwnLines::other_unsent))]
pub(crate) fn put_other<K: ByteSink>(
    sink: &mut K,
    text: &mut OutputBuffer,
    network: &Network,
    came: Came,
    quiet: bool,
) -> Result<Option<bool>, NetworkRunFault>
    requires other { is_of_mote came ≡ false }
    requires countable { K.failure_count sink.old < 2 ^ 64 - 1 }
    ensures puts { K.is_named → WritesIf result (K.given sink.old) text.old.items (K.given sink.new) text.new.items
        (came_lines quiet came network.now) }
    ensures rests { IfOk result (λ rests. rests ≡ rests_after came) }
    ensures unsent { sending_of came network.now ≡ None }
    ensures fault { IfErr result (λ fault. fault ≡ NetworkRunFault.Write) }
    ensures failures { CountsFailure result (K.failure_count sink.old) (K.failure_count sink.new) }
{
    let rests = rests_after(came);
    if rests.is_none() {
        put_own(sink, text, network, came, quiet)?;
    }
    Ok(rests)
}
