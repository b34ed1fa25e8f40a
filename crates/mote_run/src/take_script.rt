//! A script is read and executed.

ghost use Rattle.std.specs.Prelude.{◌≡◌, ◌<◌, ◌≤◌, ◌+◌, ◌-◌, ◌*◌, ◌^◌, ◌++◌, ◌==◌, ◌↔◌, ℕ, List, true, false, None, length, IfErr, OnOk, IsErrOf};
ghost use Rattle.mote_types.specs.Applications.{says_of};
ghost use Rattle.mote_types.specs.declared.entry.Input.{Input as Handed};
ghost use Rattle.mote_text.specs.Code.Writing.{CountsFailure};
ghost use Rattle.mote_text.specs.Transcript.{final_line};
ghost use Rattle.mote_text.specs.declared.script.End.{End as RunEnd};
ghost use Rattle.kernel_core.specs.Code.OpenTurns.{mote_in};
ghost use Rattle.kernel_core.specs.Run.{is_still};
ghost use Rattle.mote_run.specs.RunText.{HasRead, WasBooted};
ghost use Rattle.mote_run.specs.Code.LoopInvariant.{Ran, ReadWhileRunning};
ghost use Rattle.mote_run.specs.Code.Reading.{IsReady, ReadSoFar};
ghost use Rattle.mote_run.specs.Code.Way.{Moment, Went, end_at, moment};

use crate::refill::refill;
use crate::running_mote::RunningMote;
use crate::script::{LIMIT, Script};
use kernel_core::running_kernel::RunningKernel;
use mote_text::script::{BadLine, End};
use mote_types::app::App;
use mote_types::device::{ByteSink, ByteSource};
use mote_types::fault::RunFault;

/// The end of a run whose script has ended.
fn end_of(kernel: &RunningKernel) -> End
    ensures { result ≡ end_at kernel.now.machine RunEnd.Finished }
{
    if kernel.halted() {
        End::Halted
    } else {
        End::Finished
    }
}

/// Executes the last line, where the script has ended. Returns how the run ends.
fn take_end<K: ByteSink>(
    sink: &mut K,
    mote: &mut RunningMote,
    apps: &mut [Box<dyn App>],
    script: &mut Script,
    quiet: bool,
) -> Result<End, RunFault>
    requires boxes { length apps.old ≡ mote.old.kernel.machine.scheduler.applications }
    requires closed { mote.old.kernel.turn ≡ None }
    requires still { is_still mote.old.kernel.machine ≡ true }
    requires running { mote.old.kernel.machine.is_halted ≡ false }
    requires clock { mote.old.kernel.machine.clock ≤ script.old.taken * 2 ^ 32 }
    requires inputs { mote.old.kernel.inputs ≤ script.old.taken }
    requires ready { IsReady script.old }
    requires used_up { (length script.old.piece == 0) ≡ true }
    requires countable { K.failure_count sink.old < 2 ^ 64 - 1 }
    ensures ran { K.is_named → (read : List ℕ) (earlier : List Handed) (start : Moment) → ReadSoFar read earlier script.old →
        Went quiet earlier start (moment (K.given sink.old) mote.old (says_of says apps.old)) →
        Ran quiet read true start (K.given sink.new) (λ end. mote.new.text.items ++ final_line end) result }
    ensures fault { IfErr result (λ fault. fault ≡ RunFault.Write) }
    ensures failures { CountsFailure result (K.failure_count sink.old) (K.failure_count sink.new) }
{
    match script.reader.end() {
        Ok(false) => Ok(End::Finished),
        Ok(true) => {
            mote.feed(sink, apps, &script.reader.input, quiet)?;
            Ok(end_of(&mote.kernel))
        }
        Err(BadLine) => Ok(End::BadLine(script.reader.number)),
    }
}

/// Reads the script in pieces, and feeds each line's input to the mote. Then all text of the run but its last line is
/// written or pending. Returns how the run ends.
pub fn take_script<S: ByteSource, K: ByteSink>(
    source: &mut S,
    sink: &mut K,
    mote: &mut RunningMote,
    apps: &mut [Box<dyn App>],
    quiet: bool,
) -> Result<End, RunFault>
    requires booted { WasBooted (mote_in mote.old.kernel) (length apps.old) }
    requires closed { mote.old.kernel.turn ≡ None }
    requires unended { S.is_ended source.old ≡ false }
    requires countable_reads { S.failure_count source.old < 2 ^ 64 - 1 }
    requires countable_writes { K.failure_count sink.old < 2 ^ 64 - 1 }
    ensures ran { S.is_named → K.is_named → (read : List ℕ) × (S.taken source.new ≡ S.taken source.old ++ read) ×
        Ran quiet read (S.is_ended source.new) (moment (K.given sink.old) mote.old (says_of says apps.old)) (K.given sink.new)
        (λ end. mote.new.text.items ++ final_line end) result }
    ensures no_further { S.is_named → K.is_named
        → ReadWhileRunning quiet (moment (K.given sink.old) mote.old (says_of says apps.old)) (S.taken source.old) (S.taken source.new) }
    ensures few { S.is_named → (count : ℕ) × (count ≤ 16_777_216 + 1) × HasRead count (S.taken source.old) (S.taken source.new) }
    ensures read_succeeded { OnOk result (S.failure_count source.new ≡ S.failure_count source.old) }
    ensures write_succeeded { OnOk result (K.failure_count sink.new ≡ K.failure_count sink.old) }
    ensures read_fault { IsErrOf result RunFault.Read ↔ (S.failure_count source.old < S.failure_count source.new) }
    ensures write_fault { IsErrOf result RunFault.Write ↔ (K.failure_count sink.old < K.failure_count sink.new) }
{
    mote.settle(sink, apps, quiet)?;
    let mut script = Script::new();
    'part: loop {
        if mote.kernel.halted() {
            return Ok(End::Halted);
        }
        let most = LIMIT + 1 - script.taken;
        refill(source, sink, &mut mote.text, &mut script.piece, most)?;
        if script.piece.is_empty() {
            return take_end(sink, mote, apps, &mut script, quiet);
        }
        if script.taken == LIMIT {
            return Ok(End::TooLong);
        }
        match script.take() {
            Ok(false) => {}
            Ok(true) => mote.feed(sink, apps, &script.reader.input, quiet)?,
            Err(BadLine) => return Ok(End::BadLine(script.reader.number)),
        }
    }
}
