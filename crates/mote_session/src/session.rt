//! A mote asked step by step.

ghost use Rattle.std.specs.Prelude.{◌≡◌, ◌≢◌, ◌≤◌, ◌+◌, ◌^◌, ◌++◌, ◌↔◌, ◌||◌, None, Some, nat_le, nat_lt, not, false, true, is_some, IfErr, IfOk, IfSome, IfNone, IsErrOf, IsSomeAnd};
ghost use Rattle.mote_text.specs.EntryText.{entry_line};
ghost use Rattle.mote_text.specs.Code.Appending.{HasRoomOf};
ghost use Rattle.mote_text.specs.Code.EntryLines.{entry_line_limit};
ghost use Rattle.mote_text.specs.Script.{read_line};
ghost use Rattle.mote_types.specs.declared.call.Call.{Call as Spoken};
ghost use Rattle.mote_types.specs.declared.entry.Entry.{Entry as Made};
ghost use Rattle.mote_types.specs.declared.entry.Input.{Input as Handed};
ghost use Rattle.kernel_core.specs.Calls.{after_call};
ghost use Rattle.kernel_core.specs.Code.Conditions.{most_entries_left, ticks_of};
ghost use Rattle.kernel_core.specs.Machine.{booted, is_bootable};
ghost use Rattle.kernel_core.specs.declared.turn.Turn.{Turn as Taken};
ghost use Rattle.timer_core.specs.Deadlines.{next_deadline};
ghost use Rattle.std.specs.Option.{option_copied};
ghost use Rattle.mote_session.specs.Code.Shown.{is_last_shown};
ghost use Rattle.mote_session.specs.Sent.{sent_in};
ghost use Rattle.mote_session.specs.Code.Places.{AreInPlace, session_view, turn_in};
ghost use Rattle.mote_session.specs.Code.Speaking.{SpeaksBy};
ghost use Rattle.mote_session.specs.Voices.{IsCall, SpokeLast};
ghost use Rattle.mote_session.specs.Code.Working.{MakesCall, WorksBy};
ghost use Rattle.mote_session.specs.History.{History, at_boot, with_call, with_input, with_said};
ghost use Rattle.mote_session.specs.Refusals.{clock_limit, input_limit, input_refusal, is_input, line_refusal, unfit, unrest};
ghost use Rattle.mote_session.specs.SessionRuns.{IsHistoryOf, KeepsPromise};
ghost use Rattle.mote_session.specs.SessionView.{rests};
ghost use Rattle.mote_session.specs.Steps.{Advances, HasSameInputs, IsSubmitted, IsSubmittedIfSaid, IsFed, TakesLine, with_made};

use crate::call_source::CallSource;
use crate::caller::Caller;
use crate::last_entry::LastEntry;
use crate::laws::{histories_go_on, histories_keep_promise};
use crate::refusal::SessionRefusal;
use arrayvec::ArrayVec;
use kernel_core::awaiting_kernel::AwaitingKernel;
use kernel_core::config::Config;
use kernel_core::step::StepOutcome;
use kernel_core::turn::Turn;
use mote_text::hex_digits::DigitValues;
use mote_text::output_buffer::TextBuffer;
use mote_text::script::{BadLine, read_input_by};
use mote_text::transcript::{is_shown, is_turn_shown, push_entry, push_turn_line};
use mote_types::call::Call;
use mote_types::entry::{Entry, Input, Note};
use mote_types::event::{Origin, Pid, Stimulus};
use mote_types::fault::BootFault;
use std::alloc::Global;
use std::marker::Model;

/// The largest number of inputs.
const MOST_INPUTS: u64 = 1 << 40;

/// How far the clock can go, in ticks.
const MOST_TICKS: u64 = 1 << 62;

/// The result of `next` and `next_by`.
#[derive(Clone, Copy, Debug, PartialEq, Eq, Drop)]
pub enum Next {
    /// An application takes a turn. After `next` its call is awaited, and `Session::turn` returns the turn; `next_by` has submitted the
    /// call.
    Turn,
    /// Another entry was made: of an input, a note, or that the mote was halted.
    Entry,
    /// Nothing is left to be done without an input.
    Rest,
    /// The mote was halted before: nothing follows.
    Halted,
}

/// A turn that awaits its call.
#[derive(Clone, Copy, Drop)]
pub struct OpenTurn<'a> {
    /// The application: 4 to 19.
    pub process: Pid,
    /// The origin of the stimulus.
    pub origin: Origin,
    /// What the application receives.
    pub stimulus: &'a Stimulus,
}

/// Whether it is a tick, or has bytes.
fn has_bytes(input: &Input) -> bool
    ensures { result ≡ is_input input.now }
{
    match input {
        Input::Tick(_) => true,
        Input::Serial(bytes) => !bytes.as_slice().is_empty(),
        Input::Frame(bytes) => !bytes.as_slice().is_empty(),
    }
}

/// The number of ticks by which an input advances the clock.
fn ticks(input: &Input) -> u64
    ensures value { result ≡ ticks_of input.now }
{
    match input {
        Input::Tick(ticks) => *ticks as u64,
        _ => 0,
    }
}

/// Works until there is something to report, where no turn awaits its call. Writes a turn into one buffer, and another entry
/// into the other.
#[inline(always)]
fn work_in(
    kernel: &mut AwaitingKernel,
    turn: &mut Turn,
    other: &mut Entry,
    last: &mut LastEntry,
) -> Next
    requires { kernel.old.turn ≡ None }
    ensures advances { (taken : Taken) →
        Advances result (session_view kernel.old turn.old taken other.old last.old)
        (session_view kernel.new turn.new taken other.new last.new) }
    ensures clock { kernel.new.mote.machine.clock ≡ kernel.old.mote.machine.clock }
    ensures inputs { kernel.new.mote.inputs ≡ kernel.old.mote.inputs }
    ensures places { AreInPlace kernel.new.turn turn.new last.new }
{
    match kernel.next(turn, other) {
        StepOutcome::Turn => {
            *last = LastEntry::Missing;
            Next::Turn
        }
        StepOutcome::Other => {
            *last = LastEntry::Other;
            Next::Entry
        }
        StepOutcome::Rest => Next::Rest,
        StepOutcome::Halted => Next::Halted,
    }
}

/// Puts the call into the turn that awaits it, and executes it.
fn submit_in(kernel: &mut AwaitingKernel, turn: &mut Turn, pid: Pid, call: Call)
    requires { kernel.old.turn ≡ Some pid }
    ensures turn { turn.new ≡ record turn.old { call = call } }
    ensures machine { kernel.new.mote.machine ≡ after_call call pid.0 kernel.old.mote.machine }
    ensures closed { kernel.new.turn ≡ None }
    ensures clock { kernel.new.mote.machine.clock ≡ kernel.old.mote.machine.clock }
    ensures inputs { kernel.new.mote.inputs ≡ kernel.old.mote.inputs }
    ensures left { kernel.new.mote.entries_left ≤ kernel.old.mote.entries_left + 1 }
{
    turn.call = call;
    kernel.submit(pid, &turn.call);
}

/// Has the source put its call into the turn that awaits it, and executes it. Returns whether it says one: if not, the call still
/// waits to be put there.
#[inline(always)]
fn submit_from_in<S: CallSource>(
    kernel: &mut AwaitingKernel,
    turn: &mut Turn,
    last: &mut LastEntry,
    pid: Pid,
    source: &S,
) -> bool
    requires open { kernel.old.turn ≡ Some pid }
    requires process { turn.old.pid ≡ pid }
    ensures is_said { result ≡ is_some (S.said source.now) }
    ensures submitted { result ≡ true → (taken working : Taken) (other : Made) → IsSubmittedIfSaid (S.said source.now)
        (session_view kernel.old turn.old taken other last.old) (session_view kernel.new working turn.new other last.new) }
    ensures unsaid { result ≡ false → (kernel.new ≡ kernel.old) × (last.new ≡ last.old) }
    ensures turn { turn.new ≡ record turn.old { call = turn.new.call } }
    ensures closed { result ≡ true → kernel.new.turn ≡ None }
{
    let call = &mut turn.call;
    if !source.put_call(call) {
        return false;
    }
    kernel.submit(pid, call);
    *last = LastEntry::Turn;
    true
}

/// Has the caller put a call into the turn that awaits it, and executes it.
#[inline(always)]
fn call_in<H: Caller>(
    kernel: &mut AwaitingKernel,
    turn: &mut Turn,
    pid: Pid,
    mote: usize,
    caller: &mut H,
)
    requires { kernel.old.turn ≡ Some pid }
    ensures turn { turn.new ≡ record turn.old { call = turn.new.call } }
    ensures machine { kernel.new.mote.machine ≡ after_call turn.new.call pid.0 kernel.old.mote.machine }
    ensures call { IsCall mote pid.0 turn.old.stimulus turn.new.call (H.voices caller.old) (H.voices caller.new) }
    ensures closed { kernel.new.turn ≡ None }
    ensures clock { kernel.new.mote.machine.clock ≡ kernel.old.mote.machine.clock }
    ensures inputs { kernel.new.mote.inputs ≡ kernel.old.mote.inputs }
    ensures left { kernel.new.mote.entries_left ≤ kernel.old.mote.entries_left + 1 }
{
    let Turn {
        pid: _,
        origin,
        stimulus,
        call,
    } = turn;
    let open = OpenTurn {
        process: pid,
        origin: *origin,
        stimulus,
    };
    caller.call_into(mote, open, call);
    kernel.submit(pid, call);
}

/// The same, and notes that the turn was the last entry.
#[inline(always)]
fn end_turn_in<H: Caller>(
    kernel: &mut AwaitingKernel,
    turn: &mut Turn,
    last: &mut LastEntry,
    pid: Pid,
    mote: usize,
    caller: &mut H,
)
    requires open { kernel.old.turn ≡ Some pid }
    requires process { turn.old.pid ≡ pid }
    ensures submitted { (taken working : Taken) (other : Made) →
        MakesCall (session_view kernel.old turn.old taken other last.old) (session_view kernel.new working turn.new other last.new) }
    ensures speaks { (working : Taken) (other : Made) → SpokeLast mote
        ((session_view kernel.new working turn.new other last.new).last) (H.voices caller.old) (H.voices caller.new) }
    ensures closed { kernel.new.turn ≡ None }
    ensures turn { turn.new ≡ record turn.old { call = turn.new.call } }
{
    call_in(kernel, turn, pid, mote, caller);
    *last = LastEntry::Turn;
}

/// The one buffer or the other.
fn turn_in<'a>(takes_odd: bool, odd: &'a Turn, even: &'a Turn) -> &'a Turn
    ensures { result.now ≡ turn_in takes_odd odd.now even.now }
{
    if takes_odd { odd } else { even }
}

/// A mote whose caller makes the calls of its applications.
#[derive(Drop)]
pub struct Session {
    kernel: AwaitingKernel,
    /// Turns are written into these two buffers alternately: while the kernel works in one, the last turn stays in the other.
    even: Turn,
    odd: Turn,
    works_in_odd: bool,
    other: Entry,
    last: LastEntry,
    /// Filled once, since a caller may feed many lines.
    values: DigitValues,
}

impl Model for Session {
    ghost use Rattle.mote_session.specs.SessionView.{SessionView};
    ghost use Rattle.std.specs.Prelude.{not};
    ghost use Rattle.mote_session.specs.Code.Places.{AreInPlace, session_view, turn_in};

    ghost Value = { SessionView };

    ghost view = { λ s. session_view s.kernel (turn_in s.works_in_odd s.odd s.even)
        (turn_in (not s.works_in_odd) s.odd s.even) s.other s.last };

    ghost invariant = { λ s. AreInPlace s.kernel.turn (turn_in s.works_in_odd s.odd s.even) s.last };
}

impl Session {
    /// A session at boot, before its applications are started: `config.apps` of them, processes 4, 5, ... All its memory is
    /// allocated here.
    ///
    /// # Errors
    ///
    /// `BadSizes` exactly where no mote boots with this configuration; otherwise `Memory` where memory is refused.
    pub fn boot(alloc: Global, config: Config) -> Result<Session, BootFault>
        ensures booted { IfOk result (λ session. (session.machine ≡ booted config) × (session.inputs ≡ 0)
            × (session.turn ≡ None) × (session.last ≡ None)) }
        ensures history { IfOk result (λ session. KeepsPromise (at_boot config) session) }
        ensures bad_sizes { IsErrOf result BootFault.BadSizes ↔ (is_bootable config ≡ false) }
    {
        match AwaitingKernel::boot(alloc, config) {
            Ok(kernel) => Ok(Session::over(kernel, config)),
            Err(fault) => Err(fault),
        }
    }

    /// A session over a kernel that has just booted with this configuration.
    // Apart from `boot`: who has the kernel made first has no room for a session on the stack meanwhile.
    #[inline(always)]
    pub fn over(kernel: AwaitingKernel, config: Config) -> Session
        requires machine { kernel.mote.machine ≡ booted config }
        requires inputs { kernel.mote.inputs ≡ 0 }
        requires turn { kernel.turn ≡ None }
        requires bootable { is_bootable config ≡ true }
        ensures booted { (result.machine ≡ booted config) × (result.inputs ≡ 0) × (result.turn ≡ None) × (result.last ≡ None) }
        ensures history { KeepsPromise (at_boot config) result }
    {
        histories_keep_promise();
        // The clauses name it.
        let _ = config;
        Session::of(kernel)
    }

    /// A session over a kernel that awaits no call.
    #[inline(always)]
    fn of(kernel: AwaitingKernel) -> Session
        requires { kernel.turn ≡ None }
        ensures { (result.machine ≡ kernel.mote.machine) × (result.inputs ≡ kernel.mote.inputs) × (result.turn ≡ None)
            × (result.last ≡ None) }
    {
        Session {
            kernel,
            even: Turn::none_yet(),
            odd: Turn::none_yet(),
            works_in_odd: false,
            other: Entry::Halt,
            last: LastEntry::Missing,
            values: DigitValues::new(),
        }
    }

    /// Works until an application must take a turn, until another entry is made, or until there is rest.
    ///
    /// # Errors
    ///
    /// `AwaitsCall` exactly where a turn awaits its call.
    pub fn next(&mut self) -> Result<Next, SessionRefusal>
        ensures advances { IfOk result (λ step. (self.old.turn ≡ None)
            × Advances step self.old self.new × HasSameInputs self.old self.new) }
        ensures history { IfOk result (λ step. (history : History) → IsHistoryOf history self.old →
            KeepsPromise (with_made step self.new.last history) self.new) }
        ensures refused { IfErr result (λ refusal. (refusal ≡ SessionRefusal.AwaitsCall) × (self.old.turn ≢ None) × (self.new ≡ self.old)) }
    {
        histories_go_on();
        histories_keep_promise();
        if self.kernel.turn().is_some() {
            return Err(SessionRefusal::AwaitsCall);
        }
        Ok(self.advance())
    }

    /// Works as `next`, where no turn awaits its call.
    #[inline(always)]
    fn advance(&mut self) -> Next
        requires { self.old.turn ≡ None }
        ensures advances { Advances result self.old self.new }
        ensures inputs { HasSameInputs self.old self.new }
    {
        if self.works_in_odd {
            work_in(
                &mut self.kernel,
                &mut self.odd,
                &mut self.other,
                &mut self.last,
            )
        } else {
            work_in(
                &mut self.kernel,
                &mut self.even,
                &mut self.other,
                &mut self.last,
            )
        }
    }

    /// Submits the call of the application whose turn it is: the call is executed, and the turn becomes an entry.
    ///
    /// # Errors
    ///
    /// `NoTurn` exactly where no turn awaits a call.
    pub fn submit(&mut self, call: Call) -> Result<(), SessionRefusal>
        ensures submitted { IfOk result (λ _. IsSubmitted call self.old self.new × HasSameInputs self.old self.new) }
        ensures history { IfOk result (λ _. (history : History) → IsHistoryOf history self.old →
            KeepsPromise (with_call self.old.turn call history) self.new) }
        ensures refused { IfErr result (λ refusal. (refusal ≡ SessionRefusal.NoTurn) × (self.old.turn ≡ None) × (self.new ≡ self.old)) }
    {
        histories_go_on();
        histories_keep_promise();
        let Some(pid) = self.kernel.turn() else {
            return Err(SessionRefusal::NoTurn);
        };
        self.end_turn(pid, call);
        Ok(())
    }

    /// Executes the call of the application whose turn it is.
    fn end_turn(&mut self, pid: Pid, call: Call)
        requires { IsSomeAnd self.old.turn (λ turn. turn.process ≡ pid) }
        ensures submitted { IsSubmitted call self.old self.new }
        ensures inputs { HasSameInputs self.old self.new }
    {
        if self.works_in_odd {
            submit_in(&mut self.kernel, &mut self.odd, pid, call);
        } else {
            submit_in(&mut self.kernel, &mut self.even, pid, call);
        }
        self.works_in_odd = !self.works_in_odd;
        self.last = LastEntry::Turn;
    }

    /// Submits the call that `source` says as `submit`, if it says one. Returns whether it does: if not, nothing has changed. The call is
    /// put where its turn awaits it.
    ///
    /// # Errors
    ///
    /// `NoTurn` exactly where no turn awaits a call.
    pub fn submit_from<S: CallSource>(&mut self, source: &S) -> Result<bool, SessionRefusal>
        ensures is_said { IfOk result (λ is_said. is_said ≡ is_some (S.said source.now)) }
        ensures submitted { IfOk result (λ _. IsSubmittedIfSaid (S.said source.now) self.old self.new) }
        ensures awaited { IfOk result (λ _. self.old.turn ≢ None) }
        ensures history { IfOk result (λ _. (call : Spoken) → S.said source.now ≡ Some call → (history : History) → IsHistoryOf history self.old →
            KeepsPromise (with_call self.old.turn call history) self.new) }
        ensures refused { IfErr result (λ refusal. (refusal ≡ SessionRefusal.NoTurn) × (self.old.turn ≡ None) × (self.new ≡ self.old)) }
    {
        histories_go_on();
        histories_keep_promise();
        let Some(pid) = self.kernel.turn() else {
            return Err(SessionRefusal::NoTurn);
        };
        Ok(self.end_turn_from(pid, source))
    }

    /// Executes the call that the source says, if it says one, for the application whose turn it is.
    fn end_turn_from<S: CallSource>(&mut self, pid: Pid, source: &S) -> bool
        requires { IsSomeAnd self.old.turn (λ turn. turn.process ≡ pid) }
        ensures is_said { result ≡ is_some (S.said source.now) }
        ensures submitted { IsSubmittedIfSaid (S.said source.now) self.old self.new }
    {
        if self.works_in_odd {
            let is_said = submit_from_in(
                &mut self.kernel,
                &mut self.odd,
                &mut self.last,
                pid,
                source,
            );
            self.works_in_odd = !is_said;
            is_said
        } else {
            let is_said = submit_from_in(
                &mut self.kernel,
                &mut self.even,
                &mut self.last,
                pid,
                source,
            );
            self.works_in_odd = is_said;
            is_said
        }
    }

    /// Works as `next`, and has `caller`, which knows this mote by the number `mote`, make the call of an application that must take a
    /// turn, and submits it. The call needs no copy.
    ///
    /// # Errors
    ///
    /// `AwaitsCall` exactly where a turn awaits its call.
    // Part of the loop of a network's run: see docs/performance.md. What programs step by step call is left to the compiler.
    #[inline(always)]
    pub fn next_by<H: Caller>(
        &mut self,
        mote: usize,
        caller: &mut H,
    ) -> Result<Next, SessionRefusal>
        ensures worked { IfOk result (λ next. (self.old.turn ≡ None) × WorksBy next self.old self.new) }
        ensures speaks { IfOk result (λ next. SpeaksBy next mote self.new (H.voices caller.old) (H.voices caller.new)) }
        ensures refused { IfErr result (λ refusal. (refusal ≡ SessionRefusal.AwaitsCall) × (self.old.turn ≢ None) × (self.new ≡ self.old)) }
    {
        if self.kernel.turn().is_some() {
            return Err(SessionRefusal::AwaitsCall);
        }
        Ok(self.advance_by(mote, caller))
    }

    /// Works as `next_by`, where no turn awaits its call.
    #[inline(always)]
    fn advance_by<H: Caller>(&mut self, mote: usize, caller: &mut H) -> Next
        requires { self.old.turn ≡ None }
        ensures works { WorksBy result self.old self.new }
        ensures speaks { SpeaksBy result mote self.new (H.voices caller.old) (H.voices caller.new) }
    {
        let next = self.advance();
        if let Next::Turn = next {
            self.take_turn(mote, caller);
        }
        next
    }

    /// Has the caller make the call of the turn that awaits it, and executes it.
    #[inline(always)]
    fn take_turn<H: Caller>(&mut self, mote: usize, caller: &mut H)
        requires { self.old.turn ≢ None }
        ensures submitted { MakesCall self.old self.new }
        ensures speaks { SpokeLast mote self.new.last (H.voices caller.old) (H.voices caller.new) }
    {
        if let Some(pid) = self.kernel.turn() {
            self.end_turn_by(pid, mote, caller);
        }
    }

    /// Has the caller make the call of the application whose turn it is, and executes it.
    #[inline(always)]
    fn end_turn_by<H: Caller>(&mut self, pid: Pid, mote: usize, caller: &mut H)
        requires { IsSomeAnd self.old.turn (λ turn. turn.process ≡ pid) }
        ensures submitted { MakesCall self.old self.new }
        ensures speaks { SpokeLast mote self.new.last (H.voices caller.old) (H.voices caller.new) }
    {
        if self.works_in_odd {
            end_turn_in(
                &mut self.kernel,
                &mut self.odd,
                &mut self.last,
                pid,
                mote,
                caller,
            );
            self.works_in_odd = false;
        } else {
            end_turn_in(
                &mut self.kernel,
                &mut self.even,
                &mut self.last,
                pid,
                mote,
                caller,
            );
            self.works_in_odd = true;
        }
    }

    /// Feeds the input of a line of a script, without its end. An empty line or a comment has none.
    ///
    /// # Errors
    ///
    /// `AwaitsCall`, `Halted` or `NotAtRest` where the mote doesn't rest; `BadLine` where the line is malformed; then
    /// as `feed_input`.
    pub fn feed(&mut self, line: &[u8]) -> Result<(), SessionRefusal>
        ensures accepted { IfOk result (λ _. (line_refusal (read_line line.now) self.old ≡ None)
            × TakesLine (read_line line.now) self.old self.new) }
        ensures history { IfOk result (λ _. (history : History) → IsHistoryOf history self.old →
            KeepsPromise (with_said (read_line line.now) history) self.new) }
        ensures refused { IfErr result (λ refusal. (line_refusal (read_line line.now) self.old ≡ Some refusal) × (self.new ≡ self.old)) }
    {
        histories_go_on();
        histories_keep_promise();
        self.test_rest()?;
        let mut input = Input::Tick(0);
        match read_input_by(line, &mut input, &self.values) {
            Ok(true) => self.feed_at_rest(&input),
            Ok(false) => Ok(()),
            Err(BadLine) => Err(SessionRefusal::BadLine),
        }
    }

    /// Feeds an input. Its entry is made by `next`.
    ///
    /// # Errors
    ///
    /// `AwaitsCall`, `Halted` or `NotAtRest` where the mote doesn't rest; `NoInput` where it is serial bytes or a frame of no
    /// bytes; `TooManyInputs` where 2^40 inputs were fed, or the clock would exceed 2^62.
    pub fn feed_input(&mut self, input: Input) -> Result<(), SessionRefusal>
        ensures accepted { IfOk result (λ _. (input_refusal input self.old ≡ None) × IsFed input self.old self.new) }
        ensures rested { IfOk result (λ _. rests self.old ≡ true) }
        ensures history { IfOk result (λ _. (history : History) → IsHistoryOf history self.old →
            KeepsPromise (with_input input history) self.new) }
        ensures refused { IfErr result (λ refusal. (input_refusal input self.old ≡ Some refusal) × (self.new ≡ self.old)) }
    {
        histories_go_on();
        histories_keep_promise();
        self.test_rest()?;
        self.feed_at_rest(&input)
    }

    /// As `feed_input`, of a tick.
    pub fn feed_ticks(&mut self, ticks: u32) -> Result<(), SessionRefusal>
        ensures accepted { IfOk result (λ _. (input_refusal (Handed.Tick ticks) self.old ≡ None) × IsFed (Handed.Tick ticks) self.old self.new) }
        ensures rested { IfOk result (λ _. rests self.old ≡ true) }
        ensures history { IfOk result (λ _. (history : History) → IsHistoryOf history self.old →
            KeepsPromise (with_input (Handed.Tick ticks) history) self.new) }
        ensures refused { IfErr result (λ refusal. (input_refusal (Handed.Tick ticks) self.old ≡ Some refusal) × (self.new ≡ self.old)) }
    {
        histories_go_on();
        histories_keep_promise();
        self.test_rest()?;
        self.feed_ticks_at_rest(ticks)
    }

    /// As `feed_input`, of a frame that the caller keeps.
    pub fn feed_frame(&mut self, bytes: &ArrayVec<u8, 127>) -> Result<(), SessionRefusal>
        ensures accepted { IfOk result (λ _. (input_refusal (Handed.Frame bytes.now) self.old ≡ None) × IsFed (Handed.Frame bytes.now) self.old self.new) }
        ensures rested { IfOk result (λ _. rests self.old ≡ true) }
        ensures history { IfOk result (λ _. (history : History) → IsHistoryOf history self.old →
            KeepsPromise (with_input (Handed.Frame bytes.now) history) self.new) }
        ensures refused { IfErr result (λ refusal. (input_refusal (Handed.Frame bytes.now) self.old ≡ Some refusal) × (self.new ≡ self.old)) }
    {
        histories_go_on();
        histories_keep_promise();
        self.test_rest()?;
        self.feed_frame_at_rest(bytes)
    }

    /// Refuses where the mote doesn't rest.
    fn test_rest(&self) -> Result<(), SessionRefusal>
        ensures accepted { IfOk result (λ _. (unrest self.now ≡ None) × (rests self.now ≡ true)) }
        ensures refused { IfErr result (λ refusal. unrest self.now ≡ Some refusal) }
    {
        if self.kernel.turn().is_some() {
            return Err(SessionRefusal::AwaitsCall);
        }
        if self.kernel.halted() {
            return Err(SessionRefusal::Halted);
        }
        if !self.kernel.at_rest() {
            return Err(SessionRefusal::NotAtRest);
        }
        Ok(())
    }

    /// Whether all inputs were fed, or the clock would go too far.
    fn is_beyond(&self, ticks: u64) -> bool
        ensures { result ≡ (nat_le input_limit self.now.inputs || nat_lt clock_limit (self.now.machine.clock + ticks)) }
    {
        self.kernel.inputs() >= MOST_INPUTS || ticks > MOST_TICKS - self.kernel.clock()
    }

    /// Feeds an input at rest.
    fn feed_at_rest(&mut self, input: &Input) -> Result<(), SessionRefusal>
        requires { rests self.old ≡ true }
        ensures accepted { IfOk result (λ _. (unfit input.now self.old ≡ None) × IsFed input.now self.old self.new) }
        ensures refused { IfErr result (λ refusal. (unfit input.now self.old ≡ Some refusal) × (self.new ≡ self.old)) }
    {
        if !has_bytes(input) {
            return Err(SessionRefusal::NoInput);
        }
        if self.is_beyond(ticks(input)) {
            return Err(SessionRefusal::TooManyInputs);
        }
        self.kernel.feed_from(input);
        Ok(())
    }

    /// Feeds a tick at rest.
    fn feed_ticks_at_rest(&mut self, ticks: u32) -> Result<(), SessionRefusal>
        requires { rests self.old ≡ true }
        ensures accepted { IfOk result (λ _. (unfit (Handed.Tick ticks) self.old ≡ None) × IsFed (Handed.Tick ticks) self.old self.new) }
        ensures refused { IfErr result (λ refusal. (unfit (Handed.Tick ticks) self.old ≡ Some refusal) × (self.new ≡ self.old)) }
    {
        if self.is_beyond(ticks as u64) {
            return Err(SessionRefusal::TooManyInputs);
        }
        self.kernel.feed_ticks(ticks);
        Ok(())
    }

    /// Feeds a frame at rest.
    fn feed_frame_at_rest(&mut self, bytes: &ArrayVec<u8, 127>) -> Result<(), SessionRefusal>
        requires { rests self.old ≡ true }
        ensures accepted { IfOk result (λ _. (unfit (Handed.Frame bytes.now) self.old ≡ None) × IsFed (Handed.Frame bytes.now) self.old self.new) }
        ensures refused { IfErr result (λ refusal. (unfit (Handed.Frame bytes.now) self.old ≡ Some refusal) × (self.new ≡ self.old)) }
    {
        if bytes.as_slice().is_empty() {
            return Err(SessionRefusal::NoInput);
        }
        if self.is_beyond(0) {
            return Err(SessionRefusal::TooManyInputs);
        }
        self.kernel.feed_frame(bytes);
        Ok(())
    }

    /// Before it rests, a mote makes no more than this many entries. Nothing is done.
    #[inline(always)]
    pub fn entries_are_few(&self)
        ensures { self.now.entries_left ≤ most_entries_left }
    {
        self.kernel.entries_are_few();
    }

    /// The turn that awaits its call, if one does.
    pub fn turn(&self) -> Option<OpenTurn<'_>>
        ensures some { IfSome result (λ turn.
            self.now.turn ≡ Some (record { process = turn.process; origin = turn.origin; stimulus = turn.stimulus.now })) }
        ensures none { IfNone result (self.now.turn ≡ None) }
    {
        let turn = turn_in(self.works_in_odd, &self.odd, &self.even);
        match self.kernel.turn() {
            Some(process) => Some(OpenTurn {
                process,
                origin: turn.origin,
                stimulus: &turn.stimulus,
            }),
            None => None,
        }
    }

    /// The ticks since boot.
    pub fn clock(&self) -> u64
        ensures value { result ≡ self.now.machine.clock }
        ensures most { result ≤ 2 ^ 62 }
    {
        self.kernel.clock()
    }

    /// When the next timer runs out, if any is armed.
    pub fn next_deadline(&self) -> Option<u64>
        ensures { result ≡ next_deadline self.now.machine.timers }
    {
        self.kernel.next_deadline()
    }

    /// The frame that was sent, where the last entry reports one.
    pub fn sent(&self) -> Option<&ArrayVec<u8, 127>>
        ensures { sent_in self.now.last ≡ option_copied result }
    {
        match self.last {
            LastEntry::Other => match &self.other {
                Entry::Note(Note::Sent(bytes)) => Some(bytes),
                _ => None,
            },
            _ => None,
        }
    }

    /// Whether a transcript shows the last entry, if one was made. A quiet one shows the turns that print or send, the frames that were
    /// sent, and `halt`.
    pub fn shows_last(&self, quiet: bool) -> bool
        ensures { result ≡ is_last_shown quiet self.now.last }
    {
        match self.last {
            LastEntry::Missing => false,
            LastEntry::Turn => {
                let turn = turn_in(!self.works_in_odd, &self.odd, &self.even);
                is_turn_shown(&turn.call, quiet)
            }
            LastEntry::Other => is_shown(&self.other, quiet),
        }
    }

    /// Whether an input can be fed: no turn awaits its call, nothing is left to do, and the mote wasn't halted.
    pub fn at_rest(&self) -> bool
        ensures { result ≡ rests self.now }
    {
        self.kernel.at_rest()
    }

    /// Whether the mote was halted, since the work of one input reached its bound.
    pub fn halted(&self) -> bool
        ensures { result ≡ self.now.machine.is_halted }
    {
        self.kernel.halted()
    }

    /// Whether the last entry has a line: one was made, and no turn awaits its call.
    pub fn has_line(&self) -> bool
        ensures { result ≡ is_some self.now.last }
    {
        match self.last {
            LastEntry::Missing => false,
            LastEntry::Turn | LastEntry::Other => true,
        }
    }

    /// Appends the transcript's line of the last entry, with its end: at most 640 bytes.
    ///
    /// # Errors
    ///
    /// `NoLine` exactly where no entry was made, or the last turn awaits its call.
    #[inline(always)]
    pub fn push_line<const CAPACITY: usize>(
        &self,
        line: &mut TextBuffer<CAPACITY>,
    ) -> Result<(), SessionRefusal>
        requires { HasRoomOf CAPACITY line.old entry_line_limit }
        ensures pushed { IfOk result (λ _. IsSomeAnd self.now.last (λ entry. line.new.items ≡ line.old.items ++ entry_line entry)) }
        ensures refused { IfErr result (λ refusal. (refusal ≡ SessionRefusal.NoLine) × (self.now.last ≡ None) × (line.new ≡ line.old)) }
    {
        match self.last {
            LastEntry::Missing => return Err(SessionRefusal::NoLine),
            LastEntry::Turn => {
                let turn = turn_in(!self.works_in_odd, &self.odd, &self.even);
                push_turn_line(turn.pid, turn.origin, &turn.stimulus, &turn.call, line)
            }
            LastEntry::Other => push_entry(&self.other, line),
        }
        Ok(())
    }
}
