//! The network.

ghost use Rattle.std.specs.Prelude.{◌≡◌, ◌≤◌, ◌<◌, ◌+◌, ◌^◌, ◌≢◌, ◌↔◌, length, not, map, true, false, is_some, nat_lt, slice_get, slice_set, None, Some, IfErr, IfOk, IsErrOf, IsSomeAnd};
ghost use Rattle.network_session.specs.Network.{wakes_of};
ghost use Rattle.network_session.specs.Refusals.{catch_up_refusal, feed_refusal, is_tick, mote_refusal, outcome_refusal, pass_refusal, step_refusal, submit_refusal};
ghost use Rattle.network_session.specs.Schedule.{arriving, due_now, due_step, is_rest, passing};
ghost use Rattle.network_session.specs.declared.fault.NetworkBootFault.{NetworkBootFault};
ghost use Rattle.network_session.specs.declared.outcome.Outcome.TheVariants.{Woken};
ghost use Rattle.network_session.specs.Steps.{SubmittedIn, HandedIn, IsNetworkSubmitted, IsNetworkSubmittedIfSaid, IsNetworkFed, IsToldTime, Steps, WorkedIn, aired_if, is_work};
ghost use Rattle.network_session.specs.Code.Measures.{left_at_work, most_left_at_work};
ghost use Rattle.network_session.specs.Code.Wakes.{IsSteady};
ghost use Rattle.mote_session.specs.Code.Speaking.{SpeaksBy};
ghost use Rattle.network_session.specs.Code.Working.{SubmittedIfSaidIn, Works, WorksIn};
ghost use Rattle.kernel_core.specs.Code.Conditions.{ticks_of};
ghost use Rattle.network_session.specs.Waking.{due_tick, wake};
ghost use Rattle.network_session.specs.declared.fault.NetworkFault.{NetworkFault};
ghost use Rattle.mote_session.specs.declared.refusal.SessionRefusal.{SessionRefusal};
ghost use Rattle.mote_types.specs.declared.entry.Input.{Input as Handed};
ghost use Rattle.mote_session.specs.SessionView.{SessionView};
ghost use Rattle.mote_session.specs.Sent.{sent_in};
ghost use Rattle.network_session.specs.Alarms.{first_come};
ghost use Rattle.medium_core.specs.Air.{are_links, arrival, landed, links_from, may_add, still_air, with_link};
ghost use Rattle.medium_core.specs.Code.Airs.{link_lists};
ghost use Rattle.std.specs.Option.{option_copied};

use crate::alarms::Alarms;
use crate::fault::{NetworkBootFault, NetworkFault};
use crate::outcome::Outcome;
use crate::waking::{ticks_behind, wake_of};
use arrayvec::ArrayVec;
use medium_core::fault::MediumFault;
use medium_core::link::Link;
use medium_core::medium::Medium;
use mote_session::call_source::CallSource;
use mote_session::caller::Caller;
use mote_session::session::{Next, Session};
use mote_types::call::Call;
use mote_types::entry::Input;
use std::alloc::Global;
use std::marker::Model;

/// How far time may go, in ticks.
const MOST_TICKS: u64 = 1 << 62;

/// Whether it is no tick.
fn is_timeless(input: &Input) -> bool
    ensures tick { result ≡ not (is_tick input.now) }
    ensures timeless { result ≡ true → ticks_of input.now ≡ 0 }
{
    match input {
        Input::Tick(_) => false,
        Input::Serial(_) => true,
        Input::Frame(_) => true,
    }
}

/// Lets one mote work on.
fn work_in(motes: &mut Vec<Session>, m: usize) -> Result<Next, NetworkFault>
    requires { m < length motes.old.items }
    ensures worked { IfOk result (λ next. WorkedIn m next motes.old.items motes.new.items) }
    ensures refused { IfErr result (λ _. motes.new.items ≡ motes.old.items) }
    ensures awaits { IfErr result (λ fault. (fault ≡ NetworkFault.Refused SessionRefusal.AwaitsCall) × ((mote : SessionView) → slice_get motes.old.items m ≡ Some mote → mote.turn ≢ None)) }
{
    match motes[m].next() {
        Ok(next) => Ok(next),
        Err(refusal) => Err(NetworkFault::Refused(refusal)),
    }
}

/// Passes an input to one mote.
fn hand_in(motes: &mut Vec<Session>, m: usize, input: Input) -> Result<(), NetworkFault>
    requires { m < length motes.old.items }
    ensures handed { IfOk result (λ _. HandedIn m (λ mote. input) motes.old.items motes.new.items) }
    ensures accepted { IfOk result (λ _. (mote : SessionView) → slice_get motes.old.items m ≡ Some mote → mote_refusal input mote ≡ None) }
    ensures refused { IfErr result (λ _. motes.new.items ≡ motes.old.items) }
    ensures why { IfErr result (λ fault. (mote : SessionView) → slice_get motes.old.items m ≡ Some mote → mote_refusal input mote ≡ Some fault) }
{
    match motes[m].feed_input(input) {
        Ok(()) => Ok(()),
        Err(refusal) => Err(NetworkFault::Refused(refusal)),
    }
}

/// Passes a frame to one mote.
fn hand_frame_in(
    motes: &mut Vec<Session>,
    m: usize,
    bytes: &ArrayVec<u8, 127>,
) -> Result<(), NetworkFault>
    requires { m < length motes.old.items }
    ensures handed { IfOk result (λ _. HandedIn m (λ mote. Handed.Frame bytes.now) motes.old.items motes.new.items) }
    ensures accepted { IfOk result (λ _. (mote : SessionView) → slice_get motes.old.items m ≡ Some mote → mote_refusal (Handed.Frame bytes.now) mote ≡ None) }
    ensures refused { IfErr result (λ _. motes.new.items ≡ motes.old.items) }
    ensures why { IfErr result (λ fault. (mote : SessionView) → slice_get motes.old.items m ≡ Some mote → mote_refusal (Handed.Frame bytes.now) mote ≡ Some fault) }
{
    match motes[m].feed_frame(bytes) {
        Ok(()) => Ok(()),
        Err(refusal) => Err(NetworkFault::Refused(refusal)),
    }
}

/// Tells one mote the time.
fn tell_in(motes: &mut Vec<Session>, m: usize, now: u64) -> Result<(), NetworkFault>
    requires { m < length motes.old.items }
    ensures told { IfOk result (λ _. HandedIn m (due_tick now) motes.old.items motes.new.items) }
    ensures accepted { IfOk result (λ _. (mote : SessionView) → slice_get motes.old.items m ≡ Some mote → mote_refusal (due_tick now mote) mote ≡ None) }
    ensures refused { IfErr result (λ _. motes.new.items ≡ motes.old.items) }
    ensures why { IfErr result (λ fault. (mote : SessionView) → slice_get motes.old.items m ≡ Some mote → mote_refusal (due_tick now mote) mote ≡ Some fault) }
{
    let ticks = ticks_behind(now, motes[m].clock());
    match motes[m].feed_ticks(ticks) {
        Ok(()) => Ok(()),
        Err(refusal) => Err(NetworkFault::Refused(refusal)),
    }
}

/// Answers one mote.
fn submit_in(motes: &mut Vec<Session>, m: usize, call: Call) -> Result<(), NetworkFault>
    requires { m < length motes.old.items }
    ensures submitted { IfOk result (λ _. SubmittedIn m call motes.old.items motes.new.items) }
    ensures accepted { IfOk result (λ _. (mote : SessionView) → slice_get motes.old.items m ≡ Some mote → mote.turn ≢ None) }
    ensures refused { IfErr result (λ _. motes.new.items ≡ motes.old.items) }
    ensures why { IfErr result (λ fault. (fault ≡ NetworkFault.Refused SessionRefusal.NoTurn) × ((mote : SessionView) → slice_get motes.old.items m ≡ Some mote → mote.turn ≡ None)) }
{
    match motes[m].submit(call) {
        Ok(()) => Ok(()),
        Err(refusal) => Err(NetworkFault::Refused(refusal)),
    }
}

/// Answers one mote by the call that the source says, if it says one.
fn submit_from_in<S: CallSource>(
    motes: &mut Vec<Session>,
    m: usize,
    source: &S,
) -> Result<bool, NetworkFault>
    requires { m < length motes.old.items }
    ensures is_said { IfOk result (λ is_said. is_said ≡ is_some (S.said source.now)) }
    ensures submitted { IfOk result (λ _. SubmittedIfSaidIn m (S.said source.now) motes.old.items motes.new.items) }
    ensures accepted { IfOk result (λ _. (mote : SessionView) → slice_get motes.old.items m ≡ Some mote → mote.turn ≢ None) }
    ensures refused { IfErr result (λ _. motes.new.items ≡ motes.old.items) }
    ensures why { IfErr result (λ fault. (fault ≡ NetworkFault.Refused SessionRefusal.NoTurn) × ((mote : SessionView) → slice_get motes.old.items m ≡ Some mote → mote.turn ≡ None)) }
{
    match motes[m].submit_from(source) {
        Ok(is_said) => Ok(is_said),
        Err(refusal) => Err(NetworkFault::Refused(refusal)),
    }
}

/// Lets one mote work on, and the caller make the call of a turn.
#[inline(always)]
fn work_by_in<H: Caller>(
    motes: &mut Vec<Session>,
    m: usize,
    caller: &mut H,
) -> Result<Next, NetworkFault>
    requires { m < length motes.old.items }
    ensures worked { IfOk result (λ worked. WorksIn m worked motes.old.items motes.new.items) }
    ensures speaks { IfOk result (λ worked. (one : SessionView) → slice_get motes.new.items m ≡ Some one →
        SpeaksBy worked m one (H.voices caller.old) (H.voices caller.new)) }
    ensures refused { IfErr result (λ _. motes.new.items ≡ motes.old.items) }
    ensures awaits { IfErr result (λ fault. (fault ≡ NetworkFault.Refused SessionRefusal.AwaitsCall) × ((mote : SessionView) → slice_get motes.old.items m ≡ Some mote → mote.turn ≢ None)) }
{
    match motes[m].next_by(m, caller) {
        Ok(worked) => Ok(worked),
        Err(refusal) => Err(NetworkFault::Refused(refusal)),
    }
}

/// Sends the frame that the mote's last entry says was sent, if it does.
// Out of the way of turns, which most entries are.
#[inline(never)]
fn air_in(medium: &mut Medium, mote: &Session, m: usize)
    ensures { medium.new ≡ aired_if m (sent_in mote.now.last) medium.old }
{
    if let Some(bytes) = mote.sent() {
        medium.send(m, bytes);
    }
}

/// Removes the frame that arrives now, if one does, from the medium.
// The one caller of `land`: so the queue's call is inlined there, and makes no copy of a frame that is dropped.
#[inline(never)]
fn let_land(medium: &mut Medium)
    ensures { medium.new ≡ landed medium.old }
{
    let _ = medium.land();
}

/// Sets when a mote must get the time.
// Out of the way of entries: it is set where a mote rests.
#[inline(never)]
fn set_wake(wakes: &mut Alarms, motes: &Vec<Session>, m: usize)
    requires within { m < length motes.now.items }
    requires each { length wakes.old ≡ length motes.now.items }
    ensures { (mote : SessionView) → slice_get motes.now.items m ≡ Some mote → wakes.new ≡ slice_set wakes.old m (wake mote.machine) }
{
    wakes.set(m, wake_of(&motes[m]));
}

/// When each of these motes must get the time.
fn wakes_in(alloc: Global, motes: &Vec<Session>) -> Result<Alarms, NetworkBootFault>
    ensures wakes { IfOk result (λ wakes. wakes ≡ wakes_of motes.now.items) }
    ensures memory { IfErr result (λ fault. fault ≡ NetworkBootFault.Memory) }
{
    let moments: Vec<u64> = match motes.iter().map(|mote| wake_of(mote)).collect(alloc) {
        Ok(moments) => moments,
        Err(_) => return Err(NetworkBootFault::Memory),
    };
    match Alarms::new(alloc, moments.as_slice()) {
        Ok(wakes) => Ok(wakes),
        Err(_) => Err(NetworkBootFault::Memory),
    }
}

/// Motes, and the medium between them. They have numbers from 0 on.
#[derive(Drop)]
pub struct Network {
    motes: Vec<Session>,
    /// When each must get the time. That of the mote at work may be out of date.
    wakes: Alarms,
    medium: Medium,
    active: Option<usize>,
    started: usize,
    target: u64,
    bound: u64,
    rounds: u64,
}

impl Model for Network {
    ghost use Rattle.network_session.specs.Network.{NetworkView};
    ghost use Rattle.network_session.specs.Code.Wakes.{IsSteady};

    ghost Value = { NetworkView };

    ghost view = { λ n. record {
      motes = n.motes.items;
      air = n.medium;
      active = n.active;
      started = n.started;
      target = n.target;
      bound = n.bound;
      rounds = n.rounds;
    } };

    ghost invariant = { λ n. IsSteady n.active n.motes.items n.wakes n.target };
}

impl Network {
    /// Does the next step: that of the mote at work; without one, the next pending step.
    ///
    /// # Errors
    ///
    /// `Refused(AwaitsCall)` where a turn awaits its call; `Refused(TooManyInputs)` where a mote was handed 2^40 inputs.
    pub fn step(&mut self) -> Result<Outcome, NetworkFault>
        ensures stepped { IfOk result (λ outcome. Steps outcome self.old self.new) }
        ensures due { IfOk result (λ outcome. self.old.active ≡ None → outcome ≡ due_step self.old) }
        ensures work { IfOk result (λ outcome. is_work outcome ≡ is_some self.old.active) }
        ensures refused { IfErr result (λ _. self.new ≡ self.old) }
        ensures why { IfErr result (λ fault. step_refusal self.old ≡ Some fault) }
        ensures accepted { IfOk result (λ _. step_refusal self.old ≡ None) }
        ensures awaits { IfErr result (λ fault. is_some self.old.active ≡ true → fault ≡ NetworkFault.Refused SessionRefusal.AwaitsCall) }
    {
        match self.active {
            Some(m) => self.work(m),
            None => self.begin(),
        }
    }

    /// Lets the mote that is at work work on.
    fn work(&mut self, m: usize) -> Result<Outcome, NetworkFault>
        requires { self.old.active ≡ Some m }
        ensures stepped { IfOk result (λ outcome. Steps outcome self.old self.new) }
        ensures work { IfOk result (λ outcome. is_work outcome ≡ true) }
        ensures refused { IfErr result (λ _. self.new ≡ self.old) }
        ensures why { IfErr result (λ fault. step_refusal self.old ≡ Some fault) }
        ensures accepted { IfOk result (λ _. step_refusal self.old ≡ None) }
        ensures awaits { IfErr result (λ fault. is_some self.old.active ≡ true → fault ≡ NetworkFault.Refused SessionRefusal.AwaitsCall) }
    {
        match work_in(&mut self.motes, m)? {
            Next::Turn => Ok(Outcome::Worked(m, Next::Turn)),
            Next::Entry => {
                air_in(&mut self.medium, &self.motes[m], m);
                Ok(Outcome::Worked(m, Next::Entry))
            }
            Next::Rest => {
                set_wake(&mut self.wakes, &self.motes, m);
                self.active = None;
                Ok(Outcome::Worked(m, Next::Rest))
            }
            Next::Halted => {
                set_wake(&mut self.wakes, &self.motes, m);
                self.active = None;
                Ok(Outcome::Worked(m, Next::Halted))
            }
        }
    }

    /// Lets the mote that is at work, `m`, work on as `step`, and has `caller` make the call of an application that must take a turn,
    /// and submits it. The call needs no copy.
    ///
    /// # Errors
    ///
    /// `Refused(AwaitsCall)` where a turn awaits its call.
    #[inline(always)]
    pub fn work_by<H: Caller>(&mut self, m: usize, caller: &mut H) -> Result<Next, NetworkFault>
        requires { self.old.active ≡ Some m }
        ensures worked { IfOk result (λ worked. Works m worked self.old self.new) }
        ensures speaks { IfOk result (λ worked. (one : SessionView) → slice_get self.new.motes m ≡ Some one →
            SpeaksBy worked m one (H.voices caller.old) (H.voices caller.new)) }
        ensures refused { IfErr result (λ _. self.new ≡ self.old) }
        ensures why { IfErr result (λ fault. step_refusal self.old ≡ Some fault) }
        ensures accepted { IfOk result (λ _. step_refusal self.old ≡ None) }
    {
        match work_by_in(&mut self.motes, m, caller)? {
            Next::Turn => Ok(Next::Turn),
            Next::Entry => {
                air_in(&mut self.medium, &self.motes[m], m);
                Ok(Next::Entry)
            }
            Next::Rest => {
                set_wake(&mut self.wakes, &self.motes, m);
                self.active = None;
                Ok(Next::Rest)
            }
            Next::Halted => {
                set_wake(&mut self.wakes, &self.motes, m);
                self.active = None;
                Ok(Next::Halted)
            }
        }
    }

    /// Does the next pending step, when no mote is at work.
    #[tactic(auto, using(crate::proofs::Due::due_left, crate::proofs::Due::due_rest, crate::proofs::Due::due_exhausted))]
    fn begin(&mut self) -> Result<Outcome, NetworkFault>
        requires { self.old.active ≡ None }
        ensures stepped { IfOk result (λ outcome. Steps outcome self.old self.new) }
        ensures due { IfOk result (λ outcome. outcome ≡ due_step self.old) }
        ensures idle { IfOk result (λ outcome. is_work outcome ≡ false) }
        ensures refused { IfErr result (λ _. self.new ≡ self.old) }
        ensures why { IfErr result (λ fault. step_refusal self.old ≡ Some fault) }
        ensures accepted { IfOk result (λ _. step_refusal self.old ≡ None) }
    {
        if self.started < self.motes.len() {
            let m = self.started;
            self.active = Some(m);
            self.started = m + 1;
            return Ok(Outcome::Started(m));
        }
        if self.rounds == 0 {
            return Ok(if self.is_done() {
                Outcome::Rest
            } else {
                Outcome::Exhausted
            });
        }
        match self.wakes.first_come(self.medium.clock()) {
            Some(m) => self.tell_time(m),
            None => self.hear(),
        }
    }

    /// Whether nothing is left to do, where all motes were started and none is at work.
    #[tactic(auto, using(crate::proofs::Due::busy_waking, crate::proofs::Due::busy_arriving, crate::proofs::Due::done_passing))]
    fn is_done(&self) -> bool
        requires { self.now.active ≡ None }
        ensures { result ≡ is_rest (due_now self.now) }
    {
        let clock = self.medium.clock();
        if let Some(_) = self.wakes.first_come(clock) {
            return false;
        }
        if let Some(_) = self.medium.arriving() {
            return false;
        }
        clock >= self.target
    }

    /// Tells a mote the time.
    // What it returns isn't read back from memory where it is inlined.
    #[inline(always)]
    fn tell_time(&mut self, m: usize) -> Result<Outcome, NetworkFault>
        requires closed { self.old.active ≡ None }
        requires within { m < length self.old.motes }
        ensures told { IfOk result (λ _. IsToldTime m self.old self.new) }
        ensures refused { IfErr result (λ _. self.new ≡ self.old) }
        ensures accepted { IfOk result (λ _. (mote : SessionView) → slice_get self.old.motes m ≡ Some mote → mote_refusal (due_tick self.old.air.clock mote) mote ≡ None) }
        ensures why { IfErr result (λ fault. (mote : SessionView) → slice_get self.old.motes m ≡ Some mote → mote_refusal (due_tick self.old.air.clock mote) mote ≡ Some fault) }
        ensures outcome { IfOk result (λ outcome. outcome ≡ Woken m) }
    {
        tell_in(&mut self.motes, m, self.medium.clock())?;
        self.active = Some(m);
        self.rounds = self.rounds.saturating_sub(1);
        Ok(Outcome::Woken(m))
    }

    /// Lets a frame arrive, or time go on.
    fn hear(&mut self) -> Result<Outcome, NetworkFault>
        requires { self.old.active ≡ None }
        ensures stepped { IfOk result (λ outcome. Steps outcome self.old self.new) }
        ensures due { IfOk result (λ outcome. outcome ≡ arriving self.old (arrival self.old.air)) }
        ensures idle { IfOk result (λ outcome. is_work outcome ≡ false) }
        ensures refused { IfErr result (λ _. self.new ≡ self.old) }
        ensures why { IfErr result (λ fault. outcome_refusal (arriving self.old (arrival self.old.air)) self.old ≡ Some fault) }
        ensures accepted { IfOk result (λ _. outcome_refusal (arriving self.old (arrival self.old.air)) self.old ≡ None) }
    {
        let Some(next) = self.medium.arriving() else {
            return Ok(self.pass());
        };
        let (from, to) = (next.from, next.to);
        if to >= self.motes.len() || self.motes[to].halted() || next.bytes.as_slice().is_empty() {
            let_land(&mut self.medium);
            self.rounds = self.rounds.saturating_sub(1);
            return Ok(Outcome::Missed(from, to));
        }
        if self.motes[to].clock() < self.medium.clock() {
            return self.tell_time(to);
        }
        hand_frame_in(&mut self.motes, to, next.bytes)?;
        let_land(&mut self.medium);
        self.active = Some(to);
        self.rounds = self.rounds.saturating_sub(1);
        Ok(Outcome::Heard(to))
    }

    /// Lets time go on, if it may.
    fn pass(&mut self) -> Outcome
        requires { self.old.active ≡ None }
        ensures stepped { Steps result self.old self.new }
        ensures due { result ≡ passing self.old }
        ensures idle { is_work result ≡ false }
    {
        if self.medium.clock() < self.target {
            let moment = self.wakes.earliest(self.target);
            self.medium.go_on(moment);
            self.rounds = self.rounds.saturating_sub(1);
            Outcome::Clock
        } else {
            Outcome::Rest
        }
    }

    /// A network of motes that were just booted, with these links of mote 0, of mote 1, and so on, room for `room` frames in flight,
    /// and at most `bound` rounds for each input. All memory that it needs is allocated here.
    ///
    /// # Errors
    ///
    /// `BadLink` exactly where a link isn't sound (`Link::is_sound`), unless memory is refused before.
    pub fn new(
        alloc: Global,
        motes: Vec<Session>,
        links: Vec<Vec<Link>>,
        room: usize,
        bound: u64,
    ) -> Result<Network, NetworkBootFault>
        ensures made { IfOk result (λ net. net ≡ record {
          motes = motes.items;
          air = still_air room (link_lists links.items);
          active = None;
          started = 0;
          target = 0;
          bound = bound;
          rounds = bound;
        }) }
        ensures sound { IfOk result (λ _. are_links (link_lists links.items) ≡ true) }
        ensures bad_link { IsErrOf result NetworkBootFault.BadLink → are_links (link_lists links.items) ≡ false }
    {
        let wakes = wakes_in(alloc, &motes)?;
        match Medium::new(alloc, links, room) {
            Ok(medium) => Ok(Network {
                motes,
                wakes,
                medium,
                active: None,
                started: 0,
                target: 0,
                bound,
                rounds: bound,
            }),
            Err(MediumFault::BadLink) => Err(NetworkBootFault::BadLink),
            Err(MediumFault::Memory) => Err(NetworkBootFault::Memory),
        }
    }

    /// Adds a link of mote `from`, after its other ones.
    ///
    /// # Errors
    ///
    /// `BadLink` exactly where the link isn't sound (`Link::is_sound`), or there are no links of such a mote; `Memory` where memory
    /// is refused.
    pub fn add_link(&mut self, from: usize, link: Link) -> Result<(), NetworkBootFault>
        ensures added { IfOk result (λ _. self.new ≡ record self.old { air = with_link from link self.old.air }) }
        ensures sound { IfOk result (λ _. may_add from link self.old.air ≡ true) }
        ensures bad_link { IsErrOf result NetworkBootFault.BadLink ↔ (may_add from link self.old.air ≡ false) }
        ensures refused { IfErr result (λ _. self.new ≡ self.old) }
    {
        match self.medium.add_link(from, link) {
            Ok(()) => Ok(()),
            Err(MediumFault::BadLink) => Err(NetworkBootFault::BadLink),
            Err(MediumFault::Memory) => Err(NetworkBootFault::Memory),
        }
    }

    /// Answers for the application whose turn it is, of the mote that is at work.
    ///
    /// # Errors
    ///
    /// `NoTurn` or `Refused(NoTurn)` where no turn awaits a call.
    pub fn submit(&mut self, call: Call) -> Result<(), NetworkFault>
        ensures submitted { IfOk result (λ _. IsNetworkSubmitted call self.old self.new) }
        ensures accepted { IfOk result (λ _. submit_refusal self.old ≡ None) }
        ensures refused { IfErr result (λ fault. (submit_refusal self.old ≡ Some fault) × (self.new ≡ self.old)) }
    {
        match self.active {
            Some(m) => {
                submit_in(&mut self.motes, m, call)?;
                Ok(())
            }
            None => Err(NetworkFault::NoTurn),
        }
    }

    /// Answers as `submit` by the call that `source` says, if it says one. Returns whether it does: if not, nothing has changed.
    ///
    /// # Errors
    ///
    /// `NoTurn` or `Refused(NoTurn)` where no turn awaits a call.
    pub fn submit_from<S: CallSource>(&mut self, source: &S) -> Result<bool, NetworkFault>
        ensures is_said { IfOk result (λ is_said. is_said ≡ is_some (S.said source.now)) }
        ensures submitted { IfOk result (λ _. IsNetworkSubmittedIfSaid (S.said source.now) self.old self.new) }
        ensures accepted { IfOk result (λ _. submit_refusal self.old ≡ None) }
        ensures refused { IfErr result (λ fault. (submit_refusal self.old ≡ Some fault) × (self.new ≡ self.old)) }
    {
        match self.active {
            Some(m) => {
                let is_said = submit_from_in(&mut self.motes, m, source)?;
                Ok(is_said)
            }
            None => Err(NetworkFault::NoTurn),
        }
    }

    /// Lets time go on by `ticks`, which `step` does: an input of the network.
    ///
    /// # Errors
    ///
    /// `NotAtRest` where a mote is at work; `TooLong` where the clock would exceed 2^62.
    pub fn pass_time(&mut self, ticks: u32) -> Result<(), NetworkFault>
        ensures passes { IfOk result (λ _. (self.old.active ≡ None) × (self.new ≡ record self.old { target = self.old.target + ticks; rounds = self.old.bound })) }
        ensures accepted { IfOk result (λ _. pass_refusal ticks self.old ≡ None) }
        ensures refused { IfErr result (λ fault. (pass_refusal ticks self.old ≡ Some fault) × (self.new ≡ self.old)) }
    {
        if self.active.is_some() {
            return Err(NetworkFault::NotAtRest);
        }
        if ticks as u64 > MOST_TICKS - self.target {
            return Err(NetworkFault::TooLong);
        }
        self.target += ticks as u64;
        self.rounds = self.bound;
        Ok(())
    }

    /// Hands serial bytes or a frame from outside to a mote, at this moment: an input of the network.
    ///
    /// # Errors
    ///
    /// `NotAtRest` where a mote is at work; `NoMote`; `IsTime` for a tick; `Behind` where the mote must get the time first
    /// (`catch_up`); `Refused` where the mote refuses: it halted, or the input has no bytes.
    pub fn feed(&mut self, m: usize, input: Input) -> Result<(), NetworkFault>
        ensures fed { IfOk result (λ _. IsNetworkFed m input self.old self.new) }
        ensures accepted { IfOk result (λ _. feed_refusal m input self.old ≡ None) }
        ensures refused { IfErr result (λ fault. (feed_refusal m input self.old ≡ Some fault) × (self.new ≡ self.old)) }
    {
        if self.active.is_some() {
            return Err(NetworkFault::NotAtRest);
        }
        if m >= self.motes.len() {
            return Err(NetworkFault::NoMote);
        }
        if !is_timeless(&input) {
            return Err(NetworkFault::IsTime);
        }
        if self.motes[m].clock() < self.medium.clock() {
            return Err(NetworkFault::Behind);
        }
        self.hand_over(m, input)
    }

    /// Passes an input from outside to a mote that has got the time.
    fn hand_over(&mut self, m: usize, input: Input) -> Result<(), NetworkFault>
        requires closed { self.old.active ≡ None }
        requires within { m < length self.old.motes }
        ensures handed { IfOk result (λ _. HandedIn m (λ mote. input) self.old.motes self.new.motes) }
        ensures active { IfOk result (λ _. self.new ≡ record self.old { motes = self.new.motes; active = Some m; rounds = self.old.bound }) }
        ensures accepted { IfOk result (λ _. (mote : SessionView) → slice_get self.old.motes m ≡ Some mote → mote_refusal input mote ≡ None) }
        ensures refused { IfErr result (λ _. self.new ≡ self.old) }
        ensures why { IfErr result (λ fault. (mote : SessionView) → slice_get self.old.motes m ≡ Some mote → mote_refusal input mote ≡ Some fault) }
    {
        hand_in(&mut self.motes, m, input)?;
        self.active = Some(m);
        self.rounds = self.bound;
        Ok(())
    }

    /// Gives a mote the time, if it is behind, so that it can get an input from outside. Returns whether it was behind.
    ///
    /// # Errors
    ///
    /// `NotAtRest` where a mote is at work; `NoMote`; `Refused` where the mote refuses.
    pub fn catch_up(&mut self, m: usize) -> Result<bool, NetworkFault>
        ensures told { IfOk result (λ told. told ≡ true → IsToldTime m self.old self.new) }
        ensures untold { IfOk result (λ told. told ≡ false → self.new ≡ self.old) }
        ensures behind { IfOk result (λ told. IsSomeAnd (slice_get self.old.motes m) (λ mote. told ≡ nat_lt mote.machine.clock self.old.air.clock)) }
        ensures accepted { IfOk result (λ _. catch_up_refusal m self.old ≡ None) }
        ensures refused { IfErr result (λ fault. (catch_up_refusal m self.old ≡ Some fault) × (self.new ≡ self.old)) }
    {
        if self.active.is_some() {
            return Err(NetworkFault::NotAtRest);
        }
        if m >= self.motes.len() {
            return Err(NetworkFault::NoMote);
        }
        if self.motes[m].clock() >= self.medium.clock() {
            return Ok(false);
        }
        self.tell_time(m)?;
        Ok(true)
    }

    /// Before it rests, the mote at work makes no more than this many entries. Nothing is done.
    #[inline(always)]
    pub fn entries_are_few(&self)
        ensures { left_at_work self.now ≤ most_left_at_work }
    {
        if let Some(m) = self.active {
            self.motes[m].entries_are_few();
        }
    }

    /// The ticks since boot.
    pub fn clock(&self) -> u64
        ensures { result ≡ self.now.air.clock }
    {
        self.medium.clock()
    }

    /// The mote that is at work.
    pub fn active(&self) -> Option<usize>
        ensures { result ≡ self.now.active }
    {
        self.active
    }

    /// The links of a mote, each with what became of the frame that was sent over it last.
    pub fn links(&self, from: usize) -> &[Link]
        ensures { result.now ≡ links_from from self.now.air }
    {
        self.medium.links(from)
    }

    /// The mote with this number.
    pub fn mote(&self, m: usize) -> Option<&Session>
        ensures { option_copied result ≡ slice_get self.now.motes m }
    {
        self.motes.get(m)
    }
}
