//! A network that reports what happens, a line at a time.

ghost use Rattle.std.specs.Prelude.{◌≡◌, ◌≢◌, ◌<◌, ◌+◌, ◌++◌, [], true, false, is_some, slice_get, None, Some, IfErr, IfOk, IfSome, IfNone, IsErrOf, MatchOption};
ghost use Rattle.medium_core.specs.Code.Airs.{link_lists};
ghost use Rattle.mote_session.specs.SessionView.{SessionView};
ghost use Rattle.mote_session.specs.Voices.{Voices};
ghost use Rattle.network_session.specs.Steps.{IsNetworkSubmitted, IsNetworkSubmittedIfSaid};
ghost use Rattle.timer_core.specs.Deadlines.{next_deadline};
ghost use Rattle.network_steps.specs.Lines.{came_line, is_loss, loss_line, losses_left};
ghost use Rattle.network_steps.specs.Refusals.{awaited_turn, due_refusal, feed_refusal, is_from_outside, link_refusal, submit_refusal, tick_refusal, told_refusal, unrest};
ghost use Rattle.network_steps.specs.StepsView.{opened_steps, steps_over, unlinked};
ghost use Rattle.network_steps.specs.NetworkRuns.{IsResting};
ghost use Rattle.network_steps.specs.Code.Going.{GoesBy, StepsBy, StopsBy, came_if, came_in, entry_if, left_to_do, links_left};
ghost use Rattle.network_steps.specs.Code.Turns.{is_end_if, is_of_mote_if, is_open_if};
ghost use Rattle.network_steps.specs.Works.{GoesNext, IsRefused, TakesFeed, TakesLink, TakesTicks, ToldIfBehind, came_of, noted, sending_of};
ghost use Rattle.network_steps.specs.declared.came.Came.TheVariants.{Entry};
ghost use Rattle.network_steps.specs.declared.came.Phase.TheVariants.{Resting as Rests, Working as Works};
ghost use Rattle.network_steps.specs.declared.fault.StepsFault.{StepsFault};
ghost use Rattle.mote_session.specs.declared.refusal.SessionRefusal.{SessionRefusal};
ghost use Rattle.network_session.specs.declared.outcome.Outcome.TheVariants.{Rest as Rested};

use crate::came::{Came, Phase, Sending, Waiting};
use crate::came_lines::push_came;
use crate::fates::next_fate;
use crate::fault::{StepsFault, fault_of};
use crate::giving::{give_input, give_time};
use medium_core::link::Link;
use mote_session::call_source::CallSource;
use mote_session::caller::Caller;
use mote_session::refusal::SessionRefusal;
use mote_session::session::{Next, OpenTurn, Session};
use mote_text::output_buffer::OutputBuffer;
use mote_types::call::Call;
use mote_types::entry::Input;
use network_session::fault::{NetworkBootFault, NetworkFault};
use network_session::network::Network;
use network_session::outcome::Outcome;
use std::alloc::Global;
use std::marker::Model;

/// A list of links for each of this many motes, with none in it.
fn no_links(alloc: Global, motes: usize) -> Result<Vec<Vec<Link>>, StepsFault>
    ensures { IfOk result (λ lists. link_lists lists.items ≡ unlinked motes) }
{
    let mut lists = Vec::new(alloc);
    let mut made = 0;
    while made < motes {
        match lists.push(Vec::new(alloc)) {
            Ok(()) => made += 1,
            Err(_) => return Err(StepsFault::Memory),
        }
    }
    Ok(lists)
}

/// Whether it is serial bytes, or a frame, of at least one byte.
fn is_from_outside(input: &Input) -> bool
    ensures { result ≡ is_from_outside input.now }
{
    match input {
        Input::Tick(_) => false,
        Input::Serial(bytes) => !bytes.as_slice().is_empty(),
        Input::Frame(bytes) => !bytes.as_slice().is_empty(),
    }
}

/// A network, and what of it is still to be reported or handed over.
#[derive(Drop)]
pub struct NetworkSteps {
    network: Network,
    /// What happened last that has a line.
    last: Came,
    sending: Option<Sending>,
    waiting: Option<Waiting>,
    phase: Phase,
    /// How many more links can be added.
    free_links: u32,
}

impl Model for NetworkSteps {
    ghost use Rattle.network_steps.specs.StepsView.{StepsView};
    ghost use Rattle.network_steps.specs.Works.{RestsIf};

    ghost Value = { StepsView };

    ghost view = { λ s. record {
      net = s.network;
      last = s.last;
      sending = s.sending;
      waiting = s.waiting;
      phase = s.phase;
      free_links = s.free_links;
    } };

    ghost invariant = { λ s. RestsIf s.phase s.network };
}

impl NetworkSteps {
    /// A network of motes that were just booted, with no links, of which there can be `links`; room for `room` frames in flight,
    /// and at most `bound` rounds for each input.
    ///
    /// # Errors
    ///
    /// `Memory` where memory is refused.
    pub fn new(
        alloc: Global,
        motes: Vec<Session>,
        room: usize,
        links: u32,
        bound: u64,
    ) -> Result<NetworkSteps, StepsFault>
        ensures opened { IfOk result (λ steps. steps ≡ opened_steps motes.items room links bound) }
    {
        let lists = no_links(alloc, motes.len())?;
        match Network::new(alloc, motes, lists, room, bound) {
            Ok(network) => Ok(NetworkSteps {
                network,
                last: Came::Rest,
                sending: None,
                waiting: None,
                phase: Phase::Fresh,
                free_links: links,
            }),
            Err(_) => Err(StepsFault::Memory),
        }
    }

    /// The same over a network that was made. No links can be added.
    pub fn over(network: Network) -> NetworkSteps
        ensures { result ≡ steps_over network }
    {
        NetworkSteps {
            network,
            last: Came::Rest,
            sending: None,
            waiting: None,
            phase: Phase::Working,
            free_links: 0,
        }
    }

    /// The network.
    pub fn network(&self) -> &Network
        ensures { result.now ≡ self.now.net }
    {
        &self.network
    }

    /// Adds a link of mote `from`, after its other ones. It takes memory.
    ///
    /// # Errors
    ///
    /// `IsStarted` once `next` was called; `NoRoom` for a link too many; `BadLink` where the link isn't sound, or leads from or to a
    /// mote that doesn't exist; `Memory` where memory is refused.
    pub fn add_link(&mut self, from: usize, link: Link) -> Result<(), StepsFault>
        ensures added { IfOk result (λ _. TakesLink from link self.old self.new) }
        ensures accepted { IfOk result (λ _. link_refusal from link self.old ≡ None) }
        ensures refused { IfErr result (λ _. self.new ≡ self.old) }
        ensures why { IfErr result (λ fault. fault ≢ StepsFault.Memory → link_refusal from link self.old ≡ Some fault) }
    {
        if self.phase != Phase::Fresh {
            return Err(StepsFault::IsStarted);
        }
        if self.free_links == 0 {
            return Err(StepsFault::NoRoom);
        }
        if self.network.mote(link.to).is_none() {
            return Err(StepsFault::BadLink);
        }
        match self.network.add_link(from, link) {
            Ok(()) => {
                self.free_links -= 1;
                Ok(())
            }
            Err(NetworkBootFault::BadLink) => Err(StepsFault::BadLink),
            Err(NetworkBootFault::Memory) => Err(StepsFault::Memory),
        }
    }

    /// Works to the next thing that has a line, to a turn, or to rest.
    ///
    /// # Errors
    ///
    /// `Refused(AwaitsCall)` where a turn awaits its call, and nothing has changed. Otherwise only what the network refuses: its next
    /// step, or at rest the input that waits. That is `Refused(TooManyInputs)`, where a mote was handed 2^40 inputs.
    pub fn next(&mut self) -> Result<Came, StepsFault>
        ensures went { IfOk result (λ came. GoesNext came self.old self.new) }
        ensures closed { IfOk result (λ _. awaited_turn self.old.net ≡ None) }
        ensures failed { IfErr result (λ fault. IsRefused fault self.old.net self.old.waiting self.new.net) }
        ensures awaits { awaited_turn self.old.net ≢ None
            → IsErrOf result (StepsFault.Refused SessionRefusal.AwaitsCall) × (self.new ≡ self.old) }
    {
        if self.turn().is_some() {
            return Err(StepsFault::Refused(SessionRefusal::AwaitsCall));
        }
        if let Some(came) = self.next_loss() {
            return Ok(came);
        }
        match self.go_on() {
            Ok(came) => Ok(came),
            Err(fault) => Err(fault_of(fault)),
        }
    }

    /// Works to the next step that is reported, where nothing is left to be reported.
    fn go_on(&mut self) -> Result<Came, NetworkFault>
        requires reported { self.old.sending ≡ None }
        ensures went { IfOk result (λ came. (voices : Voices) → GoesBy came self.old self.new voices voices) }
        ensures failed { IfErr result (λ cause. (voices : Voices) → StopsBy cause self.old self.new.net voices voices) }
    {
        self.phase = Phase::Working;
        while !self.step_on()? {}
        Ok(self.came())
    }

    /// Does the next step, and has `caller` make the call of an application that must take a turn, and submits it: the turn is an entry.
    /// Returns what is reported of the step, if anything is. Nothing may be left to be reported (`next_loss`), and neither rest nor a halt
    /// was reported since the last input.
    ///
    /// # Errors
    ///
    /// What the network refuses: its next step, or at rest the input that waits.
    #[inline(always)]
    #[tactic(auto, using(crate::proofs::Going::closed_apart))]
    pub fn step_by<H: Caller>(&mut self, caller: &mut H) -> Result<Option<Came>, NetworkFault>
        requires works { self.old.phase ≡ Works }
        requires reported { self.old.sending ≡ None }
        ensures steps { IfOk result (λ came. StepsBy came self.old self.new (H.voices caller.old) (H.voices caller.new)) }
        ensures called { IfOk result (λ came. is_open_if came ≡ false) }
        ensures nearer { IfOk result (λ came. is_end_if came ≡ false → left_to_do self.new < left_to_do self.old) }
        ensures failed { IfErr result (λ cause. StopsBy cause self.old self.new.net (H.voices caller.old) (H.voices caller.old)) }
    {
        match self.network.active() {
            Some(mote) => {
                if self.work_by(mote, caller)? {
                    Ok(Some(Came::Entry(mote)))
                } else {
                    Ok(None)
                }
            }
            None => {
                if self.step_on()? {
                    Ok(Some(self.came()))
                } else {
                    Ok(None)
                }
            }
        }
    }

    /// Lets the mote that is at work make an entry, with the call of a turn, or come to rest: `step_by` with a mote at work. Returns
    /// whether it made an entry.
    ///
    /// # Errors
    ///
    /// What the network refuses: its next step.
    // Part of the loop of a network's run: see docs/performance.md.
    #[inline(always)]
    pub fn work_by<H: Caller>(&mut self, mote: usize, caller: &mut H) -> Result<bool, NetworkFault>
        requires active { self.old.net.active ≡ Some mote }
        requires works { self.old.phase ≡ Works }
        requires reported { self.old.sending ≡ None }
        ensures steps { IfOk result (λ made. StepsBy (entry_if made mote) self.old self.new (H.voices caller.old) (H.voices caller.new)) }
        ensures nearer { IfOk result (λ _. left_to_do self.new < left_to_do self.old) }
        ensures failed { IfErr result (λ cause. StopsBy cause self.old self.new.net (H.voices caller.old) (H.voices caller.old)) }
    {
        match self.network.work_by(mote, caller)? {
            Next::Turn => {
                // No turn sends a frame: that is a note of its own.
                self.last = Came::Entry(mote);
                Ok(true)
            }
            Next::Entry => {
                self.last = Came::Entry(mote);
                self.note_sent(mote);
                Ok(true)
            }
            Next::Rest => Ok(false),
            Next::Halted => Ok(false),
        }
    }

    /// Does the next step, and leaves the call of a turn to be made. Returns whether the step is reported (`came`). Nothing may be left to
    /// be reported, as of `step_by`.
    ///
    /// # Errors
    ///
    /// What the network refuses: its next step, or at rest the input that waits.
    // Out of the way of entries.
    #[inline(never)]
    pub fn step_on(&mut self) -> Result<bool, NetworkFault>
        requires works { self.old.phase ≡ Works }
        requires reported { self.old.sending ≡ None }
        ensures steps { IfOk result (λ reported. (voices : Voices) → StepsBy (came_if reported self.new) self.old self.new voices voices) }
        ensures apart { self.old.net.active ≡ None → IfOk result (λ reported. is_of_mote_if (came_if reported self.new) ≡ false) }
        ensures nearer { IfOk result (λ reported. is_open_if (came_if reported self.new) ≡ false → is_end_if (came_if reported self.new) ≡ false →
            left_to_do self.new < left_to_do self.old) }
        ensures failed { IfErr result (λ cause. (voices : Voices) → StopsBy cause self.old self.new.net voices voices) }
    {
        let outcome = self.network.step()?;
        self.network.entries_are_few();
        match outcome {
            Outcome::Rest => self.rest(),
            _ => Ok(self.come_if(outcome)),
        }
    }

    /// What was reported last.
    #[inline(always)]
    pub fn came(&self) -> Came
        ensures { result ≡ came_in self.now }
    {
        match self.phase {
            Phase::Resting => Came::Rest,
            Phase::Fresh | Phase::Working | Phase::Exhausted => self.last,
        }
    }

    /// Whether a frame was just sent, and its losses may still have to be reported.
    pub fn has_sent(&self) -> bool
        ensures { result ≡ is_some self.now.sending }
    {
        self.sending.is_some()
    }

    /// Forgets what became of the frame that was just sent.
    pub fn skip_losses(&mut self)
        ensures { self.new ≡ record self.old { sending = None } }
    {
        self.sending = None;
    }

    /// Reports the next link that didn't carry the frame which was just sent, if there is one.
    pub fn next_loss(&mut self) -> Option<Came>
        ensures some { IfSome result (λ came. (self.new ≡ record self.old { last = came; sending = self.new.sending; phase = Works })
            × (losses_left self.old.sending self.old.net ≡ loss_line came ++ losses_left self.new.sending self.old.net)) }
        ensures loss { IfSome result (λ came. is_loss came ≡ true) }
        ensures fewer { IfSome result (λ came. links_left self.new.sending self.old.net < links_left self.old.sending self.old.net) }
        ensures none { IfNone result ((self.new ≡ record self.old { sending = None }) × (losses_left self.old.sending self.old.net ≡ [])) }
    {
        let sending = self.sending?;
        let links = self.network.links(sending.from);
        match next_fate(sending.from, links, sending.place) {
            Some((came, place)) => {
                self.sending = Some(Sending {
                    from: sending.from,
                    place,
                });
                self.last = came;
                self.phase = Phase::Working;
                Some(came)
            }
            None => {
                self.sending = None;
                None
            }
        }
    }

    /// At rest hands over the input that waits for it; without one, rests. Returns whether something is reported.
    fn rest(&mut self) -> Result<bool, NetworkFault>
        requires rests { IsResting self.old.net }
        requires works { self.old.phase ≡ Works }
        requires reported { self.old.sending ≡ None }
        ensures steps { IfOk result (λ reported. (voices : Voices) → StepsBy (came_if reported self.new) self.old self.new voices voices) }
        ensures apart { IfOk result (λ reported. is_of_mote_if (came_if reported self.new) ≡ false) }
        ensures nearer { IfOk result (λ reported. is_end_if (came_if reported self.new) ≡ false → left_to_do self.new < left_to_do self.old) }
        ensures failed { IfErr result (λ cause. (voices : Voices) → StopsBy cause self.old self.new.net voices voices) }
    {
        match self.waiting.take() {
            Some(waiting) => self.hand_over(waiting),
            None => {
                self.phase = Phase::Resting;
                Ok(true)
            }
        }
    }

    /// Hands an input from outside to its mote. Returns whether something is reported: one that was halted hears nothing.
    fn hand_over(&mut self, waiting: Waiting) -> Result<bool, NetworkFault>
        requires rests { IsResting self.old.net }
        requires works { self.old.phase ≡ Works }
        requires reported { self.old.sending ≡ None }
        requires taken { self.old.waiting ≡ None }
        ensures steps { IfOk result (λ reported. (voices : Voices) →
            StepsBy (came_if reported self.new) (record self.old { waiting = Some waiting }) self.new voices voices) }
        ensures apart { IfOk result (λ reported. is_of_mote_if (came_if reported self.new) ≡ false) }
        ensures nearer { IfOk result (λ _. left_to_do self.new < left_to_do (record self.old { waiting = Some waiting })) }
        ensures failed { IfErr result (λ cause. (voices : Voices) →
            StopsBy cause (record self.old { waiting = Some waiting }) self.new.net voices voices) }
    {
        let Waiting { mote, input } = waiting;
        if give_input(&mut self.network, mote, input)? {
            self.network.entries_are_few();
            return Ok(false);
        }
        self.last = Came::Unheard(mote);
        Ok(true)
    }

    /// Notes that a mote's last entry sent a frame, if it did.
    #[inline(always)]
    fn note_sent(&mut self, mote: usize)
        requires reported { self.old.sending ≡ None }
        ensures { self.new ≡ record self.old { sending = sending_of (Entry mote) self.old.net } }
    {
        if let Some(session) = self.network.mote(mote)
            && session.sent().is_some()
        {
            self.sending = Some(Sending {
                from: mote,
                place: 0,
            });
        }
    }

    /// Notes what a step came to, if that is reported. Returns whether it is.
    fn come_if(&mut self, outcome: Outcome) -> bool
        requires apart { outcome ≢ Rested }
        requires works { self.old.phase ≡ Works }
        requires reported { self.old.sending ≡ None }
        ensures reported { result ≡ is_some (came_of outcome) }
        ensures noted { MatchOption (came_of outcome) (self.new ≡ self.old) (λ came. self.new ≡ noted came self.old) }
    {
        match outcome {
            Outcome::Worked(mote, Next::Turn) => self.last = Came::Turn(mote),
            Outcome::Worked(mote, Next::Entry) => {
                self.last = Came::Entry(mote);
                self.note_sent(mote);
            }
            Outcome::Missed(from, to) => self.last = Came::Missed(from, to),
            Outcome::Clock => self.last = Came::Clock,
            Outcome::Exhausted => {
                self.last = Came::Exhausted;
                self.phase = Phase::Exhausted;
            }
            Outcome::Rest
            | Outcome::Worked(_, Next::Rest)
            | Outcome::Worked(_, Next::Halted)
            | Outcome::Started(_)
            | Outcome::Woken(_)
            | Outcome::Heard(_) => return false,
        }
        true
    }

    /// Submits the call of the application whose turn it is.
    ///
    /// # Errors
    ///
    /// `Refused(NoTurn)` where no turn awaits a call.
    pub fn submit(&mut self, call: Call) -> Result<(), StepsFault>
        ensures submitted { IfOk result (λ _. IsNetworkSubmitted call self.old.net self.new.net × (self.new ≡ record self.old { net = self.new.net })) }
        ensures accepted { IfOk result (λ _. submit_refusal self.old ≡ None) }
        ensures refused { IfErr result (λ fault. (submit_refusal self.old ≡ Some fault) × (self.new ≡ self.old)) }
    {
        match self.network.submit(call) {
            Ok(()) => Ok(()),
            Err(fault) => Err(fault_of(fault)),
        }
    }

    /// Submits the call that `source` says as `submit`, if it says one. Returns whether it does: if not, nothing has changed.
    ///
    /// # Errors
    ///
    /// `Refused(NoTurn)` where no turn awaits a call.
    pub fn submit_from<S: CallSource>(&mut self, source: &S) -> Result<bool, StepsFault>
        ensures is_said { IfOk result (λ is_said. is_said ≡ is_some (S.said source.now)) }
        ensures submitted { IfOk result (λ _. IsNetworkSubmittedIfSaid (S.said source.now) self.old.net self.new.net × (self.new ≡ record self.old { net = self.new.net })) }
        ensures accepted { IfOk result (λ _. submit_refusal self.old ≡ None) }
        ensures refused { IfErr result (λ fault. (submit_refusal self.old ≡ Some fault) × (self.new ≡ self.old)) }
    {
        match self.network.submit_from(source) {
            Ok(is_said) => Ok(is_said),
            Err(fault) => Err(fault_of(fault)),
        }
    }

    /// Refuses where the network doesn't rest.
    fn test_rest(&self) -> Result<(), StepsFault>
        ensures accepted { IfOk result (λ _. unrest self.now ≡ None) }
        ensures refused { IfErr result (λ fault. unrest self.now ≡ Some fault) }
    {
        if self.turn().is_some() {
            return Err(StepsFault::Refused(SessionRefusal::AwaitsCall));
        }
        match self.phase {
            Phase::Resting => Ok(()),
            Phase::Exhausted => Err(StepsFault::Refused(SessionRefusal::Halted)),
            Phase::Fresh | Phase::Working => Err(StepsFault::Refused(SessionRefusal::NotAtRest)),
        }
    }

    /// Lets the clock go on by `ticks`, which `next` does.
    ///
    /// # Errors
    ///
    /// `Refused`: `AwaitsCall`, `Halted` or `NotAtRest` where the network doesn't rest; `TooManyInputs` where the clock would exceed
    /// 2^62.
    pub fn tick(&mut self, ticks: u32) -> Result<(), StepsFault>
        ensures passes { IfOk result (λ _. TakesTicks ticks self.old self.new) }
        ensures accepted { IfOk result (λ _. tick_refusal ticks self.old ≡ None) }
        ensures refused { IfErr result (λ fault. (tick_refusal ticks self.old ≡ Some fault) × (self.new ≡ self.old)) }
    {
        self.test_rest()?;
        match self.network.pass_time(ticks) {
            Ok(()) => {
                self.phase = Phase::Working;
                Ok(())
            }
            Err(fault) => Err(fault_of(fault)),
        }
    }

    /// Submits serial bytes or a frame for a mote. `next` passes them to the mote once it has got the time.
    ///
    /// # Errors
    ///
    /// `Refused`: `AwaitsCall`, `Halted` or `NotAtRest` where the network doesn't rest; then `NoMote`; then `Refused`: `NoInput` for
    /// a tick, or no bytes; `TooManyInputs` where the mote can't get the time, since it already got 2^40 inputs.
    pub fn feed(&mut self, mote: usize, input: Input) -> Result<(), StepsFault>
        ensures waits { IfOk result (λ _. TakesFeed mote input self.old self.new) }
        ensures accepted { IfOk result (λ _. feed_refusal mote input self.old ≡ None) }
        ensures refused { IfErr result (λ fault. (feed_refusal mote input self.old ≡ Some fault) × (self.new ≡ self.old)) }
    {
        self.test_rest()?;
        if self.network.mote(mote).is_none() {
            return Err(StepsFault::NoMote);
        }
        if !is_from_outside(&input) {
            return Err(StepsFault::Refused(SessionRefusal::NoInput));
        }
        self.tell_if_behind(mote)?;
        self.waiting = Some(Waiting { mote, input });
        Ok(())
    }

    /// Gives a mote the time, if it is behind and wasn't halted.
    fn tell_if_behind(&mut self, mote: usize) -> Result<(), StepsFault>
        requires there { slice_get self.old.net.motes mote ≢ None }
        requires rests { self.old.phase ≡ Rests }
        ensures told { IfOk result (λ _. ToldIfBehind mote self.old.net self.new.net) }
        ensures same { IfOk result (λ _. self.new ≡ record self.old { net = self.new.net; phase = Works }) }
        ensures accepted { IfOk result (λ _. told_refusal mote (slice_get self.old.net.motes mote) self.old.net ≡ None) }
        ensures refused { IfErr result (λ fault. (told_refusal mote (slice_get self.old.net.motes mote) self.old.net ≡ Some fault) × (self.new ≡ self.old)) }
    {
        match give_time(&mut self.network, mote) {
            Ok(_) => {
                self.phase = Phase::Working;
                Ok(())
            }
            Err(fault) => Err(fault_of(fault)),
        }
    }

    /// Replaces the buffer's content with the line of what happened last: of a mote's entry with the mote's number in front. Clears
    /// it where nothing has happened yet, or the last turn awaits its call.
    pub fn line_into(&self, text: &mut OutputBuffer)
        ensures { text.new.items ≡ came_line self.now.last self.now.net }
    {
        text.clear();
        push_came(self.last, &self.network, text);
    }

    /// The turn that awaits its call, if one does.
    pub fn turn(&self) -> Option<OpenTurn<'_>>
        ensures some { IfSome result (λ turn.
            awaited_turn self.now.net ≡ Some (record { process = turn.process; origin = turn.origin; stimulus = turn.stimulus.now })) }
        ensures none { IfNone result (awaited_turn self.now.net ≡ None) }
    {
        let m = self.network.active()?;
        self.network.mote(m)?.turn()
    }

    /// The ticks since boot.
    pub fn clock(&self) -> u64
        ensures { result ≡ self.now.net.air.clock }
    {
        self.network.clock()
    }

    /// When the next timer of a mote runs out, if any is set.
    ///
    /// # Errors
    ///
    /// `NoMote`.
    pub fn due(&self, mote: usize) -> Result<Option<u64>, StepsFault>
        ensures due { IfOk result (λ due. (there : SessionView) → slice_get self.now.net.motes mote ≡ Some there → due ≡ next_deadline there.machine.timers) }
        ensures accepted { IfOk result (λ _. due_refusal mote self.now ≡ None) }
        ensures refused { IfErr result (λ fault. due_refusal mote self.now ≡ Some fault) }
    {
        match self.network.mote(mote) {
            Some(session) => Ok(session.next_deadline()),
            None => Err(StepsFault::NoMote),
        }
    }
}
