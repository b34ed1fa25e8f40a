//! What the layer above reports after a job: how a turn ended, or that an expiry counts.

ghost use Rattle.std.specs.Prelude.{◌≡◌, ◌≤◌, Some, length};
ghost use Rattle.mote_types.specs.declared.event.Stimulus.{Stimulus as Received};
ghost use Rattle.mote_types.specs.declared.reply.Reply.{Reply as Answered};
ghost use Rattle.process_core.specs.Requests as request;
ghost use Rattle.process_core.specs.Code.Items as request_items;
ghost use Rattle.process_core.specs.Code.SchedulerView.{awaiting_nothing};

use crate::front::Front;
use crate::open_work::{Continuation, begin_reply};
use crate::scheduler::Scheduler;
use crate::state::State;
use arrayvec::ArrayVec;
use mote_types::event::{Pid, Stimulus};
use mote_types::reply::Reply;

/// Stores a reply in place of the last one.
fn store_reply(stored: &mut Stimulus, reply: Reply)
    ensures { stored.new ≡ Received.Answer reply }
{
    match stored {
        Stimulus::Answer(last) => *last = reply,
        _ => *stored = Stimulus::Answer(reply),
    }
}

/// Writes bytes as a reply.
#[inline(always)]
fn put_bytes(slot: &mut Reply, bytes: &[u8])
    requires { length bytes.now ≤ 64 }
    ensures { slot.new ≡ Answered.Bytes (record { items = bytes.now }) }
{
    *slot = Reply::Bytes(ArrayVec::new());
    if let Reply::Bytes(stored) = slot {
        let _ = stored.try_extend_from_slice(bytes);
    }
}

/// Stores bytes as a reply in place of the last one, which moves less than a whole stimulus.
#[inline(always)]
fn store_bytes(stored: &mut Stimulus, bytes: &[u8])
    requires { length bytes.now ≤ 64 }
    ensures { stored.new ≡ Received.Answer (Answered.Bytes (record { items = bytes.now })) }
{
    if !matches!(stored, Stimulus::Answer(_)) {
        begin_reply(stored);
    }
    if let Stimulus::Answer(last) = stored {
        put_bytes(last, bytes);
    }
}

impl Scheduler {
    /// The process at turn made a call that ended no activation, and gets this reply at once, in its next turn. Not
    /// called where `synch`, `start` or `kill` was accepted.
    pub fn answered(&mut self, caller: Pid, reply: Reply)
        requires { self.old.turn ≡ Some caller }
        ensures { self.new ≡ awaiting_nothing (request.answered caller.0 reply self.old.state)
            (record self.old.kept { reply = Received.Answer reply }) }
    {
        // Where both say Done nothing is moved: a reply has room for bytes.
        if !matches!(reply, Reply::Done)
            || !matches!(self.fields.reply, Stimulus::Answer(Reply::Done))
        {
            store_reply(&mut self.fields.reply, reply);
        }
        self.fields.front = Front::Answer(caller);
    }

    /// As `answered`, where the reply has the bytes of a read: they are put where it is stored.
    pub fn answered_bytes(&mut self, caller: Pid, bytes: &[u8])
        requires turn { self.old.turn ≡ Some caller }
        requires few { length bytes.now ≤ 64 }
        ensures { self.new ≡ awaiting_nothing
            (request.answered caller.0 (Answered.Bytes (record { items = bytes.now })) self.old.state)
            (record self.old.kept { reply = Received.Answer (Answered.Bytes (record { items = bytes.now })) }) }
    {
        store_bytes(&mut self.fields.reply, bytes);
        self.fields.front = Front::Answer(caller);
    }

    /// The process at turn waits: its activation ends and it runs on, unless it got EXIT.
    pub fn waited(&mut self, caller: Pid)
        requires { self.old.turn ≡ Some caller }
        ensures { self.new ≡ awaiting_nothing (request.waited caller.0 self.old.state) self.old.kept }
    {
        self.fields.front = Front::Nothing;
        match self.fields.processes.state_of(caller) {
            State::Ending => {}
            _ => self.fields.processes.set_state(caller, State::Running),
        }
    }

    /// The process at turn exits: the others on the list get EXITED, then it leaves the list. Where it got EXIT, only
    /// its activation ends.
    pub fn ended(&mut self, caller: Pid)
        requires { self.old.turn ≡ Some caller }
        ensures { self.new ≡ awaiting_nothing (request.ended caller.0 self.old.state) self.old.kept }
    {
        self.fields.front = Front::Nothing;
        match self.fields.processes.state_of(caller) {
            State::Ending => {}
            _ => {
                let walk = self.fields.processes.walk_others(caller);
                self.fields.processes.set_state(caller, State::Leaving);
                self.fields.stack.push(Continuation::Leave {
                    pid: caller,
                    walk,
                    exits: false,
                });
            }
        }
    }

    /// The expiry that `next_to` has just returned counts: the process gets the callback, if it runs.
    pub fn give_callback(&mut self, pid: Pid, number: u8)
        requires { self.old.callback ≡ Some (pid, number) }
        ensures { self.new ≡ awaiting_nothing (request_items.called_back pid.0 number self.old.state) self.old.kept }
    {
        self.fields.front = Front::Callback { pid, number };
    }
}
