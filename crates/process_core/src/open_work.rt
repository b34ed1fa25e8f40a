//! The pieces of open work.

ghost use Rattle.std.specs.Prelude.{◌≡◌};
ghost use Rattle.mote_types.specs.declared.event.Stimulus.{Stimulus as Received};
ghost use Rattle.mote_types.specs.declared.event.Payload.{Payload as Carried};
ghost use Rattle.mote_types.specs.declared.reply.Reply.{Reply as Answered};

use crate::giving::plain_event;
use crate::walk::Walk;
use arrayvec::ArrayVec;
use mote_types::event::{Event, Payload, Pid, Stimulus};
use mote_types::reply::Reply;

/// Work within activations: a continuation of the stack, which means the items of the agenda that are left of it.
#[derive(Drop)]
pub enum Continuation {
    /// A process that has ended: the others that don't know it yet, and whether it then gets EXIT.
    Leave { pid: Pid, walk: Walk, exits: bool },
    /// A process within its activation, whose call was accepted and gets the reply Done.
    Answer(Pid),
}

/// What is done where no process is within an activation and no poll round is going on.
#[derive(Clone, Copy, Drop)]
pub enum Base {
    Nothing,
    /// The applications of the walk must be started.
    Boot,
    /// The first event must be delivered, perhaps after a poll round.
    Deliver { is_polled: bool },
    /// The receivers of the walk must get the event that is broadcast, each after a poll round; that of the next one may be
    /// over.
    Broadcast { is_polled: bool },
}

// Writes an event that carries a number. In place where the buffer has one: mostly the same one, as a receiver got it that waits.
#[inline(always)]
fn write_number(stimulus: &mut Stimulus, code: u8, number: u32)
    ensures { stimulus.new ≡ Received.Event (record { code = code; payload = Carried.Num number }) }
{
    match stimulus {
        Stimulus::Event(event) => {
            event.code = code;
            match &mut event.payload {
                Payload::Num(carried) => *carried = number,
                _ => event.payload = Payload::Num(number),
            }
        }
        _ => {
            *stimulus = Stimulus::Event(Event {
                code,
                payload: Payload::Num(number),
            });
        }
    }
}

/// Writes an event as a stimulus, without allocating memory; the event stays. The bytes of a line are copied once.
pub(crate) fn write_event(stimulus: &mut Stimulus, event: &Event)
    ensures { stimulus.new ≡ Received.Event event.now }
{
    match &event.payload {
        Payload::Line(line) => {
            *stimulus = Stimulus::Event(Event {
                code: event.code,
                payload: Payload::Line(ArrayVec::new()),
            });
            if let Stimulus::Event(
                Event {
                    payload: Payload::Line(copy),
                    ..
                },
            ) = stimulus
            {
                let _ = copy.try_extend_from_slice(line.as_slice());
            }
        }
        Payload::Num(number) => write_number(stimulus, event.code, *number),
        Payload::Empty => *stimulus = Stimulus::Event(plain_event(event.code)),
    }
}

// A separate function: it has room for bytes, which is cleared at its entry.
fn put_reply(slot: &mut Reply, reply: &Reply)
    ensures { slot.new ≡ reply.now }
{
    match reply {
        Reply::Done => *slot = Reply::Done,
        Reply::Refused(refusal) => *slot = Reply::Refused(*refusal),
        Reply::Num(n) => *slot = Reply::Num(*n),
        Reply::Wide(n) => *slot = Reply::Wide(*n),
        Reply::Flag(flag) => *slot = Reply::Flag(*flag),
        Reply::Bytes(bytes) => {
            *slot = Reply::Bytes(ArrayVec::new());
            if let Reply::Bytes(copy) = slot {
                let _ = copy.try_extend_from_slice(bytes.as_slice());
            }
        }
        Reply::Stats(stats) => *slot = Reply::Stats(*stats),
    }
}

// Prepares the buffer for a reply. A separate function: it has room for what it writes there, which is cleared at its
// entry.
#[inline(never)]
pub(crate) fn begin_reply(stimulus: &mut Stimulus)
    ensures { stimulus.new ≡ Received.Answer Answered.Done }
{
    *stimulus = Stimulus::Answer(Reply::Done);
}

// Writes a reply that carries something.
fn write_other_reply(stimulus: &mut Stimulus, reply: &Reply)
    ensures { stimulus.new ≡ Received.Answer reply.now }
{
    if !matches!(stimulus, Stimulus::Answer(_)) {
        begin_reply(stimulus);
    }
    if let Stimulus::Answer(slot) = stimulus {
        put_reply(slot, reply);
    }
}

/// Writes a reply as a stimulus; the reply stays. Most are Done, which the buffer often has from the turn before.
#[inline(always)]
pub(crate) fn write_reply(stimulus: &mut Stimulus, reply: &Reply)
    ensures { stimulus.new ≡ Received.Answer reply.now }
{
    if !matches!(reply, Reply::Done) {
        write_other_reply(stimulus, reply);
    } else if !matches!(stimulus, Stimulus::Answer(Reply::Done)) {
        begin_reply(stimulus);
    }
}

/// Writes a stimulus into a buffer, without allocating memory; the stimulus stays.
pub(crate) fn write_stimulus(buffer: &mut Stimulus, stimulus: &Stimulus)
    ensures { buffer.new ≡ stimulus.now }
{
    match stimulus {
        Stimulus::Event(event) => write_event(buffer, event),
        Stimulus::Answer(reply) => write_reply(buffer, reply),
        Stimulus::Callback(number) => *buffer = Stimulus::Callback(*number),
    }
}

// The slots of the stack that hold no continuation.
impl Default for Continuation {
    ghost is_default = { λ _. Unit {0} };

    fn default() -> Self {
        Continuation::Answer(Pid(0))
    }
}
