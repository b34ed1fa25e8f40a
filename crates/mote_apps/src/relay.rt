//! An application that sends each frame that it receives.

ghost use Rattle.std.specs.Prelude.{◌≡◌};
ghost use Rattle.mote_apps.specs.Relay.{relay_says, step_at};
ghost use Rattle.mote_apps.specs.declared.relay.Stage.{Stage};

use crate::calls::put_write;
use mote_types::app::App;
use mote_types::call::Call;
use mote_types::event::{Event, INIT, PACKET, Payload, Stimulus};
use mote_types::reply::Reply;

/// The bytes of one read.
const CHUNK: u8 = 64;

/// Which reply is awaited.
#[derive(Clone, Copy, Drop)]
pub enum Stage {
    /// None that matters.
    Idle,
    /// That of the allocation of a block for the frame.
    Allocating,
    /// The first bytes of the frame, at most 64.
    ReadingFront,
    /// That of writing them into the block.
    WritingFront,
    /// The bytes of the frame after its first 64.
    ReadingRest,
    /// That of writing them into the block.
    WritingRest,
    /// That of sending the block.
    Sending,
    /// That of freeing the block.
    Freeing,
    /// That of giving the frame back.
    Finishing,
}

/// Copies each frame that it receives into a managed block, sends the block, and gives block and frame back. A frame that
/// can't be copied is given back unsent (this project's profile).
#[derive(Drop)]
pub struct Relay {
    /// The length of the present frame, from 1 to 127 bytes.
    pub len: u8,
    pub stage: Stage,
}

impl Relay {
    /// It has received nothing.
    pub fn new() -> Self
        ensures { result ≡ record { len = 0; stage = Stage.Idle } }
    {
        Relay {
            len: 0,
            stage: Stage::Idle,
        }
    }

    /// Goes on to the next stage after a reply, by the call that leads to it.
    fn step(&mut self, reply: &Reply, call: &mut Call)
        ensures call { call.new ≡ (step_at self.old.stage self.old.len reply.now).1 }
        ensures state { self.new ≡ record self.old { stage = (step_at self.old.stage self.old.len reply.now).0 } }
    {
        match (self.stage, reply) {
            (Stage::Allocating, Reply::Done) => {
                self.stage = Stage::ReadingFront;
                *call = Call::PacketRead(0, self.len.min(CHUNK));
            }
            (Stage::ReadingFront, Reply::Bytes(bytes)) => {
                self.stage = Stage::WritingFront;
                put_write(call, 0, bytes.as_slice());
            }
            (Stage::WritingFront, Reply::Done) if self.len > CHUNK => {
                self.stage = Stage::ReadingRest;
                *call = Call::PacketRead(u32::from(CHUNK), self.len - CHUNK);
            }
            (Stage::ReadingRest, Reply::Bytes(bytes)) => {
                self.stage = Stage::WritingRest;
                put_write(call, u32::from(CHUNK), bytes.as_slice());
            }
            (Stage::WritingFront | Stage::WritingRest, Reply::Done) => {
                self.stage = Stage::Sending;
                *call = Call::PacketSend(0);
            }
            (Stage::Allocating | Stage::Freeing, _) => {
                self.stage = Stage::Finishing;
                *call = Call::PacketDone;
            }
            (Stage::Finishing | Stage::Idle, _) => {
                self.stage = Stage::Idle;
                *call = Call::Wait;
            }
            _ => {
                self.stage = Stage::Freeing;
                *call = Call::MmemFree(0);
            }
        }
    }
}

impl App for Relay {
    ghost says = { relay_says };

    fn turn(&mut self, stimulus: &Stimulus) -> Call {
        let mut call = Call::Wait;
        self.turn_into(stimulus, &mut call);
        call
    }

    #[inline(never)]
    fn turn_into(&mut self, stimulus: &Stimulus, call: &mut Call) {
        match stimulus {
            Stimulus::Event(Event { code: INIT, .. }) => {
                self.stage = Stage::Idle;
                *call = Call::PacketOpen;
            }
            Stimulus::Event(
                Event {
                    code: PACKET,
                    payload: Payload::Num(n),
                },
            ) if *n >= 1 && *n <= 127 => {
                self.len = *n as u8;
                self.stage = Stage::Allocating;
                *call = Call::MmemAlloc(0, *n);
            }
            Stimulus::Answer(reply) => self.step(reply, call),
            _ => *call = Call::Wait,
        }
    }
}
