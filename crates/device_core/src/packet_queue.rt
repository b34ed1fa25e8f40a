//! The frames that are held for the receiver.

ghost use Rattle.std.specs.Prelude.{◌≡◌, ◌<◌, ◌≤◌, ◌↔◌, true, false, length, Some, None, IsNone, IsSome, IfSome};
ghost use Rattle.std.specs.Option.{option_map};
ghost use Rattle.device_core.specs.PacketQueue as packets;
ghost use Rattle.device_core.specs.Code.HeldFrames as packets_heldframes;
ghost use Rattle.device_core.specs.PacketQueue.{no_packets, is_full};
ghost use Rattle.device_core.specs.Code.HeldFrames.{IsWellFormed};

use crate::frame::Frame;
use arrayvec::ArrayVec;
use mote_types::event::Pid;
use std::marker::Model;

/// The largest number of held frames. Their slots are the numbers below it.
pub const MOST_FRAMES: usize = 8;

/// The held frames, in the order of arrival, the number of those announced to the receiver, and the application that
/// receives. The bytes of a frame are elsewhere, under its slot. Allocates no memory.
///
/// All of it is this project's profile.
#[derive(Drop)]
pub struct PacketQueue {
    frames: ArrayVec<Frame, MOST_FRAMES>,
    announced: u8,
    receiver: Option<Pid>,
}

impl Model for PacketQueue {
    ghost use Rattle.device_core.specs.PacketQueue.{PacketQueue as Packets};
    ghost use Rattle.device_core.specs.Code.PacketFields.{packets_of};
    ghost use Rattle.device_core.specs.Code.HeldFrames.{IsWellFormed};

    ghost Value = { Packets };

    ghost view = { λ q. packets_of q.frames.items q.announced q.receiver };

    ghost invariant = { λ q. IsWellFormed (packets_of q.frames.items q.announced q.receiver) };
}

impl PacketQueue {
    /// No frame, and no receiver.
    pub fn new() -> PacketQueue
        ensures { result ≡ no_packets }
    {
        PacketQueue {
            frames: ArrayVec::new(),
            announced: 0,
            receiver: None,
        }
    }

    /// A frame of `len` bytes has arrived: it is held as the last one. Returns its slot, the least from 0 to 7 that no
    /// held frame has. `None` exactly where 8 frames are held; then nothing changes.
    pub fn arrive(&mut self, len: u8) -> Option<u8>
        ensures refused { IsNone result ↔ (is_full self.old ≡ true) }
        ensures slot { result ≡ packets.free_slot self.old }
        ensures value { self.new ≡ packets_heldframes.arrived len self.old }
        ensures held { IfSome result (λ slot. self.new ≡ packets.with_frame slot len self.old) }
        ensures unused { IfSome result (λ slot. (slot < 8) × (packets.is_held self.old slot ≡ false)) }
    {
        let slot = self.free_slot()?;
        self.frames.push(Frame { slot, len });
        Some(slot)
    }

    /// The number of held frames, 0 to 8.
    pub fn held(&self) -> u8
        ensures count { result ≡ length self.now.frames }
        ensures standing { IsWellFormed self.now }
    {
        self.frames.len() as u8
    }

    /// The application that frames are for, if there is one.
    pub fn receiver(&self) -> Option<Pid>
        ensures { option_map packets_heldframes.receiver_number result ≡ self.now.receiver }
    {
        self.receiver
    }

    /// An application becomes the receiver.
    pub fn claim(&mut self, pid: Pid)
        requires nobody { self.old.receiver ≡ None }
        requires first { 4 ≤ pid.0 }
        requires last { pid.0 ≤ 19 }
        ensures { self.new ≡ packets.with_receiver pid.0 self.old }
    {
        self.receiver = Some(pid);
    }

    /// The held frame that arrived first.
    pub fn front(&self) -> Option<Frame>
        ensures frame { result ≡ packets.front self.now }
        ensures held { IsSome result ↔ (0 < length self.now.frames) }
        ensures within { IfSome result (λ frame. frame.slot < 8) }
    {
        self.frames.as_slice().first().copied()
    }

    /// The first frame that was not announced to the receiver.
    pub fn unannounced(&self) -> Option<Frame>
        ensures frame { result ≡ packets.unannounced self.now }
        ensures left { IsSome result ↔ (self.now.announced < length self.now.frames) }
    {
        self.frames.as_slice().get(self.announced as usize).copied()
    }

    /// Announces to the receiver the first frame that was not announced yet. `unannounced` says whether there is one.
    pub fn announced(&mut self)
        requires { self.old.announced < length self.old.frames }
        ensures { self.new ≡ packets.with_announced self.old }
    {
        self.announced += 1;
    }

    /// The receiver is done with the front frame, which is held no longer. Returns its slot. If it was announced, one
    /// frame fewer counts as announced. `front` and `held` say whether there is one.
    pub fn done(&mut self) -> u8
        requires { 0 < length self.old.frames }
        ensures slot { Some result ≡ packets.front_slot self.old }
        ensures value { self.new ≡ packets.without_front self.old }
        ensures within { result < 8 }
    {
        let frame = self.frames.remove(0);
        self.announced = self.announced.saturating_sub(1);
        frame.slot
    }

    /// An application has ended. If it was the receiver there is none now, and no frame counts as announced; the frames
    /// stay. Otherwise nothing changes.
    pub fn forget(&mut self, pid: Pid)
        ensures { self.new ≡ packets.forgotten pid.0 self.old }
    {
        if self.is_receiver(pid) {
            self.receiver = None;
            self.announced = 0;
        }
    }

    fn is_receiver(&self, pid: Pid) -> bool
        ensures { result ≡ packets.is_receiver self.now pid.0 }
    {
        self.receiver.is_some_and(|receiver| receiver.0 == pid.0)
    }

    /// Whether a held frame has the slot.
    fn is_held(&self, slot: u8) -> bool
        ensures { result ≡ packets.is_held self.now slot }
    {
        self.frames
            .as_slice()
            .iter()
            .any(|frame| frame.slot == slot)
    }

    #[tactic(auto, unfolding(crate::specs::PacketQueue::free_slot))]
    fn free_slot(&self) -> Option<u8>
        ensures { result ≡ packets.free_slot self.now }
    {
        for slot in 0..MOST_FRAMES as u8 {
            if !self.is_held(slot) {
                return Some(slot);
            }
        }
        None
    }
}
