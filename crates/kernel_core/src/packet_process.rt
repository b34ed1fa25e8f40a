//! Process 3 (packet), which announces frames to the receiver.

ghost use Rattle.std.specs.Prelude.{◌≡◌, true};
ghost use Rattle.mote_types.specs.Codes.{number_event};
ghost use Rattle.process_core.specs.Scheduler.{has_room};
ghost use Rattle.kernel_core.specs.Code.Draws.{HasQueueableEvents};
ghost use Rattle.kernel_core.specs.Code.View.{machine_of, IsServed, PostsOne};
ghost use Rattle.kernel_core.specs.Machine.{free_places};
ghost use Rattle.kernel_core.specs.PacketProcess as process;
ghost use Rattle.kernel_core.specs.Repeating.{times};
ghost use Rattle.kernel_core.specs.Code.KernelEvents.{exited_numbered};

use crate::kernel_fields::KernelFields;
use crate::kernel_processes::exited_application;
use mote_types::event::{Event, PACKET, PACKET_PROCESS, Payload};

fn packet_event(len: u8) -> Event
    ensures { result ≡ number_event PACKET len }
{
    Event {
        code: PACKET,
        payload: Payload::Num(u32::from(len)),
    }
}

impl KernelFields {
    /// Announces the next frame to the receiver, if there is a receiver and such a frame.
    fn announce_next(&mut self) -> bool
        requires room { has_room self.old.scheduler.state ≡ true }
        requires events { HasQueueableEvents self.old }
        ensures { PostsOne process.announce_next result self.old self.new }
    {
        let Some(receiver) = self.packets.receiver() else {
            return false;
        };
        let Some(frame) = self.packets.unannounced() else {
            return false;
        };
        let _ = self.scheduler.post(receiver, packet_event(frame.len));
        self.packets.announced();
        true
    }

    /// Announces frames to the receiver as long as the queue has room.
    fn announce_while_room(&mut self)
        requires events { HasQueueableEvents self.old }
        ensures machine { machine_of self.new ≡ times (free_places (machine_of self.old)) process.announce_next (machine_of self.old) }
        ensures kept { IsServed 0 self.old self.new }
    {
        while self.scheduler.has_room() {
            if !self.announce_next() {
                return;
            }
        }
    }

    /// Announces frames to the receiver as long as the queue has room. Where one is left, the process is polled again.
    pub fn announce(&mut self)
        requires events { HasQueueableEvents self.old }
        ensures machine { machine_of self.new ≡ process.announce (machine_of self.old) }
        ensures kept { IsServed 0 self.old self.new }
    {
        self.announce_while_room();
        if self.packets.receiver().is_some() && self.packets.unannounced().is_some() {
            self.scheduler.mark(PACKET_PROCESS);
        }
    }

    /// Where the receiver has ended there is none, and no frame counts as announced.
    pub fn forget_receiver(&mut self, number: u32)
        requires events { HasQueueableEvents self.old }
        ensures machine { machine_of self.new ≡ process.forget_receiver (exited_numbered number) (machine_of self.old) }
        ensures kept { IsServed 0 self.old self.new }
    {
        if let Some(pid) = exited_application(number) {
            self.packets.forget(pid);
        }
    }
}
