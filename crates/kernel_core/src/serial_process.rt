//! Process 2 (serial line), which broadcasts the lines that arrived.

ghost use Rattle.std.specs.Prelude.{◌≡◌, false};
ghost use Rattle.kernel_core.specs.Code.Draws.{HasQueueableEvents};
ghost use Rattle.kernel_core.specs.SerialProcess as process;
ghost use Rattle.kernel_core.specs.Code.View.{machine_of, IsServed};

use crate::kernel_fields::KernelFields;
use device_core::serial_line::Line;
use mote_types::event::{CONTINUE, Event, Payload, SERIAL_LINE, SERIAL_PROCESS};

impl KernelFields {
    /// Broadcasts a line. It is lost where the queue is full.
    fn broadcast_line(&mut self, line: Line)
        requires events { HasQueueableEvents self.old }
        ensures machine { machine_of self.new ≡ process.broadcast_line line.items (machine_of self.old) }
        ensures kept { IsServed 0 self.old self.new }
        ensures same { self.new ≡ record self.old { scheduler = self.new.scheduler } }
    {
        let _ = self.scheduler.broadcast(Event {
            code: SERIAL_LINE,
            payload: Payload::Line(line),
        });
    }

    /// Posts CONTINUE, for which the process waits where the queue takes it.
    fn post_continue(&mut self)
        requires running { self.old.serial_waits ≡ false }
        requires events { HasQueueableEvents self.old }
        ensures machine { machine_of self.new ≡ process.post_continue (machine_of self.old) }
        ensures kept { IsServed 0 self.old self.new }
        ensures same { self.new ≡ record self.old { scheduler = self.new.scheduler; serial_waits = self.new.serial_waits } }
    {
        let event = Event {
            code: CONTINUE,
            payload: Payload::Empty,
        };
        self.serial_waits = self.scheduler.post(SERIAL_PROCESS, event).is_ok();
    }

    /// Broadcasts the lines in the ring, as long as the process need not wait. Where no whole line is left, all bytes are
    /// taken from the ring.
    fn empty_ring(&mut self)
        requires events { HasQueueableEvents self.old }
        ensures machine { machine_of self.new ≡ process.empty_ring (machine_of self.old) }
        ensures kept { IsServed 0 self.old self.new }
    {
        'ring: while !self.serial_waits {
            let Some(line) = self.serial.serve() else {
                return;
            };
            self.broadcast_line(line);
            self.post_continue();
        }
    }

    /// On POLL the ring is emptied, unless the process waits.
    pub fn poll_serial_line(&mut self)
        requires events { HasQueueableEvents self.old }
        ensures machine { machine_of self.new ≡ process.serial_line_polled (machine_of self.old) }
        ensures kept { IsServed 0 self.old self.new }
    {
        if !self.serial_waits {
            self.empty_ring();
        }
    }

    /// CONTINUE, from anybody, ends the wait, and the ring is emptied.
    pub fn continue_serial_line(&mut self)
        requires events { HasQueueableEvents self.old }
        ensures machine { machine_of self.new ≡ process.serial_line_continued (machine_of self.old) }
        ensures kept { IsServed 0 self.old self.new }
    {
        self.serial_waits = false;
        self.empty_ring();
    }
}
