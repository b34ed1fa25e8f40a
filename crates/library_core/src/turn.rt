//! A turn as C gets it.

ghost use Rattle.std.specs.Prelude.{◌≡◌, ◌≤◌, length};
ghost use Rattle.library_core.specs.TurnParts.{event_part, reply_part, with_bytes};
ghost use Rattle.library_core.specs.Turns.{no_stats, origin_number, plain_stats, reply_number, turn_told};

use mote_types::event::{Event, Origin, Payload, Pid, Stimulus};
use mote_types::reply::{HeapStats, Reply};

/// The state of the heap, as C gets it.
#[repr(C)]
#[derive(Clone, Copy, Drop)]
pub struct PlainStats {
    pub allocated: u32,
    pub overhead: u32,
    pub available: u32,
    pub footprint: u32,
    pub chunks: u32,
}

/// A turn that awaits its call: which application received what. Fields with no meaning for its stimulus are 0.
#[repr(C)]
#[derive(Drop)]
pub struct PlainTurn {
    /// The application: 4 to 19.
    pub process: u32,
    /// Where the stimulus comes from: 0 the event queue, 1 at once, 2 a poll, 3 a callback timer, 4 the process's own call.
    pub origin: u32,
    /// 0 an event, 1 a callback timer that has run out, 2 the reply to a call.
    pub stimulus: u32,
    /// The code of an event.
    pub event: u32,
    /// What an event carries: 0 nothing, 1 a number, 2 a line of bytes.
    pub payload: u32,
    /// What a reply is: 0 done, 1 refused, 2 a number, 3 a wide number, 4 yes or no, 5 bytes, 6 the state of the heap.
    pub reply: u32,
    /// The number that an event carries, that of a callback timer, that of a refusal, or a reply's: 0 and 1 are no and yes.
    pub number: u64,
    pub stats: PlainStats,
    /// How many bytes there are: those of a line or of a read.
    pub length: u32,
    /// After these the bytes are left as they were.
    pub bytes: [u8; 128],
}

/// No state of the heap.
const NO_STATS: PlainStats = PlainStats {
    allocated: 0,
    overhead: 0,
    available: 0,
    footprint: 0,
    chunks: 0,
};

fn origin_number(origin: Origin) -> u32
    ensures { result ≡ origin_number origin }
{
    match origin {
        Origin::Event => 0,
        Origin::Synch => 1,
        Origin::Poll => 2,
        Origin::Callback => 3,
        Origin::Answer => 4,
    }
}

fn plain_stats(stats: &HeapStats) -> PlainStats
    ensures { result ≡ plain_stats stats.now }
{
    PlainStats {
        allocated: stats.allocated,
        overhead: stats.overhead,
        available: stats.available,
        footprint: stats.footprint,
        chunks: stats.chunks,
    }
}

impl PlainTurn {
    /// Reports a turn.
    pub fn tell(&mut self, process: Pid, origin: Origin, stimulus: &Stimulus)
        ensures { self.new ≡ turn_told process.0 origin stimulus.now self.old.bytes }
    {
        self.process = u32::from(process.0);
        self.origin = origin_number(origin);
        self.event = 0;
        self.payload = 0;
        self.reply = 0;
        self.number = 0;
        self.stats = NO_STATS;
        self.length = 0;
        match stimulus {
            Stimulus::Event(event) => self.tell_event(event),
            Stimulus::Callback(timer) => {
                self.stimulus = 1;
                self.number = u64::from(*timer);
            }
            Stimulus::Answer(reply) => self.tell_reply(reply),
        }
    }

    /// Puts bytes to the front.
    fn put_bytes(&mut self, bytes: &[u8])
        requires { length bytes.now ≤ 128 }
        ensures { self.new ≡ with_bytes bytes.now self.old }
    {
        self.length = bytes.len() as u32;
        self.bytes[..bytes.len()].copy_from_slice(bytes);
    }

    /// Reports an event.
    fn tell_event(&mut self, event: &Event)
        requires clear { (self.old.number ≡ 0) × (self.old.length ≡ 0) }
        ensures { self.new ≡ event_part event.now self.old }
    {
        self.stimulus = 0;
        self.event = u32::from(event.code);
        match &event.payload {
            Payload::Empty => self.payload = 0,
            Payload::Num(number) => {
                self.payload = 1;
                self.number = u64::from(*number);
            }
            Payload::Line(line) => {
                self.payload = 2;
                self.put_bytes(line.as_slice());
            }
        }
    }

    /// Reports the reply to a call.
    fn tell_reply(&mut self, reply: &Reply)
        requires clear { (self.old.number ≡ 0) × (self.old.length ≡ 0) × (self.old.stats ≡ no_stats) }
        ensures { self.new ≡ reply_part reply.now self.old }
    {
        self.stimulus = 2;
        self.reply = reply_number(reply);
        match reply {
            Reply::Done => {}
            Reply::Refused(refusal) => self.number = u64::from(refusal.number()),
            Reply::Num(number) => self.number = u64::from(*number),
            Reply::Wide(number) => self.number = *number,
            Reply::Flag(flag) => self.number = u64::from(*flag),
            Reply::Bytes(bytes) => self.put_bytes(bytes.as_slice()),
            Reply::Stats(stats) => self.stats = plain_stats(stats),
        }
    }
}

/// What a reply is.
fn reply_number(reply: &Reply) -> u32
    ensures { result ≡ reply_number reply.now }
{
    match reply {
        Reply::Done => 0,
        Reply::Refused(_) => 1,
        Reply::Num(_) => 2,
        Reply::Wide(_) => 3,
        Reply::Flag(_) => 4,
        Reply::Bytes(_) => 5,
        Reply::Stats(_) => 6,
    }
}
