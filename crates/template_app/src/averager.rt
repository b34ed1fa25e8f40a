//! An application that averages measurements.

ghost use Rattle.std.specs.Prelude.{◌≡◌, ◌≤◌, ◌++◌, [], ◌∷◌, drop, length, sum};
ghost use Rattle.mote_text.specs.Script.{read_number};
ghost use Rattle.template_app.specs.Averager.{average_of, averager_says, command_answer, command_next, fresh, limit_answer, limit_next, measured, reply_answer, reply_next, sending_answer, sending_next};

use mote_kit::{chunk_of, number_line, read_number, same_bytes};
use mote_types::app::App;
use mote_types::call::Call;
use mote_types::event::{Event, INIT, PACKET, Payload, SERIAL_LINE, Stimulus};
use mote_types::reply::Reply;

/// The reply that is awaited.
#[derive(Clone, Copy, Drop)]
pub enum Stage {
    /// None that matters.
    Idle,
    /// The first byte of a frame.
    Reading,
    /// That the frame was released whose byte was a measurement.
    Taken,
    /// That there is a block for a frame which is to go out.
    Allocating,
    /// That the average is in the block.
    Writing,
    /// That the frame went out.
    Sending,
}

/// Takes the first byte of each frame for a measurement, and prints the average of the last eight, rounded down. The line
/// `show` on the serial line prints it once more, `send` sends it as a frame, and `count` prints the number of
/// measurements. With `limit 200` no larger byte is taken for a measurement from then on; `clear` forgets all.
#[derive(Drop)]
pub struct Averager {
    /// The last eight measurements, the latest one last; 0 at the front, where there were fewer.
    table: [u8; 8],
    /// The number of measurements. It saturates at its largest value.
    count: u32,
    /// The largest byte that is taken for a measurement.
    limit: u32,
    stage: Stage,
}

/// The sum of the table.
fn total_of(table: &[u8]) -> u32
    requires { length table.now ≤ 8 }
    ensures { result ≡ sum table.now }
{
    table.iter().map(|byte| u32::from(*byte)).sum()
}

/// Appends a measurement; the oldest one is dropped.
fn shift_in(table: &mut [u8; 8], byte: u8)
    ensures { table.new ≡ drop 1 table.old ++ byte ∷ [] }
{
    table.rotate_left(1);
    table[7] = byte;
}

impl Averager {
    /// Nothing was measured.
    pub fn new() -> Self
        ensures { result ≡ fresh }
    {
        Averager {
            table: [0; 8],
            count: 0,
            limit: 255,
            stage: Stage::Idle,
        }
    }

    /// The average of the last eight measurements, or of all if there were fewer; 0 where there was none.
    fn average(&self) -> u32
        ensures { result ≡ average_of self.now }
    {
        if self.count == 0 {
            0
        } else {
            total_of(&self.table) / self.count.min(8)
        }
    }

    /// One more measurement, where the byte is within the limit.
    fn measure(&mut self, byte: u8)
        ensures { self.new ≡ measured byte self.old }
    {
        if u32::from(byte) <= self.limit {
            shift_in(&mut self.table, byte);
            self.count = self.count.saturating_add(1);
        }
    }

    /// The command `limit` has arrived with this text after it.
    fn set_limit(&mut self, text: &[u8]) -> Call
        ensures call { result ≡ limit_answer (read_number text.now) }
        ensures state { self.new ≡ limit_next self.old (read_number text.now) }
    {
        match read_number(text) {
            Some(limit) => {
                self.limit = limit;
                Call::Print(number_line(limit))
            }
            None => Call::Print(chunk_of(b"no number\n")),
        }
    }

    /// A line has arrived.
    fn command(&mut self, line: &[u8]) -> Call
        ensures call { result ≡ command_answer self.old line.now }
        ensures state { self.new ≡ command_next self.old line.now }
    {
        if same_bytes(line, b"show") {
            Call::Print(number_line(self.average()))
        } else if same_bytes(line, b"count") {
            Call::Print(number_line(self.count))
        } else if same_bytes(line, b"clear") {
            *self = Averager::new();
            Call::Print(chunk_of(b"cleared\n"))
        } else if same_bytes(line, b"send") {
            self.stage = Stage::Allocating;
            Call::MmemAlloc(0, number_line(self.average()).len() as u32)
        } else if let Some(text) = line.strip_prefix(b"limit ") {
            self.set_limit(text)
        } else {
            Call::Wait
        }
    }

    /// Takes the reply to a call that sends a frame. After a refusal nothing is sent, and the block, if there is one, is
    /// freed.
    fn send_on(&mut self, reply: &Reply) -> Call
        ensures call { result ≡ sending_answer self.old self.old.stage reply.now }
        ensures state { self.new ≡ sending_next self.old self.old.stage reply.now }
    {
        match (self.stage, reply) {
            (Stage::Allocating, Reply::Done) => {
                self.stage = Stage::Writing;
                Call::MmemWrite(0, 0, number_line(self.average()))
            }
            (Stage::Writing, Reply::Done) => {
                self.stage = Stage::Sending;
                Call::PacketSend(0)
            }
            (Stage::Writing | Stage::Sending, _) => {
                self.stage = Stage::Idle;
                Call::MmemFree(0)
            }
            _ => {
                self.stage = Stage::Idle;
                Call::Wait
            }
        }
    }

    /// A reply has arrived.
    fn go_on(&mut self, reply: &Reply) -> Call
        ensures call { result ≡ reply_answer self.old reply.now }
        ensures state { self.new ≡ reply_next self.old reply.now }
    {
        match (self.stage, reply) {
            (Stage::Reading, Reply::Bytes(bytes)) if !bytes.is_empty() => {
                self.measure(bytes[0]);
                self.stage = Stage::Taken;
                Call::PacketDone
            }
            (Stage::Reading, _) => {
                self.stage = Stage::Idle;
                Call::PacketDone
            }
            (Stage::Taken, _) => {
                self.stage = Stage::Idle;
                Call::Print(number_line(self.average()))
            }
            _ => self.send_on(reply),
        }
    }
}

impl App for Averager {
    ghost says = { averager_says };

    fn turn(&mut self, stimulus: &Stimulus) -> Call {
        match stimulus {
            Stimulus::Event(Event { code: INIT, .. }) => {
                *self = Averager::new();
                Call::PacketOpen
            }
            Stimulus::Event(Event { code: PACKET, .. }) => {
                self.stage = Stage::Reading;
                Call::PacketRead(0, 1)
            }
            Stimulus::Event(
                Event {
                    code: SERIAL_LINE,
                    payload: Payload::Line(line),
                },
            ) => self.command(line.as_slice()),
            Stimulus::Answer(reply) => self.go_on(reply),
            _ => Call::Wait,
        }
    }
}
