//! How a call went.

ghost use Rattle.std.specs.Prelude.{◌≡◌, ◌≢◌, ◌≤◌, ◌<◌, length, take, drop};
ghost use Rattle.library_core.specs.Outcomes.{HasNoReason, line_of, refusal_application, refusal_call, refusal_line, refusal_reason, refusal_status, status_of};

use crate::refusal::Refusal;
use mote_kit::mote::Ran;
use mote_run::End;

/// The status where the transcript is longer than the room for it.
const NO_ROOM: u32 = 20;

/// How a call went.
#[repr(C)]
#[derive(Drop)]
pub struct Outcome {
    /// 0 the script was executed, 2 a malformed line, 3 the mote halted, 4 the script is too long: the statuses of `mote`.
    /// Otherwise there is no transcript: 16 the applications are no text, 17 a line names no application, 18 more than 16
    /// applications, 19 bad sizes, 20 no room for the transcript, 21 memory was refused.
    pub status: u32,
    /// The number, from 1 on, of the script's malformed line, or of the line that names no application; otherwise 0.
    pub line: u64,
    /// The number of bytes of the transcript, also with status 20; 0 with the other statuses from 16 on.
    pub length: usize,
    /// The reason, if it says more than the status; otherwise 0. With 19 the first size that is bad: 1 `mmem`, 2 `heap`, 3 `header`,
    /// 4 `quota`, 5 all quotas together exceed `mmem`. With 17: 6 no application has this name; the first part of a list that is
    /// no call 7 has the name of none, 8 too few words, 9 too many, 10 a word that is no number in its range, 11 a word that is no
    /// hex or too long; 12 a list has more than 128 calls.
    pub reason: u32,
    /// The application of statuses 17 and 18, from 0 on; otherwise 0.
    pub application: u32,
    /// The part of the list of reasons 7 to 11, from 0 on; otherwise 0.
    pub call: usize,
}

/// The status of a run that ended so, and the number of its malformed line.
fn end_numbers(end: End) -> (u32, u64)
    ensures status { result.0 ≡ status_of end }
    ensures line { result.1 ≡ line_of end }
    ensures small { result.0 ≤ 4 }
{
    match end {
        End::Finished => (0, 0),
        End::BadLine(number) => (2, number as u64),
        End::Halted => (3, 0),
        End::TooLong => (4, 0),
    }
}

/// The outcome of a run that ended so, with a transcript of this length.
fn run_outcome(end: End, length: usize) -> Outcome
    ensures status { result.status ≡ status_of end }
    ensures line { result.line ≡ line_of end }
    ensures small { result.status ≤ 4 }
    ensures length { result.length ≡ length }
    ensures no_reason { HasNoReason result }
{
    let (status, line) = end_numbers(end);
    Outcome {
        status,
        line,
        length,
        reason: 0,
        application: 0,
        call: 0,
    }
}

/// Writes the transcript of a run to the front of the buffer, and reports how the run ended; or that there is no room.
pub fn put_run(ran: Ran, transcript: &mut [u8], outcome: &mut Outcome)
    ensures text { outcome.new.status ≤ 4 → take outcome.new.length transcript.new ≡ ran.transcript.items }
    ensures status { outcome.new.status ≤ 4 → outcome.new.status ≡ status_of ran.end }
    ensures line { outcome.new.status ≤ 4 → outcome.new.line ≡ line_of ran.end }
    ensures fits { outcome.new.status ≤ 4 → outcome.new.length ≤ length transcript.new }
    ensures rest { outcome.new.status ≤ 4 → drop outcome.new.length transcript.new ≡ drop outcome.new.length transcript.old }
    ensures length { outcome.new.length ≡ length ran.transcript.items }
    ensures full { 4 < outcome.new.status → outcome.new.status ≡ 20 }
    ensures no_line { 4 < outcome.new.status → outcome.new.line ≡ 0 }
    ensures over { 4 < outcome.new.status → length transcript.old < outcome.new.length }
    ensures unchanged { 4 < outcome.new.status → transcript.new ≡ transcript.old }
    ensures no_reason { HasNoReason outcome.new }
{
    let text = ran.transcript.as_slice();
    let size = text.len();
    if size > transcript.len() {
        *outcome = Outcome {
            status: NO_ROOM,
            line: 0,
            length: size,
            reason: 0,
            application: 0,
            call: 0,
        };
        return;
    }
    transcript[..size].copy_from_slice(text);
    *outcome = run_outcome(ran.end, size);
}

/// The numbers of a refusal: its status, its reason, and its application and call.
fn refusal_numbers(refusal: Refusal) -> (u32, u32, u32, usize)
    ensures status { result.0 ≡ refusal_status refusal }
    ensures reason { result.1 ≡ refusal_reason refusal }
    ensures application { result.2 ≡ refusal_application refusal }
    ensures call { result.3 ≡ refusal_call refusal }
    ensures large { 4 < result.0 }
    ensures other { result.0 ≢ 20 }
{
    match refusal {
        Refusal::NotText => (16, 0, 0, 0),
        Refusal::NoApplication(number, reason) => (17, reason.number(), number, reason.call()),
        Refusal::TooManyApplications => (18, 0, 16, 0),
        Refusal::BadSizes(reason) => (19, reason.number(), 0, 0),
        Refusal::OutOfMemory => (21, 0, 0, 0),
    }
}

/// The line that names no application, from 1 on; otherwise 0.
fn line_number(refusal: Refusal) -> u64
    ensures { result ≡ refusal_line refusal }
{
    match refusal {
        Refusal::NoApplication(number, _) => u64::from(number) + 1,
        _ => 0,
    }
}

/// Reports why there was no run.
pub fn put_refusal(refusal: Refusal, outcome: &mut Outcome)
    ensures status { outcome.new.status ≡ refusal_status refusal }
    ensures line { outcome.new.line ≡ refusal_line refusal }
    ensures reason { outcome.new.reason ≡ refusal_reason refusal }
    ensures application { outcome.new.application ≡ refusal_application refusal }
    ensures call { outcome.new.call ≡ refusal_call refusal }
    ensures large { 4 < outcome.new.status }
    ensures other { outcome.new.status ≢ 20 }
    ensures empty { outcome.new.length ≡ 0 }
{
    let (status, reason, application, call) = refusal_numbers(refusal);
    *outcome = Outcome {
        status,
        line: line_number(refusal),
        length: 0,
        reason,
        application,
        call,
    };
}
