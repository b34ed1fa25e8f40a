//! The entries that are made before any other work.

ghost use Rattle.std.specs.Prelude.{◌≡◌, ◌≤◌, ◌∷◌, ℕ, [], false, length, None, Some};
ghost use Rattle.mote_types.specs.Entries.{is_halt};
ghost use Rattle.mote_types.specs.declared.entry.Entry.{Entry as Made};
ghost use Rattle.mote_types.specs.declared.entry.Input.{Input as Handed};
ghost use Rattle.mote_types.specs.declared.entry.Note.{Note as Noted};
ghost use Rattle.process_core.specs.Agenda.{Item};
ghost use Rattle.process_core.specs.Idle.{is_empty};
ghost use Rattle.kernel_core.specs.Code.Pending.{no_pending_entries, note_items, pending_items, waiting_input};
ghost use Rattle.kernel_core.specs.declared.pending_entries.WaitingInput as Waits;
ghost use Rattle.kernel_core.specs.Run.{heard};

use arrayvec::ArrayVec;
use mote_types::entry::{Entry, Input, Note};
use mote_types::refusal::Refusal;
use std::marker::Model;

/// Writes the entry of a tick into a buffer, which has something else.
// Functions of their own, here and below: what they have room for is cleared at their entry.
#[inline(never)]
fn write_tick(made: &mut Entry, ticks: u32)
    ensures { made.new ≡ Made.Input (Handed.Tick ticks) }
{
    *made = Entry::Input(Input::Tick(ticks));
}

/// Writes the entry of a tick into a buffer.
fn put_tick(made: &mut Entry, ticks: u32)
    ensures { made.new ≡ Made.Input (Handed.Tick ticks) }
{
    match made {
        // Another kind of entry is overwritten whole, with zeros after the number.
        Entry::Input(Input::Tick(number)) => *number = ticks,
        _ => write_tick(made, ticks),
    }
}

/// Writes the entry of a sent frame into a buffer, which has something else.
#[inline(never)]
fn write_sent(made: &mut Entry, bytes: &[u8])
    requires { length bytes.now ≤ 127 }
    ensures { made.new ≡ Made.Note (Noted.Sent (record { items = bytes.now })) }
{
    *made = Entry::Note(Note::Sent(ArrayVec::new()));
    if let Entry::Note(Note::Sent(sent)) = made {
        let _ = sent.try_extend_from_slice(bytes);
    }
}

/// Writes the entry of a sent frame into a buffer: in place, where that has one of as many bytes, as it has after most frames.
fn put_sent(made: &mut Entry, bytes: &[u8])
    requires { length bytes.now ≤ 127 }
    ensures { made.new ≡ Made.Note (Noted.Sent (record { items = bytes.now })) }
{
    match made {
        Entry::Note(Note::Sent(sent)) if sent.len() == bytes.len() => {
            sent.as_mut_slice().copy_from_slice(bytes);
        }
        _ => write_sent(made, bytes),
    }
}

/// Writes the entry of serial bytes into a buffer.
#[inline(never)]
fn write_serial(made: &mut Entry, bytes: &[u8])
    requires { length bytes.now ≤ 256 }
    ensures { made.new ≡ Made.Input (Handed.Serial (record { items = bytes.now })) }
{
    *made = Entry::Input(Input::Serial(ArrayVec::new()));
    if let Entry::Input(Input::Serial(serial)) = made {
        let _ = serial.try_extend_from_slice(bytes);
    }
}

/// Writes the entry of a frame that arrived into a buffer.
#[inline(never)]
fn write_frame(made: &mut Entry, bytes: &[u8])
    requires { length bytes.now ≤ 127 }
    ensures { made.new ≡ Made.Input (Handed.Frame (record { items = bytes.now })) }
{
    *made = Entry::Input(Input::Frame(ArrayVec::new()));
    if let Entry::Input(Input::Frame(frame)) = made {
        let _ = frame.try_extend_from_slice(bytes);
    }
}

/// Writes the entry of an input into a buffer.
fn put_input_entry(made: &mut Entry, input: WaitingInput, bytes: &[u8])
    requires most { length bytes.now ≤ 256 }
    requires frame { input ≡ Waits.WaitingInput.Frame → length bytes.now ≤ 127 }
    ensures { made.new ≡ Made.Input (waiting_input input bytes.now) }
{
    match input {
        WaitingInput::Tick(ticks) => put_tick(made, ticks),
        WaitingInput::Serial => write_serial(made, bytes),
        WaitingInput::Frame => write_frame(made, bytes),
    }
}

/// Takes the note, whatever it is, and writes its entry into `made`.
#[inline(never)]
fn take_any_note(note: &mut Option<Note>, made: &mut Entry)
    requires some { is_empty (note_items note.old) ≡ false }
    ensures entry { note_items note.old ≡ Item.Show made.new ∷ [] }
    ensures note { note.new ≡ None }
    ensures kind { is_halt made.new ≡ false }
    ensures untold { (p : ℕ) → heard p (made.new ∷ []) ≡ [] }
{
    if let Some(taken) = note.take() {
        *made = Entry::Note(taken);
    }
}

/// As `take_any_note`. Of a sent frame, as most notes are, only the bytes are moved.
// Out of the way of turns, before which it is seldom called.
#[inline(never)]
fn take_note(note: &mut Option<Note>, made: &mut Entry)
    requires some { is_empty (note_items note.old) ≡ false }
    ensures entry { note_items note.old ≡ Item.Show made.new ∷ [] }
    ensures note { note.new ≡ None }
    ensures kind { is_halt made.new ≡ false }
    ensures untold { (p : ℕ) → heard p (made.new ∷ []) ≡ [] }
{
    if let Some(Note::Sent(bytes)) = note {
        put_sent(made, bytes.as_slice());
        *note = None;
    } else {
        take_any_note(note, made);
    }
}

/// An input that waits for its entry. Its bytes, if it has any, are beside it.
// An input by itself has room for a serial line, and each move copies all of that.
#[derive(Clone, Copy, Drop)]
pub enum WaitingInput {
    Tick(u32),
    Serial,
    Frame,
}

/// An input that was fed, and then a note: that its frame is lost, or that a frame was sent.
#[derive(Drop)]
pub struct PendingEntries {
    input: Option<WaitingInput>,
    /// The bytes of that input.
    bytes: ArrayVec<u8, 256>,
    note: Option<Note>,
    /// Whether there is any: each step of the machine asks that.
    is_any: bool,
}

impl Model for PendingEntries {
    ghost use Rattle.std.specs.Prelude.{◌≡◌, ◌≤◌, ◌||◌, Some, is_some, length};
    ghost use Rattle.kernel_core.specs.Code.Pending.{Pending, waiting_inputs};
    ghost use Rattle.kernel_core.specs.declared.pending_entries.WaitingInput.{WaitingInput};

    ghost Value = { Pending };

    ghost view = { λ p. record { input = waiting_inputs p.input p.bytes.items; note = p.note } };

    ghost invariant = { λ p. (p.is_any ≡ (is_some p.input || is_some p.note))
        × (p.input ≡ Some WaitingInput.Frame → length p.bytes.items ≤ 127) };
}

impl PendingEntries {
    /// No entry.
    pub fn none() -> PendingEntries
        ensures { result ≡ no_pending_entries }
    {
        PendingEntries {
            input: None,
            bytes: ArrayVec::new(),
            note: None,
            is_any: false,
        }
    }

    /// Whether there is none.
    pub fn is_empty(&self) -> bool
        ensures { result ≡ is_empty (pending_items self.now) }
    {
        !self.is_any
    }

    /// Adds the entry of an input, which is the first one.
    pub fn put_input(&mut self, input: &Input)
        ensures { self.new ≡ record self.old { input = Some input.now } }
    {
        match input {
            Input::Tick(ticks) => self.put_ticks(*ticks),
            Input::Serial(bytes) => self.put_bytes(WaitingInput::Serial, bytes.as_slice()),
            Input::Frame(bytes) => self.put_frame(bytes),
        }
    }

    /// As `put_input`, of a tick.
    pub fn put_ticks(&mut self, ticks: u32)
        ensures { self.new ≡ record self.old { input = Some (Handed.Tick ticks) } }
    {
        self.input = Some(WaitingInput::Tick(ticks));
        self.is_any = true;
    }

    /// As `put_input`, of a frame.
    pub fn put_frame(&mut self, bytes: &ArrayVec<u8, 127>)
        ensures { self.new ≡ record self.old { input = Some (Handed.Frame bytes.now) } }
    {
        self.put_bytes(WaitingInput::Frame, bytes.as_slice());
    }

    /// Adds the entry of an input of bytes.
    fn put_bytes(&mut self, input: WaitingInput, bytes: &[u8])
        requires most { length bytes.now ≤ 256 }
        requires frame { input ≡ Waits.WaitingInput.Frame → length bytes.now ≤ 127 }
        ensures { self.new ≡ record self.old { input = Some (waiting_input input bytes.now) } }
    {
        // Bytes are cleared only where as many aren't put in their place.
        if self.bytes.len() == bytes.len() {
            self.bytes.as_mut_slice().copy_from_slice(bytes);
        } else {
            self.bytes.clear();
            let _ = self.bytes.try_extend_from_slice(bytes);
        }
        self.input = Some(input);
        self.is_any = true;
    }

    /// Adds the note that a frame is lost, instead of any other.
    pub fn put_lost(&mut self, refusal: Refusal)
        ensures { self.new ≡ record self.old { note = Some (Noted.Lost refusal) } }
    {
        self.note = Some(Note::Lost(refusal));
        self.is_any = true;
    }

    /// Adds the note of a sent frame, instead of any other, where its bytes are put at once.
    pub fn put_sent(&mut self, bytes: &[u8])
        requires { length bytes.now ≤ 127 }
        ensures { self.new ≡ record self.old { note = Some (Noted.Sent (record { items = bytes.now })) } }
    {
        self.is_any = true;
        self.note = Some(Note::Sent(ArrayVec::new()));
        if let Some(Note::Sent(sent)) = &mut self.note {
            let _ = sent.try_extend_from_slice(bytes);
        }
    }

    /// Takes the first of them, and writes its entry into `made`.
    pub fn take_first(&mut self, made: &mut Entry)
        requires some { is_empty (pending_items self.old) ≡ false }
        ensures first { pending_items self.old ≡ Item.Show made.new ∷ pending_items self.new }
        ensures kind { is_halt made.new ≡ false }
        ensures untold { (p : ℕ) → heard p (made.new ∷ []) ≡ [] }
    {
        if let Some(input) = self.input {
            put_input_entry(made, input, self.bytes.as_slice());
            self.input = None;
        } else {
            take_note(&mut self.note, made);
        }
        self.is_any = self.note.is_some();
    }
}
