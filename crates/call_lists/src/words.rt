//! The words of a call: its numbers, and bytes in hex.

ghost use Rattle.std.specs.Prelude.{◌≡◌, ◌≢◌, ◌≤◌, ◌++◌, ℕ, Bool, if◌then◌else◌, List, [], ◌∷◌, decimal, is_ok, is_some, Option, Some, None, Err, IfErr, IfOk, IfSome, IsSome, OnErr, OnOk};
ghost use Rattle.std.specs.Option.{option_or};
ghost use Rattle.hex.specs.Hex.{decode_of};
ghost use Rattle.mote_text.specs.EntryText.{hex, payload_word};
ghost use Rattle.mote_text.specs.Script.{read_number};
ghost use Rattle.call_lists.specs.Faults.{IsNoNumber};
ghost use Rattle.call_lists.specs.Calls.{hex_lowered};
ghost use Rattle.call_lists.specs.Code.Readings.{behind_first, first_word, is_chunk, is_hex, is_payload, is_small, is_wide, left_by, left_in};
ghost use Rattle.call_lists.specs.Code.Words.{AreTaken, behind};

use crate::fault::CallFault;
use arrayvec::ArrayVec;
use mote_text::script::read_number;
use mote_types::event::Payload;
use mote_types::reply::Chunk;

/// The words of a call, which are taken one by one. The first fault in them is stored, and a default replaces what is
/// malformed.
#[derive(Drop)]
pub(crate) struct Words<'a> {
    name: &'a str,
    rest: Option<&'a str>,
    fault: Option<CallFault<'a>>,
}

/// A text's first word, and what follows it.
pub(crate) fn parted(text: &str) -> (&str, Option<&str>)
    ensures text { text.now ≡ result.0.now ++ behind result.1 }
    ensures word { result.0.now ≡ first_word text.now }
    ensures left { behind result.1 ≡ behind_first text.now }
{
    match text.split_once(' ') {
        Some((word, rest)) => (word, Some(rest)),
        None => (text, None),
    }
}

impl<'a> Words<'a> {
    pub(crate) fn of(text: &'a str) -> Self
        ensures text { text.now ≡ result.name.now ++ behind result.rest }
        ensures name { result.name.now ≡ first_word text.now }
        ensures left { left_in result ≡ Some (behind_first text.now) }
        ensures faultless { result.fault ≡ None }
    {
        let (name, rest) = parted(text);
        Words {
            name,
            rest,
            fault: None,
        }
    }

    /// The first word, which names the call.
    pub(crate) fn name(&self) -> &'a str
        ensures { result.now ≡ self.now.name.now }
    {
        self.name
    }

    /// Stores a fault, unless one was met before.
    pub(crate) fn note(&mut self, fault: CallFault<'a>)
        ensures fault { IsSome self.new.fault }
        ensures first { self.new.fault ≡ option_or self.old.fault (Some fault.entry) }
        ensures left { left_in self.new ≡ None }
    {
        if self.fault.is_none() {
            self.fault = Some(fault);
        }
    }

    /// The next word; an empty one where it is missing.
    fn next(&mut self) -> &'a str
        ensures taken { AreTaken self.old (hex_lowered result.now ∷ []) self.new }
        ensures left { (is_word : List ℕ → Bool)
            → left_by is_word (left_in self.old) ≡ (if is_word result.now then left_in self.new else None) }
    {
        let Some(rest) = self.rest else {
            self.note(CallFault::TooFewWords(self.name));
            return "";
        };
        let (word, rest) = parted(rest);
        self.rest = rest;
        word
    }

    /// The next word's number, from 0 to 255.
    #[tactic(auto, using(crate::proofs::Lowered::lowered_number))]
    pub(crate) fn small(&mut self) -> u8
        ensures taken { AreTaken self.old (decimal result ∷ []) self.new }
        ensures left { left_in self.new ≡ left_by is_small (left_in self.old) }
    {
        let word = self.next();
        match number_of(word, 0, 255) {
            Ok(number) => number as u8,
            Err(fault) => {
                self.note(fault);
                0
            }
        }
    }

    /// The next word's number.
    #[tactic(auto, using(crate::proofs::Lowered::lowered_number))]
    pub(crate) fn number(&mut self) -> u32
        ensures taken { AreTaken self.old (decimal result ∷ []) self.new }
        ensures left { left_in self.new ≡ left_by is_wide (left_in self.old) }
    {
        let word = self.next();
        match number_of(word, 0, u32::MAX) {
            Ok(number) => number,
            Err(fault) => {
                self.note(fault);
                0
            }
        }
    }

    /// The bytes that the next word has in hex, a dash where there are none.
    #[tactic(auto, using(crate::proofs::Lowered::lowered_hex))]
    pub(crate) fn chunk(&mut self) -> Chunk
        ensures taken { AreTaken self.old (hex result.items ∷ []) self.new }
        ensures left { left_in self.new ≡ left_by is_chunk (left_in self.old) }
    {
        let word = self.next();
        if word == "-" {
            return Chunk::new();
        }
        match bytes_of(word) {
            Some(bytes) if !bytes.is_empty() => bytes,
            _ => {
                self.note(CallFault::NoHex { word, most: 64 });
                Chunk::new()
            }
        }
    }

    /// What an event carries: a dash, a number, or a line in hex after an `x`.
    pub(crate) fn payload(&mut self) -> Payload
        ensures taken { AreTaken self.old (payload_word result ∷ []) self.new }
        ensures left { left_in self.new ≡ left_by is_payload (left_in self.old) }
    {
        let word = self.next();
        match payload_of(word) {
            Ok(payload) => payload,
            Err(fault) => {
                self.note(fault);
                Payload::Empty
            }
        }
    }

    /// Checks that all words were taken, and each is well-formed.
    ///
    /// # Errors
    ///
    /// The first fault.
    pub(crate) fn finish(mut self) -> Result<(), CallFault<'a>>
        ensures taken { OnOk result ((self.entry.fault ≡ None) × (self.entry.rest ≡ None)) }
        ensures first { IfSome self.entry.fault (λ fault. result ≡ Err fault) }
        ensures refused { OnErr result (left_in self.entry ≢ Some []) }
    {
        if let Some(rest) = self.rest {
            self.note(CallFault::TooManyWords(rest));
        }
        match self.fault {
            Some(fault) => Err(fault),
            None => Ok(()),
        }
    }
}

/// The number that a word is in decimal, as a transcript shows it, within these bounds.
///
/// # Errors
///
/// `NoNumber` where it is none, or outside.
pub fn number_of(word: &str, least: u32, most: u32) -> Result<u32, CallFault<'_>>
    ensures number { IfOk result (λ number. read_number word.now ≡ Some number) }
    ensures bounds { IfOk result (λ number. (least ≤ number) × (number ≤ most)) }
    ensures refused { IfErr result (IsNoNumber word.now least most) }
{
    match read_number(word.as_bytes()) {
        Some(number) if least <= number && number <= most => Ok(number),
        _ => Err(CallFault::NoNumber { word, least, most }),
    }
}

/// What an event carries, by its word.
///
/// # Errors
///
/// `NoHex` or `NoNumber` where it is malformed.
#[tactic(auto, using(crate::proofs::Lowered::lowered_number, crate::proofs::Lowered::lowered_hex))]
fn payload_of(word: &str) -> Result<Payload, CallFault<'_>>
    ensures taken { IfOk result (λ payload. hex_lowered word.now ≡ payload_word payload) }
    ensures form { is_payload word.now ≡ is_ok result }
{
    if word == "-" {
        return Ok(Payload::Empty);
    }
    match word.strip_prefix("x") {
        Some(digits) => match bytes_of(digits) {
            Some(line) => Ok(Payload::Line(line)),
            None => Err(CallFault::NoHex {
                word: digits,
                most: 127,
            }),
        },
        None => Ok(Payload::Num(number_of(word, 0, u32::MAX)?)),
    }
}

/// The bytes of these hex digits, of which there are at most `N`.
fn bytes_of<const N: usize>(digits: &str) -> Option<ArrayVec<u8, N>>
    ensures bytes { IfSome result (λ bytes. decode_of digits.now ≡ Ok bytes.items) }
    ensures form { is_hex N digits.now ≡ is_some result }
{
    let mut room = [0; N];
    let length = digits.len() / 2;
    if length > N {
        return None;
    }
    let front = &mut room[..length];
    hex::decode_to_slice(digits.as_bytes(), front).ok()?;
    let mut bytes = ArrayVec::new();
    let _ = bytes.try_extend_from_slice(front);
    Some(bytes)
}
