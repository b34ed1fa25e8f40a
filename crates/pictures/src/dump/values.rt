//! The values of a dump: ascending times, and after each of them the values that change there.

ghost use Rattle.std.specs.Prelude.{◌≡◌, ◌++◌, ◌<◌, IfOk};
ghost use Rattle.pictures.specs.Dump.{AreChanges, Values, gone_to, time_line, value_digits, value_line};

use itoa::Buffer;
use std::alloc::{AllocError, Global};
use std::marker::Model;

/// The value of a signal.
#[derive(Clone, Copy, PartialEq, Eq)]
pub enum Value {
    Number(u64),
    /// It can't be known: `x`.
    Unknown,
    /// There is none: `z`.
    Nothing,
}

/// Appends the digits of a value.
fn push_digits(alloc: Global, out: &mut Vec<u8>, value: Value) -> Result<(), AllocError>
    ensures { IfOk result (λ _. out.new.items ≡ out.old.items ++ value_digits value) }
{
    match value {
        Value::Number(number) => {
            let digits = format!(in alloc; "{number:b}")?;
            out.extend_from_slice(digits.as_bytes())
        }
        Value::Unknown => out.extend_from_slice(b"x"),
        Value::Nothing => out.extend_from_slice(b"z"),
    }
}

/// Appends the line of a value.
fn push_value(alloc: Global, out: &mut Vec<u8>, value: Value, signal: u8) -> Result<(), AllocError>
    requires { signal < 94 }
    ensures { IfOk result (λ _. out.new.items ≡ out.old.items ++ value_line value signal) }
{
    out.extend_from_slice(b"b")?;
    push_digits(alloc, out, value)?;
    out.extend_from_slice(&[b' ', 33 + signal, b'\n'])
}

/// Appends the line of a time.
fn push_time(out: &mut Vec<u8>, time: u64) -> Result<(), AllocError>
    ensures { IfOk result (λ _. out.new.items ≡ out.old.items ++ time_line time) }
{
    let mut buffer = Buffer::new();
    out.extend_from_slice(b"#")?;
    out.extend_from_slice(buffer.format(time).as_bytes())?;
    out.extend_from_slice(b"\n")
}

/// Values, one after the other.
#[derive(Drop)]
pub(crate) struct Dump {
    alloc: Global,
    bytes: Vec<u8>,
    /// The first time in it.
    first: u64,
    /// The last one.
    last: u64,
}

impl Model for Dump {
    ghost Value = { Values };

    ghost view = { λ dump. record { first = dump.first; last = dump.last; text = dump.bytes.items } };

    ghost invariant = { λ dump. AreChanges dump.first dump.last dump.bytes.items };
}

impl Dump {
    /// A dump that begins at a time.
    pub(crate) fn new(alloc: Global, time: u64) -> Result<Self, AllocError>
        ensures first { IfOk result (λ dump. dump.first ≡ time) }
        ensures last { IfOk result (λ dump. dump.last ≡ time) }
        ensures text { IfOk result (λ dump. dump.text ≡ time_line time) }
    {
        let mut bytes = Vec::new(alloc);
        push_time(&mut bytes, time)?;
        Ok(Dump {
            alloc,
            bytes,
            first: time,
            last: time,
        })
    }

    /// What follows is at that time, or at the time before where that is later.
    pub(crate) fn go_to(&mut self, time: u64) -> Result<(), AllocError>
        ensures first { self.new.first ≡ self.old.first }
        ensures values { IfOk result (λ _. self.new ≡ gone_to self.old time) }
    {
        if time <= self.last {
            return Ok(());
        }
        let mut line = Vec::new(self.alloc);
        push_time(&mut line, time)?;
        self.bytes.extend_from_slice(line.as_slice())?;
        self.last = time;
        Ok(())
    }

    /// A signal has a value from now on.
    pub(crate) fn set(&mut self, signal: u8, value: Value) -> Result<(), AllocError>
        requires { signal < 94 }
        ensures first { self.new.first ≡ self.old.first }
        ensures values { IfOk result (λ _. self.new ≡ record self.old { text = self.old.text ++ value_line value signal }) }
        ensures before { AreChanges self.old.first self.old.last self.old.text }
    {
        let mut line = Vec::new(self.alloc);
        push_value(self.alloc, &mut line, value, signal)?;
        self.bytes.extend_from_slice(line.as_slice())
    }

    pub(crate) fn bytes(&self) -> &[u8]
        ensures { result.now ≡ self.now.text }
    {
        self.bytes.as_slice()
    }

    /// The first time in it, and the last one: times grow from the one to the other.
    pub(crate) fn span(&self) -> (u64, u64)
        ensures first { result.0 ≡ self.now.first }
        ensures last { result.1 ≡ self.now.last }
        ensures changes { AreChanges result.0 result.1 self.now.text }
    {
        (self.first, self.last)
    }
}
