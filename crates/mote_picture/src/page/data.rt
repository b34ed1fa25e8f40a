//! The data of a page: JSON without a `<`, so that nothing in it ends the element that holds it.

ghost use Rattle.std.specs.Prelude.{◌≡◌, ℕ, true, List, [], ◌++◌, codes, decimal, if◌then◌else◌, IfOk};
ghost use Rattle.mote_picture.specs.Data.{IsHarmless, has_no_opening, string_byte, string_bytes_of, json_string};

use itoa::Buffer;
use std::alloc::{AllocError, Global};
use std::marker::Model;

/// Appends a byte as it is written within a string of JSON.
fn push_string_byte(out: &mut Vec<u8>, byte: u8) -> Result<(), AllocError>
    ensures { IfOk result (λ _. out.new.items ≡ out.old.items ++ string_byte byte) }
{
    match byte {
        b'"' => out.extend_from_slice(b"\\\""),
        b'\\' => out.extend_from_slice(b"\\\\"),
        b'\n' => out.extend_from_slice(b"\\n"),
        b'\t' => out.extend_from_slice(b"\\t"),
        0..=31 => out.extend_from_slice(b"\\ufffd"),
        b'<' => out.extend_from_slice(b"\\u003c"),
        _ => out.extend_from_slice(&[byte]),
    }
}

/// Appends what is between the quotes of a string.
fn push_string_bytes(out: &mut Vec<u8>, text: &[u8]) -> Result<(), AllocError>
    ensures { IfOk result (λ _. out.new.items ≡ out.old.items ++ string_bytes_of text.now) }
{
    for byte in text {
        push_string_byte(out, *byte)?;
    }
    Ok(())
}

/// Appends the string of a text.
fn push_string(out: &mut Vec<u8>, text: &[u8]) -> Result<(), AllocError>
    ensures { IfOk result (λ _. out.new.items ≡ out.old.items ++ json_string text.now) }
{
    out.extend_from_slice(b"\"")?;
    push_string_bytes(out, text)?;
    out.extend_from_slice(b"\"")
}

/// JSON, or a prefix of it.
#[derive(Drop)]
pub(crate) struct Data {
    bytes: Vec<u8>,
}

impl Model for Data {
    ghost Value = { List ℕ };

    ghost view = { λ d. d.bytes.items };

    ghost invariant = { λ d. IsHarmless d.bytes.items };
}

impl Data {
    pub(crate) fn new(alloc: Global) -> Self
        ensures { result ≡ [] }
    {
        Data {
            bytes: Vec::new(alloc),
        }
    }

    /// Appends JSON without a `<`.
    pub(crate) fn put(&mut self, json: &str) -> Result<(), AllocError>
        requires { has_no_opening json.now ≡ true }
        ensures { IfOk result (λ _. self.new ≡ self.old ++ json.now) }
    {
        self.bytes.extend_from_slice(json.as_bytes())
    }

    /// Appends the string of a text. A control character other than a line end or a tab is replaced by one that can't be shown.
    pub(crate) fn say(&mut self, text: &str) -> Result<(), AllocError>
        ensures { IfOk result (λ _. self.new ≡ self.old ++ json_string text.now) }
    {
        let mut more = Vec::new(*self.bytes.allocator());
        push_string(&mut more, text.as_bytes())?;
        self.bytes.extend_from_slice(more.as_slice())
    }

    /// Appends a truth value.
    pub(crate) fn decide(&mut self, is_so: bool) -> Result<(), AllocError>
        ensures { IfOk result (λ _. self.new ≡ self.old ++ (if is_so then codes "true" else codes "false")) }
    {
        if is_so {
            self.put("true")
        } else {
            self.put("false")
        }
    }

    /// Appends a number.
    #[tactic(auto, using(crate::proofs::Harmless::decimal_harmless))]
    pub(crate) fn count(&mut self, number: u64) -> Result<(), AllocError>
        ensures { IfOk result (λ _. self.new ≡ self.old ++ decimal number) }
    {
        let mut buffer = Buffer::new();
        self.put(buffer.format(number))
    }

    /// Appends other data.
    pub(crate) fn append(&mut self, other: &Data) -> Result<(), AllocError>
        ensures { IfOk result (λ _. self.new ≡ self.old ++ other.now) }
    {
        self.bytes.extend_from_slice(other.bytes.as_slice())
    }

    pub(crate) fn bytes(&self) -> &[u8]
        ensures { result.now ≡ self.now }
    {
        self.bytes.as_slice()
    }

    /// There is no `<` in it.
    pub(crate) fn is_harmless(&self)
        ensures { IsHarmless self.now }
    {
        // Nothing is done: the clause says what holds of all data.
        let _bytes = &self.bytes;
    }
}
