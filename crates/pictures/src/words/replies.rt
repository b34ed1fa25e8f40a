//! The reply to a call.

ghost use Rattle.std.specs.Prelude.{◌≡◌, ◌++◌, [], Some, codes, string_bytes, option_map, IfOk};
ghost use Rattle.pictures.specs.Transcript.Lines.{after_prefix};
ghost use Rattle.pictures.specs.Words as spec;

use crate::words::bytes::push_bytes;
use std::alloc::{AllocError, Global};

/// Why a call is refused, by the number of the refusal.
fn reason(number: &str) -> &'static str
    ensures { result.now ≡ spec.reason number.now }
{
    match number {
        "1" => "queue full",
        "2" => "not running",
        "3" => "already",
        "4" => "busy",
        "5" => "reserved code",
        "6" => "no number left",
        "7" => "bad name",
        "8" => "in use",
        "9" => "not live",
        "10" => "empty",
        "11" => "bad range",
        "12" => "no room",
        "13" => "pool full",
        "14" => "linked",
        "15" => "not in list",
        "16" => "no frame",
        "17" => "not receiver",
        "18" => "over quota",
        _ => "refused",
    }
}

/// The number of its refusal, where a reply is one.
pub fn refusal_in(reply: &str) -> Option<&str>
    ensures { option_map (λ number. number.now) result ≡ after_prefix (codes "refused ") reply.now }
{
    reply.strip_prefix("refused ")
}

/// Appends why a call was refused.
fn push_refusal(out: &mut String, number: &str) -> Result<(), AllocError>
    ensures { IfOk result (λ _. string_bytes out.new ≡ string_bytes out.old ++ spec.reply_by [] (Some number.now)) }
{
    out.push_str("\u{a0}\u{a0}✗ ")?;
    out.push_str(reason(number))?;
    out.push_str(" (")?;
    out.push_str(number)?;
    out.push_str(")")
}

/// Appends a reply after its call.
pub fn push_reply(alloc: Global, out: &mut String, reply: &str) -> Result<(), AllocError>
    ensures { IfOk result (λ _. string_bytes out.new ≡ string_bytes out.old ++ spec.reply_words reply.now) }
{
    if let Some(number) = refusal_in(reply) {
        return push_refusal(out, number);
    }
    let Some((kind, value)) = reply.split_once(' ') else {
        return Ok(());
    };
    out.push_str("\u{a0}\u{a0}=\u{a0}")?;
    if kind == "bytes" {
        push_bytes(alloc, out, value)
    } else {
        out.push_str(value)
    }
}
