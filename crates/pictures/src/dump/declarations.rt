//! The declarations of a dump.

ghost use Rattle.std.specs.Prelude.{◌<◌, ◌^◌};

use crate::dump::signal::{COMMON, SIGNALS, Signal};
use std::alloc::{AllocError, Global};

/// The program, and what the values mean, as a comment.
const HEAD: &str = "\
$version mote_picture $end
$comment
One second stands for one tick of the mote's clock. The lines of a transcript that come at one clock stand one
behind the other, a unit of time each. At each line:
running is the process that takes its turn (z: none), queue counts the events that applications posted and that
wait, managed_free and heap_free are the bytes that no block takes (x: not known), timers counts those that are
armed and not told yet, and a process is 0 (not there), 1 (it waits), 2 (in an activation, beneath another one's)
or 3 (it takes its turn).
$end
";

/// Units of time, each a tenth of the one before it.
const UNITS: [&str; 16] = [
    "1 s", "100 ms", "10 ms", "1 ms", "100 us", "10 us", "1 us", "100 ns", "10 ns", "1 ns",
    "100 ps", "10 ps", "1 ps", "100 fs", "10 fs", "1 fs",
];

/// The units of time of a tick, as a power of ten: enough that each line at one clock has one, and one is left.
#[derive(Clone, Copy)]
pub(crate) struct Scale {
    /// Which of the units it is.
    unit: usize,
    pub(crate) units: u64,
}

impl Scale {
    /// The scale, by the largest number of lines at one clock.
    pub(crate) fn of(most: u64) -> Scale
        ensures some { 0 < result.units }
        ensures room { most < 10 ^ 15 → most < result.units }
    {
        let mut scale = Scale { unit: 1, units: 10 };
        for _unit in 2..UNITS.len() {
            if scale.units <= most {
                scale.unit = scale.unit.saturating_add(1);
                scale.units = scale.units.saturating_mul(10);
            }
        }
        scale
    }
}

/// Appends a name as an identifier may have it: what is no letter, digit or `_` is a `_`.
fn push_identifier(out: &mut String, name: &str) -> Result<(), AllocError> {
    for letter in name.chars() {
        let letter = if letter.is_ascii_alphanumeric() {
            letter
        } else {
            '_'
        };
        out.push(letter)?;
    }
    Ok(())
}

/// Appends the declaration of the signal at a position among all.
fn push_signal(out: &mut String, index: usize, names: &[&str]) -> Result<(), AllocError> {
    let letter = char::from(33 + index.min(SIGNALS) as u8);
    let signal = Signal::at(index);
    write!(
        out,
        "$var reg {} {letter} {}",
        signal.width(),
        signal.name()
    )?;
    if let Signal::Process(pid) = signal {
        write!(out, "_{pid}")?;
        if let Some(name) = names.get(index.saturating_sub(COMMON)) {
            out.push_str("_")?;
            push_identifier(out, name)?;
        }
    }
    out.push_str(" $end\n")
}

/// Appends the declarations for all applications, up to the words that end them.
fn push_declarations(
    out: &mut String,
    scale: Scale,
    names: &[&str],
    applications: usize,
) -> Result<(), AllocError> {
    out.push_str(HEAD)?;
    let unit = UNITS.get(scale.unit).copied().unwrap_or("1 fs");
    write!(out, "$timescale {unit} $end\n$scope module mote $end\n")?;
    for index in 0..applications.saturating_add(COMMON) {
        push_signal(out, index, names)?;
    }
    out.push_str("$upscope $end\n")
}

/// The declarations, by the number of applications, up to the words that end them.
pub(crate) fn declarations(
    alloc: Global,
    scale: Scale,
    names: &[&str],
    applications: usize,
) -> Result<String, AllocError> {
    let mut head = String::new(alloc);
    push_declarations(&mut head, scale, names, applications)?;
    Ok(head)
}
