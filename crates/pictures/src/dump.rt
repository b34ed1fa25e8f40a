//! All that holds at the lines of a run as a value change dump (IEEE 1364, clause 18), for the viewers of logic analysers.

ghost use Rattle.std.specs.Prelude.{◌≡◌, ℕ, ◌+◌, ◌-◌, ◌^◌, ◌<◌, ◌≤◌, ◌==◌, min, if◌then◌else◌, Some, None, ◌++◌, codes, get_or, length, map, string_bytes, IfOk};
ghost use Rattle.std.specs.List.{range_with_len};
ghost use Rattle.pictures.specs.Clocks.{clock_at};
ghost use Rattle.pictures.specs.Code.Dump.{AreTold, IsCurrent, Keeps, TakesLine, Writes, first_written, lines_at, next_time, running_at};
ghost use Rattle.pictures.specs.Dump.{IsDump, lines_before, running_value, time_at};
ghost use Rattle.pictures.specs.Rows.{bytes_of, text_at};

mod changes;
mod declarations;
mod levels;
mod signal;
pub mod values;

use crate::facts::{Facts, facts_of};
use crate::memory::Sizes;
use crate::rows::{Shown, shown_of};
use changes::{Change, changes_of};
use declarations::{Scale, declarations};
use levels::Levels;
use signal::{COMMON, FIRST, SIGNALS, Signal};
use std::alloc::{AllocError, Global};
use values::{Dump, Value};

/// What a dump shows of a run besides its transcript.
#[derive(Clone, Copy)]
pub struct Settings<'a> {
    /// The names of processes 4, 5, ..; those after them have none.
    pub names: &'a [&'a str],
    /// The clock at the first line in the dump, in ticks.
    pub from: u64,
    /// The clock at the last line in the dump.
    pub to: u64,
    /// The sizes of the mote's memory.
    pub sizes: Sizes,
}

/// The clocks of the lines in the dump.
fn clocks_of(facts: &Facts, shown: Shown) -> &[u64]
    requires order { shown.first ≤ shown.end }
    requires there { shown.end ≤ length facts.now.marks.clocks.items }
    ensures all { length result.now ≡ shown.end - shown.first }
    ensures clocks { (index : ℕ) → index < shown.end - shown.first
        → get_or result.now index 0 ≡ get_or facts.now.marks.clocks.items (shown.first + index) 0 }
{
    &facts.marks.clocks.as_slice()[shown.first..shown.end]
}

/// The lines in the dump.
fn lines_of<'a, 'b>(lines: &'a [&'b str], shown: Shown) -> &'a [&'b str]
    requires order { shown.first ≤ shown.end }
    requires there { shown.end ≤ length lines.now }
    ensures all { length result.now ≡ shown.end - shown.first }
    ensures lines { (index : ℕ) → index < shown.end - shown.first
        → text_at (bytes_of result.now) index ≡ text_at (bytes_of lines.now) (shown.first + index) }
{
    &lines[shown.first..shown.end]
}

/// The largest number of lines at one clock.
fn most_at_once(clocks: &[u64]) -> u64
    ensures few { result ≤ length clocks.now }
    ensures all { (line : ℕ) → line < length clocks.now
        → min (lines_before (λ line. get_or clocks.now line 0) line + 1) (2 ^ 64 - 1) ≤ result }
{
    let mut most: u64 = 0;
    let mut count: u64 = 0;
    let mut before = None;
    for clock in clocks {
        count = if before == Some(*clock) {
            count.saturating_add(1)
        } else {
            1
        };
        most = most.max(count);
        before = Some(*clock);
    }
    most
}

/// A walk over the lines.
#[derive(Drop)]
struct Walk {
    levels: Levels,
    dump: Dump,
    /// The values in the dump.
    written: [Option<Value>; SIGNALS],
    applications: usize,
    scale: Scale,
    clock: u64,
    /// The number of lines at this clock so far.
    lines_at_clock: u64,
}

impl Walk {
    /// Writes the value of the signal at a position among all, where it has changed.
    #[tactic(auto, using(crate::proofs::Written::writes_none))]
    fn write(&mut self, index: usize) -> Result<(), AllocError>
        requires { IsCurrent self.old }
        ensures levels { self.new.levels ≡ self.old.levels }
        ensures clock { self.new.clock ≡ self.old.clock }
        ensures scale { self.new.scale ≡ self.old.scale }
        ensures lines { self.new.lines_at_clock ≡ self.old.lines_at_clock }
        ensures first { self.new.dump.first ≡ self.old.dump.first }
        ensures writes { IfOk result (λ _. Writes self.old self.new) }
        ensures value { IfOk result (λ _. first_written self.new
            ≡ (if index == 0 then Some (running_value self.old.levels.running) else first_written self.old)) }
    {
        if index >= SIGNALS {
            return Ok(());
        }
        let value = self.levels.value(Signal::at(index));
        if self.written[index] == Some(value) {
            return Ok(());
        }
        self.written[index] = Some(value);
        let time = self.clock.saturating_mul(self.scale.units);
        self.dump.go_to(time.saturating_add(self.lines_at_clock))?;
        self.dump.set(index as u8, value)
    }

    /// Writes the values that have changed at the present time.
    fn write_all(&mut self) -> Result<(), AllocError>
        requires { IsCurrent self.old }
        ensures levels { self.new.levels ≡ self.old.levels }
        ensures clock { self.new.clock ≡ self.old.clock }
        ensures scale { self.new.scale ≡ self.old.scale }
        ensures lines { self.new.lines_at_clock ≡ self.old.lines_at_clock }
        ensures first { self.new.dump.first ≡ self.old.dump.first }
        ensures writes { IfOk result (λ _. Writes self.old self.new) }
        ensures value { IfOk result (λ _. first_written self.new ≡ Some (running_value self.old.levels.running)) }
    {
        for index in 0..self.applications.saturating_add(COMMON) {
            self.write(index)?;
        }
        Ok(())
    }

    /// No line is left at this clock.
    fn rest(&mut self) -> Result<(), AllocError>
        requires { IsCurrent self.old }
        ensures clock { self.new.clock ≡ self.old.clock }
        ensures scale { self.new.scale ≡ self.old.scale }
        ensures first { self.new.dump.first ≡ self.old.dump.first }
        ensures lines { self.new.lines_at_clock ≡ self.old.lines_at_clock }
        ensures running { self.new.levels.running ≡ None }
        ensures writes { IfOk result (λ _. Writes self.old self.new) }
    {
        self.levels.rest();
        self.write_all()
    }

    /// Goes on to a clock.
    #[tactic(auto, using(crate::proofs::Written::writes_none))]
    fn go_on(&mut self, clock: u64) -> Result<(), AllocError>
        requires { IsCurrent self.old }
        ensures clock { IfOk result (λ _. self.new.clock ≡ clock) }
        ensures scale { self.new.scale ≡ self.old.scale }
        ensures first { self.new.dump.first ≡ self.old.dump.first }
        ensures lines { IfOk result (λ _. self.new.lines_at_clock ≡ lines_at self.old clock) }
        ensures running { IfOk result (λ _. self.new.levels.running ≡ running_at self.old clock) }
        ensures writes { IfOk result (λ _. Writes self.old self.new) }
    {
        if clock == self.clock {
            return Ok(());
        }
        self.rest()?;
        self.clock = clock;
        self.lines_at_clock = 0;
        Ok(())
    }

    /// A line at a clock, after these changes.
    fn take_line(&mut self, line: &str, clock: u64) -> Result<(), AllocError>
        requires { IsCurrent self.old }
        ensures clock { IfOk result (λ _. self.new.clock ≡ clock) }
        ensures scale { self.new.scale ≡ self.old.scale }
        ensures first { self.new.dump.first ≡ self.old.dump.first }
        ensures takes { IfOk result (λ _. TakesLine line.now clock self.old self.new) }
    {
        self.go_on(clock)?;
        self.levels.take_line(line);
        self.write_all()?;
        self.lines_at_clock = self.lines_at_clock.saturating_add(1);
        Ok(())
    }

    /// The last clock passes.
    fn finish(&mut self) -> Result<(), AllocError>
        requires scale { 0 < self.old.scale.units }
        requires current { IsCurrent self.old }
        ensures first { self.new.dump.first ≡ self.old.dump.first }
        ensures last { IfOk result (λ _. time_at self.old.scale.units (self.old.clock + 1) ≤ self.new.dump.last) }
        ensures keeps { IfOk result (λ _. Keeps (next_time self.old) self.old.dump self.new.dump) }
    {
        self.rest()?;
        let end = self.clock.saturating_add(1);
        self.dump.go_to(end.saturating_mul(self.scale.units))
    }
}

/// The changes at a line or before it, and the others.
fn parted(changes: &[Change], line: usize) -> (&[Change], &[Change]) {
    let mut count: usize = 0;
    for change in changes {
        if change.line > line {
            break;
        }
        count = count.saturating_add(1);
    }
    changes.split_at(count.min(changes.len()))
}

/// Walks over the lines in the dump, by the changes from line to line.
fn walk_over(
    walk: &mut Walk,
    lines: &[&str],
    shown: Shown,
    clocks: &[u64],
    changes: &[Change],
) -> Result<(), AllocError>
    requires begun { walk.old.clock ≡ get_or clocks.now 0 0 }
    requires running { walk.old.levels.running ≡ None }
    requires lines { length lines.now ≡ length clocks.now }
    requires scale { 0 < walk.old.scale.units }
    requires current { IsCurrent walk.old }
    requires starts { (walk.old.lines_at_clock ≡ 0) × (walk.old.dump.last ≡ time_at walk.old.scale.units walk.old.clock) }
    ensures first { walk.new.dump.first ≡ walk.old.dump.first }
    ensures last { IfOk result
        (λ _. time_at walk.old.scale.units (get_or clocks.now (length clocks.now - 1) 0 + 1) ≤ walk.new.dump.last) }
    ensures told { IfOk result (λ _. AreTold (λ line. get_or clocks.now line 0) walk.old.scale.units (length clocks.now)
        (text_at (bytes_of lines.now)) walk.new.dump) }
{
    let mut left = changes;
    for index in 0..lines.len() {
        let (due, later) = parted(left, index.saturating_add(shown.first));
        walk.levels.apply_all(due);
        left = later;
        walk.take_line(lines[index], clocks[index])?;
    }
    walk.finish()
}

/// The declarations and the values as one text.
fn whole(declarations: String, dump: &Dump) -> Result<Vec<u8>, AllocError>
    ensures { IfOk result (λ bytes. bytes.items ≡ string_bytes declarations ++ codes "$enddefinitions $end\n" ++ dump.now.text) }
{
    let mut bytes = declarations.into_bytes();
    bytes.extend_from_slice(b"$enddefinitions $end\n")?;
    bytes.extend_from_slice(dump.bytes())?;
    Ok(bytes)
}

/// The dump of a run with these facts.
fn dump_of(
    alloc: Global,
    lines: &[&str],
    settings: &Settings<'_>,
    facts: &Facts,
) -> Result<Vec<u8>, AllocError>
    requires { facts.now.marks.clocks.items ≡ map (clock_at (bytes_of lines.now)) (range_with_len 0 (length lines.now)) }
    ensures { IfOk result (λ bytes. IsDump (bytes_of lines.now) settings.now.from settings.now.to bytes.items) }
{
    let shown = shown_of(lines, settings.from, settings.to);
    let clocks = clocks_of(facts, shown);
    let clock = clocks.first().copied().unwrap_or(0);
    let scale = Scale::of(most_at_once(clocks));
    let applications = facts.marks.processes.saturating_sub(FIRST);
    let applications = applications.max(settings.names.len()).min(16);
    let changes = changes_of(alloc, facts)?;
    let mut walk = Walk {
        levels: Levels::new(settings.sizes),
        dump: Dump::new(alloc, clock.saturating_mul(scale.units))?,
        written: [None; SIGNALS],
        applications,
        scale,
        clock,
        lines_at_clock: 0,
    };
    let lines = lines_of(lines, shown);
    walk_over(&mut walk, lines, shown, clocks, changes.as_slice())?;
    let _span = walk.dump.span();
    let head = declarations(alloc, scale, settings.names, applications)?;
    whole(head, &walk.dump)
}

/// The dump of a run, from the lines of its transcript: declarations, and values at times that never go back, from the clock of the
/// first line that is shown to a tick after the last one's. At each of these lines' times it says which process takes its turn.
///
/// # Errors
///
/// `AllocError` where memory was refused.
pub fn wave_of(
    alloc: Global,
    lines: &[&str],
    settings: &Settings<'_>,
) -> Result<Vec<u8>, AllocError>
    ensures { IfOk result (λ bytes. IsDump (bytes_of lines.now) settings.now.from settings.now.to bytes.items) }
{
    let facts = facts_of(alloc, lines, settings.sizes)?;
    dump_of(alloc, lines, settings, &facts)
}
