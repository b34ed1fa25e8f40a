//! The results of a file's runs, and what is printed of them.

ghost use Rattle.std.specs.Prelude.{◌≡◌, ◌<◌, ◌+◌, ◌-◌, ◌^◌, ◌==◌, ◌&&◌, true, false, IfOk, OnOk};

use crate::run_file::outcome::Outcome;
use crate::run_file::parts::Part;
use std::io;

/// The results of a file's runs.
#[derive(Clone, Copy, Drop)]
pub struct Results {
    /// The number of runs with an expected outcome, and of those that had it.
    expected: u32,
    as_expected: u32,
    /// How often such a run was executed in pieces, and had it.
    cut: u32,
    in_pieces: u32,
    /// The number of runs without an expected outcome that failed.
    failed: u32,
    /// Whether the path of the file is still to be printed above a transcript.
    lacks_title: bool,
}

impl Results {
    /// No results. Where the file is one of several, its path is printed above the first transcript.
    pub fn new(is_of_several: bool) -> Self
        ensures none { result.expected ≡ 0 }
        ensures as_expected { result.as_expected ≡ 0 }
        ensures cut { result.cut ≡ 0 }
        ensures in_pieces { result.in_pieces ≡ 0 }
        ensures failed { result.failed ≡ 0 }
        ensures title { result.lacks_title ≡ is_of_several }
    {
        Results {
            expected: 0,
            as_expected: 0,
            cut: 0,
            in_pieces: 0,
            failed: 0,
            lacks_title: is_of_several,
        }
    }

    /// Counts a run with an expected outcome, and whether it had it.
    pub fn count(&mut self, comes_out: bool)
        ensures expected { self.old.expected < 2 ^ 32 - 1 → self.new.expected ≡ self.old.expected + 1 }
        ensures not { comes_out ≡ false → self.new.as_expected ≡ self.old.as_expected }
        ensures as_expected { comes_out ≡ true → self.old.as_expected < 2 ^ 32 - 1 → self.new.as_expected ≡ self.old.as_expected + 1 }
        ensures others { self.new ≡ record self.old { expected = self.new.expected; as_expected = self.new.as_expected } }
    {
        self.expected = self.expected.saturating_add(1);
        self.as_expected = self.as_expected.saturating_add(u32::from(comes_out));
    }

    /// Counts the same of a run in pieces.
    pub fn count_in_pieces(&mut self, comes_out: bool)
        ensures cut { self.old.cut < 2 ^ 32 - 1 → self.new.cut ≡ self.old.cut + 1 }
        ensures not { comes_out ≡ false → self.new.in_pieces ≡ self.old.in_pieces }
        ensures in_pieces { comes_out ≡ true → self.old.in_pieces < 2 ^ 32 - 1 → self.new.in_pieces ≡ self.old.in_pieces + 1 }
        ensures others { self.new ≡ record self.old { cut = self.new.cut; in_pieces = self.new.in_pieces } }
    {
        self.cut = self.cut.saturating_add(1);
        self.in_pieces = self.in_pieces.saturating_add(u32::from(comes_out));
    }

    /// Prints the transcript of a run of which the file says no result, below its name where it has one. Where it failed, reports
    /// the reason on standard error after the program's name, and counts it.
    pub fn show<R: Print + Eprint>(
        &mut self,
        rt: &R,
        program: &str,
        part: Part<'_>,
        outcome: &Outcome,
    ) -> io::Result<()>
        ensures ended { OnOk result (outcome.now.has_ended ≡ true → self.new ≡ record self.old { lacks_title = false }) }
        ensures failed { OnOk result (outcome.now.has_ended ≡ false → self.old.failed < 2 ^ 32 - 1 →
            self.new ≡ record self.old { lacks_title = false; failed = self.old.failed + 1 }) }
    {
        if self.lacks_title {
            println!(rt; "# {}", part.path)?;
            self.lacks_title = false;
        }
        if let Some(name) = part.name {
            println!(rt; "== {name}")?;
        }
        rt.print(outcome.text())?;
        if !outcome.has_ended {
            let _ = eprintln!(rt; "{program}: {part}: {}", outcome.end);
            self.failed = self.failed.saturating_add(1);
        }
        Ok(())
    }

    /// Prints the number of runs of the file of this path that came out as it says. Returns whether all did.
    pub fn report<R: Print>(self, rt: &R, path: &str, is_thorough: bool) -> io::Result<bool>
        ensures { IfOk result (λ all. all ≡ (self.as_expected == self.expected && self.in_pieces == self.cut && self.failed == 0)) }
    {
        let Results {
            expected,
            as_expected,
            in_pieces,
            ..
        } = self;
        if is_thorough {
            println!(rt;
                "{path}: {as_expected} of {expected} runs as told, {in_pieces} in pieces"
            )?;
        } else if expected > 0 {
            println!(rt; "{path}: {as_expected} of {expected} runs as told")?;
        }
        Ok(as_expected == expected && in_pieces == self.cut && self.failed == 0)
    }
}
