//! The sizes that a file states, with the lines that state them.

ghost use Rattle.std.specs.Prelude.{◌≡◌, ◌≤◌, ◌==◌, ◌↔◌, ◌&&◌, ◌*◌, ◌+◌, ◌%◌, None, true, nat_le, unwrap_or};
ghost use Rattle.kernel_core.specs.Machine.{is_bootable};
ghost use Rattle.mote_run.specs.Code.Runs.{config_of};

use crate::mote::{DEFAULT_SIZES, Sizes};
use crate::run_file::fault::{Fault, Misread, WordFault, number_of};
use crate::run_file::line::Line;
use crate::run_file::rule;

/// The most that a size may be.
const MOST: u32 = 65_536;

/// The least that managed memory, a quota of it and heap memory may be.
const LEAST_MMEM: u32 = 4;

const LEAST_HEAP: u32 = 20;

/// The sizes of a mote, and the number of the line that states each: 0 where none does.
#[derive(Clone, Copy, Drop)]
pub(crate) struct StatedSizes {
    pub(crate) sizes: Sizes,
    mmem_line: usize,
    heap_line: usize,
    quota_line: usize,
    header_line: usize,
}

/// Whether a size is a multiple of 4 within its bounds.
fn is_size(size: u32, least: u32) -> bool
    ensures { result ≡ (nat_le least size && nat_le size 65536 && size % 4 == 0) }
{
    size % 4 == 0 && least <= size && size <= MOST
}

impl StatedSizes {
    /// The default sizes, of which none is stated.
    pub(crate) fn new() -> Self
        ensures sizes { result.sizes ≡ DEFAULT_SIZES }
        ensures mmem { result.mmem_line ≡ 0 }
        ensures heap { result.heap_line ≡ 0 }
        ensures quota { result.quota_line ≡ 0 }
        ensures header { result.header_line ≡ 0 }
    {
        StatedSizes {
            sizes: DEFAULT_SIZES,
            mmem_line: 0,
            heap_line: 0,
            quota_line: 0,
            header_line: 0,
        }
    }

    /// Stores the size that a line states.
    ///
    /// # Errors
    ///
    /// `Twice` where it was stated before.
    pub(crate) fn read<'a>(&mut self, line: Line<'a>) -> Result<(), Fault<'a>> {
        let size = number_of(line.rest, 0, u32::MAX)?;
        let stated = match line.word {
            "mmem" => {
                self.sizes.mmem = size;
                &mut self.mmem_line
            }
            "heap" => {
                self.sizes.heap = size;
                &mut self.heap_line
            }
            "quota" => {
                self.sizes.quota = Some(size);
                &mut self.quota_line
            }
            _ => {
                self.sizes.header = size;
                &mut self.header_line
            }
        };
        if *stated > 0 {
            return Err(Fault::Word(WordFault::Twice, line.word));
        }
        *stated = line.number;
        Ok(())
    }

    /// The line of a size with which no mote with that number of applications boots. Nothing where it boots.
    pub(crate) fn misread<'a>(&self, applications: usize) -> Option<Misread<'a>>
        ensures { applications ≤ 16 → ((result ≡ None) ↔ (is_bootable (config_of self.now.sizes applications) ≡ true)) }
    {
        let sizes = self.sizes;
        let quota = sizes.quota.unwrap_or(LEAST_MMEM);
        let (line, fault) = if !is_size(sizes.mmem, LEAST_MMEM) {
            (self.mmem_line, bad_size("mmem", LEAST_MMEM))
        } else if !is_size(sizes.heap, LEAST_HEAP) {
            (self.heap_line, bad_size("heap", LEAST_HEAP))
        } else if !is_size(quota, LEAST_MMEM) {
            (self.quota_line, bad_size("quota", LEAST_MMEM))
        } else if !matches!(sizes.header, 16 | 8) {
            (self.header_line, Fault::Rule(rule::HEADERS))
        } else if !self.has_room_for_quotas(applications) {
            (self.quota_line, Fault::Rule(rule::QUOTAS))
        } else {
            return None;
        };
        Some(Misread { line, fault })
    }

    /// Whether managed memory has a quota for each application and one for the frames.
    fn has_room_for_quotas(&self, applications: usize) -> bool
        ensures { result ≡ nat_le (unwrap_or self.now.sizes.quota 0 * (applications + 1)) self.now.sizes.mmem }
    {
        let quotas = (applications as u64).saturating_add(1);
        let quota = u64::from(self.sizes.quota.unwrap_or(0));
        quotas.saturating_mul(quota) <= u64::from(self.sizes.mmem)
    }
}

fn bad_size<'a>(name: &'static str, least: u32) -> Fault<'a> {
    Fault::BadSize { name, least }
}
