//! The map of the heap: where its blocks are, by a heap in which the accepted calls of the transcript are executed.

ghost use Rattle.std.specs.Prelude.{◌≡◌, IfSome};
ghost use Rattle.mote_types.specs.Code.Conditions.{IsName};
ghost use Rattle.heap_core.specs.Code.Conditions.{IsHeaderLength};

use crate::memory::RepliedCall;
use crate::memory::heap::LiveHeap;
use crate::memory::stay::{Record, Sought, Stay};
use crate::numbers::Asked;
use heap_core::Key;
use mote_types::event::Pid;
use std::alloc::{AllocError, Global};

/// The blocks of the heap.
#[derive(Drop)]
pub(crate) struct HeapMap {
    alloc: Global,
    heap: LiveHeap,
    header: u32,
    pub(crate) record: Record,
    /// The largest number of blocks at once.
    pub(crate) most: usize,
    /// The line of the first call whose reply by this heap differs from the transcript.
    pub(crate) differs: Option<usize>,
    /// Whether there was memory for each comparison so far.
    pub(crate) is_whole: bool,
}

/// The length of a header, 16 where a heap has none of that length.
fn header_length(header: u32) -> u32
    ensures { IsHeaderLength result }
{
    if header == 8 { 8 } else { 16 }
}

/// The name of a process's block, if it may have one of that number.
fn key_of(pid: usize, number: u64) -> Option<Key>
    ensures { IfSome result (λ key. IsName key.0.0 key.1) }
{
    if pid < 3 || pid > 19 || number > 15 {
        return None;
    }
    Some((Pid(pid as u8), number as u8))
}

/// The length that a call asks for.
fn size_of(asked: &Asked<'_>) -> u32 {
    asked.second.min(u32::MAX as u64) as u32
}

impl HeapMap {
    /// The map of a heap without a block. `None` where no heap has that size.
    pub(crate) fn new(alloc: Global, size: u32, header: u32) -> Result<Option<Self>, AllocError> {
        if size < 20 || size > 65_536 || size % 4 != 0 {
            return Ok(None);
        }
        let header = header_length(header);
        let Some(heap) = LiveHeap::new(alloc, size, header)? else {
            return Ok(None);
        };
        Ok(Some(HeapMap {
            alloc,
            heap,
            header,
            record: Record::new(alloc),
            most: 0,
            differs: None,
            is_whole: true,
        }))
    }

    /// A call was accepted.
    pub(crate) fn carry_out(&mut self, called: &RepliedCall<'_>, asked: &Asked<'_>) {
        if asked.name == "heap-stats" {
            match self.has_stats(called.reply) {
                Ok(is_so) => self.compare(is_so, called.line),
                Err(_) => self.is_whole = false,
            }
            return;
        }
        let Some(key) = key_of(called.pid, asked.first) else {
            return;
        };
        let size = size_of(asked);
        let is_so = match asked.name {
            "heap-alloc" => self.heap.alloc(key, size),
            "heap-realloc" => self.heap.realloc(key, size),
            "heap-free" => self.heap.free(key),
            _ => return,
        };
        self.compare(is_so, called.line);
        self.show(key, size, called.row);
    }

    /// Stores the first line that says what isn't so.
    fn compare(&mut self, is_so: bool, line: usize) {
        if !is_so {
            self.differs = self.differs.or(Some(line));
        }
    }

    /// A call was refused. Where that was for lack of room, this heap has none either.
    pub(crate) fn refuse(&mut self, called: &RepliedCall<'_>, asked: &Asked<'_>) {
        let Some(key) = key_of(called.pid, asked.first) else {
            return;
        };
        if called.reply != "refused 12" {
            return;
        }
        let size = size_of(asked);
        // Where it has one, the map is another run's from here on in any case.
        let is_taken = match asked.name {
            "heap-alloc" => self.heap.alloc(key, size),
            "heap-realloc" => self.heap.realloc(key, size),
            _ => false,
        };
        self.compare(!is_taken, called.line);
    }

    /// Whether these are the statistics of the heap.
    fn has_stats(&self, reply: &str) -> Result<bool, AllocError> {
        let stats = self.heap.stats();
        let own = format!(in self.alloc;
            "stats {} {} {} {} {}",
            stats.allocated, stats.overhead, stats.available, stats.footprint, stats.chunks
        )?;
        Ok(own.as_str() == reply)
    }

    /// A block's stay ends in a row; where it is still live, another one begins.
    fn show(&mut self, key: Key, size: u32, row: usize)
        requires { IsName key.0.0 key.1 }
    {
        let pid = key.0.0 as usize;
        let name = key.1 as u64;
        self.record.end(Sought::Named(pid, name), row);
        let Some(block) = self.heap.place_of(key) else {
            return;
        };
        self.record.begin(Stay {
            pid,
            name,
            at: block.at as u64,
            taken: self.header as u64 + block.room as u64,
            size: size as u64,
            first: row,
            last: None,
        });
        self.most = self.most.max(self.record.live().len());
    }

    pub(crate) fn forget_rows(&mut self) {
        self.record.forget_rows();
        self.most = self.record.live().len();
    }
}
