//! The memory of a mote, from the calls of a transcript: which blocks there were, where they were, and from when to when.
//!
//! Rows are those of a picture; the reader of the transcript says in which one something happens.

ghost use Rattle.pictures.specs.Spans.{AllEndLater};

pub mod heap;
mod heap_map;
pub mod managed;
pub mod pools;
pub mod stay;

use crate::numbers::{Asked, asked_by};
use heap_map::HeapMap;
use managed::Managed;
use stay::Record;
pub use stay::Stay;
use std::alloc::{AllocError, Global};

/// The sizes of a mote's memory, in bytes.
#[derive(Clone, Copy)]
pub struct Sizes {
    pub managed: u32,
    /// The bytes of managed memory that each process, and the frames, may have. `None` where each may take all that is free.
    pub quota: Option<u32>,
    pub heap: u32,
    /// The length of a header in the heap, 16 or 8.
    pub header: u32,
}

/// A process's call, its reply, and where the call is: its row, and the number of its line, from 0 on.
#[derive(Clone, Copy)]
pub(crate) struct RepliedCall<'a> {
    pub(crate) pid: usize,
    pub(crate) call: &'a str,
    pub(crate) reply: &'a str,
    pub(crate) row: usize,
    pub(crate) line: usize,
}

/// The memory of a mote after the calls so far.
#[derive(Drop)]
pub(crate) struct Memory {
    pub(crate) managed: Managed,
    /// `None` where no heap has the given size.
    heap: Option<HeapMap>,
    /// The used blocks of all pools.
    used: Record,
    /// Those that are in a list.
    linked: Record,
}

/// The blocks of a run.
#[derive(Drop)]
pub struct Stays {
    /// In managed memory, each after those that were made before it.
    pub managed: Vec<Stay>,
    /// In the heap.
    pub heap: Vec<Stay>,
    /// The largest number of blocks that the heap had at once.
    pub most: usize,
    /// The number of the line, from 0 on, with the first call on the heap whose reply by a heap of the given size differs.
    pub differs: Option<usize>,
    /// The same for managed memory, or that of the first frame.
    pub managed_differs: Option<usize>,
    /// The used blocks of the pools, by their numbers among all blocks of all pools.
    pub used: Vec<Stay>,
    /// Those that are in a list, by the number of the list.
    pub linked: Vec<Stay>,
}

impl Memory {
    /// Memory without a block.
    ///
    /// # Errors
    ///
    /// `AllocError` where memory was refused.
    pub(crate) fn new(alloc: Global, sizes: Sizes) -> Result<Self, AllocError> {
        let heap = HeapMap::new(alloc, sizes.heap, sizes.header)?;
        Ok(Memory {
            managed: Managed::new(alloc, sizes.managed, sizes.quota),
            heap,
            used: Record::new(alloc),
            linked: Record::new(alloc),
        })
    }

    /// A call was accepted. Calls that are on no memory change nothing.
    pub(crate) fn carry_out(&mut self, called: &RepliedCall<'_>, asked: &Asked<'_>) {
        self.managed.carry_out(called, asked);
        if let Some(heap) = &mut self.heap {
            heap.carry_out(called, asked);
        }
        pools::carry_out(&mut self.used, called, asked);
        pools::carry_out_on_list(&mut self.linked, called, asked);
    }

    /// A call was refused, which changes nothing.
    pub(crate) fn refuse(&mut self, called: &RepliedCall<'_>) {
        let asked = asked_by(called.call);
        self.managed.refuse(called, &asked);
        if let Some(heap) = &mut self.heap {
            heap.refuse(called, &asked);
        }
    }

    /// What has gone so far is forgotten, and what is there begins in the first row.
    pub(crate) fn forget_rows(&mut self) {
        self.managed.record.forget_rows();
        if let Some(heap) = &mut self.heap {
            heap.forget_rows();
        }
        self.used.forget_rows();
        self.linked.forget_rows();
    }

    /// What is there stays to the end. Returns whether there was memory for all.
    pub(crate) fn close(&mut self) -> bool {
        let is_heap_whole = match &mut self.heap {
            Some(heap) => heap.record.close() & heap.is_whole,
            None => true,
        };
        is_heap_whole & self.managed.record.close() & self.used.close() & self.linked.close()
    }

    /// The blocks that there were.
    pub(crate) fn finish(self, alloc: Global) -> Stays
        ensures { AllEndLater result }
    {
        let Memory {
            managed,
            heap,
            used,
            linked,
        } = self;
        let managed_differs = managed.differs;
        let (most, differs, heap) = match heap {
            Some(heap) => (heap.most, heap.differs, heap.record.finish()),
            None => (0, None, Vec::new(alloc)),
        };
        Stays {
            managed: managed.record.finish(),
            heap,
            most,
            differs,
            managed_differs,
            used: used.finish(),
            linked: linked.finish(),
        }
    }
}
