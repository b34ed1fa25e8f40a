//! The numbers by which C names the kinds of calls: 1, 2, .. in the order in which `Call` of mote_types has them.
//!
//! Written by scripts/make-calls from interface/rules.json: change that file, and run the program again.

pub const POST: u32 = 1;

pub const BROADCAST: u32 = 2;

pub const POST_SYNCH: u32 = 3;

pub const POLL: u32 = 4;

pub const START: u32 = 5;

pub const KILL: u32 = 6;

pub const IS_RUNNING: u32 = 7;

pub const ALLOC_EVENT: u32 = 8;

pub const TIMER_SET: u32 = 9;

pub const TIMER_STOP: u32 = 10;

pub const TIMER_RESET: u32 = 11;

pub const TIMER_RESTART: u32 = 12;

pub const TIMER_EXPIRED: u32 = 13;

pub const CALLBACK_SET: u32 = 14;

pub const CALLBACK_STOP: u32 = 15;

pub const CLOCK: u32 = 16;

pub const PRINT: u32 = 17;

pub const WAIT: u32 = 18;

pub const EXIT: u32 = 19;

pub const MMEM_ALLOC: u32 = 20;

pub const MMEM_FREE: u32 = 21;

pub const MMEM_WRITE: u32 = 22;

pub const MMEM_READ: u32 = 23;

pub const MMEM_COPY: u32 = 24;

pub const MMEM_AVAIL: u32 = 25;

pub const HEAP_ALLOC: u32 = 26;

pub const HEAP_REALLOC: u32 = 27;

pub const HEAP_FREE: u32 = 28;

pub const HEAP_WRITE: u32 = 29;

pub const HEAP_READ: u32 = 30;

pub const HEAP_STATS: u32 = 31;

pub const MEMB_ALLOC: u32 = 32;

pub const MEMB_FREE: u32 = 33;

pub const MEMB_WRITE: u32 = 34;

pub const MEMB_READ: u32 = 35;

pub const MEMB_NUM_FREE: u32 = 36;

pub const LIST_ADD: u32 = 37;

pub const LIST_PUSH: u32 = 38;

pub const LIST_INSERT: u32 = 39;

pub const LIST_POP: u32 = 40;

pub const LIST_CHOP: u32 = 41;

pub const LIST_REMOVE: u32 = 42;

pub const LIST_HEAD: u32 = 43;

pub const LIST_NEXT: u32 = 44;

pub const LIST_LENGTH: u32 = 45;

pub const PACKET_OPEN: u32 = 46;

pub const PACKET_READ: u32 = 47;

pub const PACKET_DONE: u32 = 48;

pub const PACKET_COUNT: u32 = 49;

pub const PACKET_SEND: u32 = 50;
