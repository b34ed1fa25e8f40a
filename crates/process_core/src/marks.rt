//! The marks of the processes: a poll of a marked one is pending.

ghost use Rattle.std.specs.Prelude.{◌≡◌, ◌<◌, ◌^◌, ◌==◌, nat_lt};
ghost use Rattle.process_core.specs.Code.ProcessList.{mark_at, with_bit};

use std::marker::Model;

/// The largest number of processes.
pub const PROCESSES: usize = 20;

/// The bits of the kernel's processes.
const KERNEL_BITS: u32 = 15;

/// Which processes are marked: a bit for each, by their numbers. So whether any is, or only one, takes one comparison.
#[derive(Drop)]
pub struct Marks {
    bits: u32,
}

impl Model for Marks {
    ghost use Rattle.std.specs.Prelude.{ℕ};

    ghost Value = { ℕ };

    ghost view = { λ m. m.bits };
}

impl Marks {
    /// No process is marked.
    pub fn new() -> Marks
        ensures { result ≡ 0 }
    {
        Marks { bits: 0 }
    }

    /// Whether the process of this number is marked.
    #[tactic(auto, using(crate::proofs::MarkBits::shifted_bit))]
    pub fn is_marked(&self, number: u8) -> bool
        requires { number < 32 }
        ensures { result ≡ mark_at self.now number }
    {
        (self.bits >> number) & 1 == 1
    }

    /// Whether any process is marked.
    pub fn is_any(&self) -> bool
        ensures { result ≡ nat_lt 0 self.now }
    {
        self.bits > 0
    }

    /// Whether any application is marked.
    pub fn is_application_marked(&self) -> bool
        ensures { result ≡ nat_lt 15 self.now }
    {
        self.bits > KERNEL_BITS
    }

    /// Whether only the process of this number is marked.
    pub fn is_only(&self, number: u8) -> bool
        requires { number < 32 }
        ensures { result ≡ (self.now == 2 ^ number) }
    {
        self.bits == 1 << number
    }

    /// Sets or clears a mark.
    #[tactic(auto, unfolding(crate::specs::Code::ProcessList::with_bit))]
    pub fn set(&mut self, number: u8, marked: bool)
        requires { number < 32 }
        ensures { self.new ≡ with_bit number marked self.old }
    {
        if marked {
            self.bits |= 1 << number;
        } else {
            self.bits &= !(1 << number);
        }
    }
}
