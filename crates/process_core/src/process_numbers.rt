//! The numbers of processes, in list order.

ghost use Rattle.std.specs.Prelude.{◌≡◌, ◌≤◌, ◌<◌, ◌++◌, [], ◌∷◌, length};

use crate::marks::PROCESSES;
use std::marker::Model;

/// Room for the numbers of all processes.
///
/// No `ArrayVec`: a walk is a copy of these, and to copy an `ArrayVec` is a call of memcpy for as much as it holds.
#[derive(Drop)]
pub struct ProcessNumbers {
    numbers: [u8; PROCESSES],
    len: usize,
}

impl Model for ProcessNumbers {
    ghost use Rattle.std.specs.Prelude.{◌≡◌, ◌≤◌, ℕ, length, take};
    ghost use Rattle.arrayvec.specs.ArrayVec.{ArrayVec as Items};

    ghost Value = { Items ℕ };

    ghost view = { λ n. record { items = take n.len n.numbers } };

    ghost invariant = { λ n. (n.len ≤ 20) × (length n.numbers ≡ 20) };
}

impl ProcessNumbers {
    /// No number.
    pub fn new() -> Self
        ensures { result.items ≡ [] }
    {
        ProcessNumbers {
            numbers: [0; PROCESSES],
            len: 0,
        }
    }

    /// This number, and after it these.
    pub fn with_first(first: u8, rest: &[u8]) -> Self
        requires { length rest.now < 20 }
        ensures { result.items ≡ first ∷ rest.now }
    {
        let mut numbers = [0; PROCESSES];
        let len = 1 + rest.len();
        numbers[0] = first;
        numbers[1..len].copy_from_slice(rest);
        ProcessNumbers { numbers, len }
    }

    /// The same numbers once more.
    pub fn copied(&self) -> Self
        ensures value { result ≡ self.now }
        ensures few { length result.items ≤ 20 }
    {
        ProcessNumbers {
            numbers: self.numbers,
            len: self.len,
        }
    }

    /// The number of them.
    pub fn len(&self) -> usize
        ensures value { result ≡ length self.now.items }
        ensures few { result ≤ 20 }
    {
        self.as_slice().len()
    }

    pub fn as_slice(&self) -> &[u8]
        ensures value { result.now ≡ self.now.items }
        ensures few { length result.now ≤ 20 }
    {
        &self.numbers[..self.len]
    }

    /// Appends this number.
    pub fn push(&mut self, number: u8)
        requires { length self.old.items < 20 }
        ensures { self.new.items ≡ self.old.items ++ number ∷ [] }
    {
        self.numbers[self.len] = number;
        self.len += 1;
    }
}
