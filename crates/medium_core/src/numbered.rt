//! A frame in flight with a number.

ghost use Rattle.std.proofs.Common.{rules};
ghost use Rattle.std.specs.Prelude.{◌==◌};
ghost use Rattle.std.specs.Cmp.{partial_order_from_own_ties};
ghost use Rattle.std.specs.Cmp.Rules.{comparing};
ghost use Rattle.std.specs.Ordering.{as_partial_cmp, eq_of_both, flip_args, nat_cmp, on, then_cmp};

use crate::flight::Flight;
use std::cmp::Ordering;

/// A frame in flight. The greatest arrives first: of two that arrive at one moment, the one with the lower number.
#[derive(Drop)]
pub(crate) struct Numbered {
    pub(crate) number: u64,
    pub(crate) flight: Flight,
}

impl PartialEq for Numbered {
    ghost eq = { eq_of_both (on (λ a. a.flight.due) ◌==◌) (on (λ a. a.number) ◌==◌) };

    ghost laws = { Prim.search (comparing, rules) };

    fn eq(&self, other: &Numbered) -> bool {
        self.flight.due == other.flight.due && self.number == other.number
    }
}

impl Eq for Numbered {
    ghost laws = { Prim.search (comparing, rules) };
}

impl Ord for Numbered {
    ghost cmp = { flip_args (then_cmp (on (λ a. a.flight.due) nat_cmp) (on (λ a. a.number) nat_cmp)) };

    ghost total = { Prim.search (comparing, rules) };

    ghost matches_partial_cmp = { Prim.search (comparing, rules) };

    ghost matches_eq = { Prim.search (comparing, rules) };

    fn cmp(&self, other: &Numbered) -> Ordering {
        other
            .flight
            .due
            .cmp(&self.flight.due)
            .then(other.number.cmp(&self.number))
    }
}

impl PartialOrd for Numbered {
    ghost partial_cmp = { as_partial_cmp (flip_args (then_cmp (on (λ a. a.flight.due) nat_cmp) (on (λ a. a.number) nat_cmp))) };

    ghost laws = { partial_order_from_own_ties (Prim.search (comparing, rules)) (Prim.search (comparing, rules)) };

    fn partial_cmp(&self, other: &Numbered) -> Option<Ordering> {
        Some(self.cmp(other))
    }
}
