//! A moment, and whose it is.

ghost use Rattle.std.specs.Prelude.{◌≡◌};
ghost use Rattle.network_session.specs.Code.Tournaments.{earlier_of};

#[derive(Clone, Copy, Debug, PartialEq, Eq, Drop)]
pub struct Alarm {
    pub moment: u64,
    /// The number of its owner.
    pub owner: usize,
}

/// The earlier of the two; of one moment, that of the lower number.
pub(crate) fn earlier(a: Alarm, b: Alarm) -> Alarm
    ensures { result ≡ earlier_of a b }
{
    // Branches: a test of both fields at once computes all comparisons each time.
    if a.moment == b.moment {
        if a.owner <= b.owner { a } else { b }
    } else if a.moment < b.moment {
        a
    } else {
        b
    }
}
