//! Links from one mote to another, and which of their frames are lost.

ghost use Rattle.std.specs.Prelude.{◌≡◌, ◌-◌};
ghost use Rattle.medium_core.specs.Links.{after_frame, fate, is_link, is_loss, is_lost, loss_after, next_draw};
ghost use Rattle.medium_core.specs.declared.link.Fate.TheVariants.{Unused};
ghost use Rattle.medium_core.specs.declared.link.Loss.TheVariants.{EveryNth};

/// Which of the frames that are sent over a link are lost.
#[derive(Clone, Copy, Debug, PartialEq, Eq, Drop)]
pub enum Loss {
    /// None.
    Never,
    /// Every `n`-th: the next `left` frames get through, and the one after them is lost.
    EveryNth { n: u32, left: u32 },
    /// By lot: a frame is lost where the upper 16 bits of the next number drawn are below `chance`, at most 65,536. `drawn` is
    /// the number drawn last, at first the seed. The generator is that of Knuth's MMIX.
    ByLot { chance: u32, drawn: u64 },
}

/// What became of a frame over a link.
#[derive(Clone, Copy, Debug, PartialEq, Eq, Drop)]
pub enum Fate {
    /// No frame was sent over it so far.
    Unused,
    /// It is in flight, or landed.
    Carried,
    /// The link's rule lost it.
    Lost,
    /// It found no room among the frames in flight, and is lost.
    Full,
}

/// A link from one mote to another.
#[derive(Clone, Copy, Debug, PartialEq, Eq, Drop)]
pub struct Link {
    /// The number of the mote that hears.
    pub to: usize,
    /// The number of ticks that a frame is in flight, at least 1.
    pub delay: u32,
    pub loss: Loss,
    /// What became of the frame that was sent over it last.
    pub last: Fate,
}

/// The number that is drawn after this one.
fn draw(drawn: u64) -> u64
    ensures { result ≡ next_draw drawn }
{
    drawn
        .wrapping_mul(6364136223846793005)
        .wrapping_add(1442695040888963407)
}

impl Loss {
    /// Every `n`-th frame is lost, the first ones get through.
    pub fn every_nth(n: u32) -> Loss
        ensures { result ≡ EveryNth n (n - 1) }
    {
        Loss::EveryNth {
            n,
            left: n.saturating_sub(1),
        }
    }

    /// Whether its numbers are within their bounds.
    fn is_sound(&self) -> bool
        ensures { result ≡ is_loss self.now }
    {
        match *self {
            Loss::Never => true,
            Loss::EveryNth { n, left } => left < n,
            Loss::ByLot { chance, .. } => chance <= 65536,
        }
    }

    /// The rule for the frames after the next one.
    fn after(self) -> Loss
        ensures { result ≡ loss_after self }
    {
        match self {
            Loss::Never => Loss::Never,
            Loss::EveryNth { n, left } => Loss::EveryNth {
                n,
                left: if left == 0 {
                    n.saturating_sub(1)
                } else {
                    left - 1
                },
            },
            Loss::ByLot { chance, drawn } => Loss::ByLot {
                chance,
                drawn: draw(drawn),
            },
        }
    }
}

impl Link {
    /// A link over which no frame was sent so far.
    pub fn new(to: usize, delay: u32, loss: Loss) -> Link
        ensures { result ≡ record { to = to; delay = delay; loss = loss; last = Unused } }
    {
        Link {
            to,
            delay,
            loss,
            last: Fate::Unused,
        }
    }

    /// Whether its delay is at least 1, and its rule's numbers are within their bounds.
    pub fn is_sound(&self) -> bool
        ensures { result ≡ is_link self.now }
    {
        self.delay != 0 && self.loss.is_sound()
    }

    /// Whether its rule loses the next frame.
    pub fn loses(&self) -> bool
        ensures { result ≡ is_lost self.now }
    {
        match self.loss {
            Loss::Never => false,
            Loss::EveryNth { left, .. } => left == 0,
            Loss::ByLot { chance, drawn } => draw(drawn) >> 48 < chance as u64,
        }
    }

    /// What becomes of the next frame, where there is room for `free` more.
    pub(crate) fn fate(&self, free: usize) -> Fate
        ensures { result ≡ fate free self.now }
    {
        if self.loses() {
            return Fate::Lost;
        }
        if free == 0 { Fate::Full } else { Fate::Carried }
    }

    /// The link after a frame that found room for `free` more.
    pub(crate) fn after(self, free: usize) -> Link
        ensures { result ≡ after_frame free self }
    {
        Link {
            to: self.to,
            delay: self.delay,
            loss: self.loss.after(),
            last: self.fate(free),
        }
    }
}
