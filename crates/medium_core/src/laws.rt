//! Laws of the medium. The functions do nothing; their contracts are the laws.

ghost use Rattle.std.specs.Prelude.{ℕ, List};
ghost use Rattle.medium_core.specs.declared.link.Link.{Link};
ghost use Rattle.medium_core.specs.Laws.{Deed, Frame, KeepsFaith, LosesEveryNth};

/// Whatever happens to a medium, it keeps faith.
pub fn media_keep_faith()
    ensures { (room : ℕ) (links : List (List Link)) (deeds : List Deed) → KeepsFaith room links deeds }
{}

/// A link that loses every n-th frame loses exactly those.
pub fn every_nth_is_lost()
    ensures { (n : ℕ) (link : Link) (frames : List Frame) → LosesEveryNth n link frames }
{}
