//! What leads from one row to a later one.

ghost use Rattle.std.specs.Prelude.{All};
ghost use Rattle.std.specs.Bool.{OnFalse, OnTrue};
ghost use Rattle.pictures.specs.Spans.{EndsLater};

use std::alloc::Global;
use std::marker::Model;

/// Something from a row on.
pub(crate) trait Span: Copy {
    ghost leads_on: { Self → Type 0 };

    /// Whether it ends in a later row than the one where it begins, or in none.
    fn ends_later(&self) -> bool
        ensures later { OnTrue result (leads_on self.now) }
        ensures single { OnFalse result (leads_on self.now → ⊥) };
}

/// The spans that have ended so far.
#[derive(Drop)]
pub(crate) struct Spans<T: Span> {
    ended: Vec<T>,
    /// Whether there was memory for all of them so far.
    is_whole: bool,
}

impl<T: Span> Model for Spans<T> {
    ghost use Rattle.std.specs.Prelude.{List, All};

    ghost Value = { List T };

    ghost view = { λ spans. spans.ended.items };

    ghost invariant = { λ spans. All T.leads_on spans.ended.items };
}

impl<T: Span> Spans<T> {
    pub(crate) fn new(alloc: Global) -> Self {
        Spans {
            ended: Vec::new(alloc),
            is_whole: true,
        }
    }

    /// A span has ended. One that was in a single row is not stored.
    pub(crate) fn end(&mut self, span: T) {
        if span.ends_later() {
            self.is_whole &= self.ended.push(span).is_ok();
        }
    }

    /// What has ended so far is forgotten.
    pub(crate) fn forget(&mut self) {
        self.ended.clear();
    }

    pub(crate) fn is_whole(&self) -> bool {
        self.is_whole
    }

    /// The spans, in the order in which they ended.
    pub(crate) fn finish(self) -> Vec<T>
        ensures { All T.leads_on result.items }
    {
        self.ended
    }
}

/// Whether a later row than the first is the last one, or none.
pub(crate) fn ends_later(first: usize, last: Option<usize>) -> bool
    ensures later { OnTrue result (EndsLater first last) }
    ensures single { OnFalse result (EndsLater first last → ⊥) }
{
    match last {
        Some(last) => first < last,
        None => true,
    }
}
