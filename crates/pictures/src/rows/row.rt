//! The rows of a picture.

/// What a row shows of its lines.
#[derive(Clone, Copy)]
pub enum Show {
    /// The first line, and after it what belongs to it: the end of its activation, or others who only wait too.
    Lines,
    /// Consecutive ticks.
    Ticks,
    /// Lines that repeat earlier ones: this number of them is one repetition.
    Again(usize),
}

/// Consecutive lines of a transcript.
#[derive(Clone, Copy)]
pub struct Row {
    /// The number of the first one, from 0 on.
    pub first: usize,
    /// Their number.
    pub count: usize,
    pub show: Show,
}
