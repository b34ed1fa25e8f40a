//! The lines of a transcript, read in the forms of `docs/transcript.md`: one reader for all programs that read transcripts. It
//! promises that it is safe and ends, and that what it returns is in the line.

mod forms;
pub mod line;
pub mod quiet;
pub mod turn;

pub(crate) use forms::number;
pub use line::{Ending, Input, Line, Note, read_line};
pub use quiet::is_quiet;
pub use turn::{Origin, Turn, read_turn};
