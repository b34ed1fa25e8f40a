//! For authors of applications: scripts and transcripts in memory, whole runs, where two transcripts differ, and files with runs.
#![tactic(auto)]

mod alignment;
pub mod changes;
pub mod difference;
pub mod gaps;
pub mod mote;
pub mod run_file;
pub mod script;
pub mod text_file;
pub mod transcript;

pub use mote_text::script::read_number;
pub use mote_types::app::App;
pub use mote_types::{
    FromName, chunk_of, fault, number_line, push_bytes, push_decimal, push_latest, same_bytes,
};

/// A list of boxes with these applications, which are processes 4, 5, .. in this order. Use it in a function that
/// returns a `Result`, since memory may be refused.
#[macro_export]
macro_rules! boxes {
    ($alloc:expr; $($app:expr),* $(,)?) => {{
        let mut boxes: Vec<Box<dyn $crate::App>> = Vec::new($alloc);
        $(boxes.push(Box::new($alloc, $app)?)?;)*
        boxes
    }};
}
