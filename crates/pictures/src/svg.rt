//! The picture of a run: one SVG, laid out from the run's transcript. Its markup, its page with the columns of memory, and the whole.

mod drawing;
mod grounds;
mod head;
pub mod markup;
pub mod page;
pub mod picture;
mod strip;
mod style;
mod timer_lines;

pub use picture::{Picture, Settings, draw};
