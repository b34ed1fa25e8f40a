//! Applications as words: by their names, as lists of calls, each with the words that a transcript shows, and as rows, each with
//! the calls for a stimulus. Its contracts promise which application a name is, which calls are made where a list of calls is
//! accepted, what an application of rows says, and that a row which was read is one of its text.
#![tactic(auto)]

mod applications;
mod calls;
mod fault;
mod rows;
mod words;

pub use applications::Application;
pub use calls::call_of;
pub use fault::CallFault;
pub use rows::{Reactions, Row, RowFault, Step, Trigger, row_of};
pub use words::number_of;
