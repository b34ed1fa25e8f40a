//! Applications as rows: for each stimulus its calls.

mod fault;
mod filling;
mod reactions;
mod reading;
mod row;
mod trigger;

pub use fault::RowFault;
pub use reactions::Reactions;
pub use reading::row_of;
pub use row::{Row, Step};
pub use trigger::Trigger;
