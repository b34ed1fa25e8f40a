//! Files with runs (`docs/scenarios.md` has the format): the runs of a file, what it says of each, whether a run came out so, and the
//! file's lines with the results of its runs. Which applications, networks and transcripts there are, only the program that executes
//! the runs knows: it gets the lines that say these.

mod comparison;
mod fault;
mod flaw;
mod forms;
mod inputs;
mod line;
mod line_form;
mod new_lines;
mod outcome;
mod parts;
mod record;
mod results;
mod rule;
mod sizes;
mod spelled;
mod written_run;

pub use comparison::comes_out;
pub use fault::{Fault, Misread, WordFault};
pub use flaw::{Flaw, flaw_at};
pub use line::{Line, begins_with_digit};
pub use line_form::setup_form;
pub use new_lines::NewLines;
pub use outcome::{Outcome, RunEnd, run_mote};
pub use parts::{Part, line_at, parts_of};
pub use record::json_of;
pub use results::Results;
pub use rule::ROWS_ABOVE;
pub use spelled::plain_text;
pub use written_run::{Unread, WrittenRun};
