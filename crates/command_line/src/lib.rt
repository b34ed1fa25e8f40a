//! The command line of programs that run applications by their names, as the parser `clap` reads it: what the arguments name, why
//! there is no run, the status that a program exits with, and its messages.
#![tactic(auto)]

mod failure;
mod named;
mod options;
mod program;
mod refusal;
mod report;
mod words;

pub use failure::{Failure, status_of};
pub use named::{Applications, MOST_APPLICATIONS, Named, read_words, sizes_in};
pub use options::{flag, names_argument, number_option, with_sizes};
pub use program::Program;
pub use refusal::{ParserText, Refusal};
pub use report::{Report, Stream, exit_code, finish};
pub use words::{texts_of, words_of};
