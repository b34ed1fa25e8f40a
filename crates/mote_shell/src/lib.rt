//! What programs have in common that run applications by their names: the run of what the command line names, the text of the help, and
//! standard input and output as devices.
#![tactic(auto)]

mod help;
mod runner;
mod running;
mod streams;

pub use command_line::{
    Applications, Failure, Named, ParserText, Program, Refusal, Report, Stream, exit_code, finish,
    read_words, status_of, texts_of, words_of,
};
pub use runner::{Runner, run_boxed};
pub use running::{run_to_status, work};
pub use streams::{Input, Output};
