//! The run of the program's own applications.

use crate::application::Application;
use mote_run::End;
use mote_shell::{Failure, Program, Runner, read_words, run_boxed};
use mote_types::app::App;
use mote_types::device::{ByteSink, ByteSource};
use std::alloc::Global;

/// Boxes applications and runs them: here their type is known. The contract is that of `Runner`.
pub struct Boxing;

impl Runner<Application> for Boxing {
    fn run_words<'a, S: ByteSource, K: ByteSink>(
        alloc: Global,
        program: Program,
        words: &'a [&'a str],
        source: &mut S,
        sink: &mut K,
    ) -> Result<End, Failure<'a>> {
        let named = read_words::<Application>(alloc, program, words)?;
        let mut boxes: Vec<Box<dyn App>> = Vec::new(alloc);
        for application in named.applications {
            boxes.push(Box::new(alloc, application)?)?;
        }
        run_boxed(
            alloc,
            named.sizes,
            boxes.as_mut_slice(),
            source,
            sink,
            named.quiet,
        )
    }
}
