//! The run of the program's own applications.

use mote_apps::bundled::Bundled;
use mote_run::End;
use mote_shell::{Failure, Program, Runner, read_words, run_boxed};
use mote_types::app::App;
use mote_types::device::{ByteSink, ByteSource};
use std::alloc::Global;

/// Boxes applications and runs them: here their type is known. The contract is that of `Runner`.
pub struct Boxing;

impl Runner<Bundled> for Boxing {
    fn run_words<'a, S: ByteSource, K: ByteSink>(
        alloc: Global,
        program: Program,
        words: &'a [&'a str],
        source: &mut S,
        sink: &mut K,
    ) -> Result<End, Failure<'a>> {
        let named = read_words::<Bundled>(alloc, program, words)?;
        let mut boxes: Vec<Box<dyn App>> = Vec::new(alloc);
        for application in named.applications {
            // Those with many turns each have a box of their own type: the mote calls it without asking which one it is.
            let boxed: Box<dyn App> = match application {
                Bundled::Blink(blink) => Box::new(alloc, blink)?,
                Bundled::Echo(echo) => Box::new(alloc, echo)?,
                Bundled::Relay(relay) => Box::new(alloc, relay)?,
                Bundled::Ping(ping) => Box::new(alloc, ping)?,
                other => Box::new(alloc, other)?,
            };
            boxes.push(boxed)?;
        }
        run_boxed(
            alloc,
            named.sizes,
            boxes.as_mut_slice(),
            source,
            sink,
            named.quiet,
        )
    }
}
