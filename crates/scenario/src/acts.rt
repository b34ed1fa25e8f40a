//! What the applications of a run do.

use crate::fault::Fault;
use call_lists::{Application, Row, Trigger, row_of};
use mote_kit::run_file::{Line, ROWS_ABOVE, WordFault};
use std::alloc::Global;

/// A row breaks this rule that has the stimulus of one above.
const ONE_ROW: &str = "the row's stimulus has a row above";

/// What an application does.
#[derive(Drop)]
pub(crate) enum Acts {
    /// As its name or its list of calls says.
    ByName(Application),
    /// As its rows say.
    ByRows(Vec<Row>),
}

/// Whether one of these rows is for a stimulus.
fn has_row(rows: &[Row], trigger: Trigger) -> bool {
    for row in rows {
        if row.trigger() == trigger {
            return true;
        }
    }
    false
}

impl Acts {
    /// What the application of a line does that begins with `app`, `calls` or `rows`.
    pub(crate) fn of<'a>(alloc: Global, line: Line<'a>) -> Result<Self, Fault<'a>> {
        match line.word {
            "app" => Ok(Acts::ByName(Application::named(line.rest)?)),
            "calls" => Ok(Acts::ByName(Application::listed(line.rest)?)),
            "rows" if line.rest.is_empty() => Ok(Acts::ByRows(Vec::new(alloc))),
            "rows" => Err(Fault::of_word(WordFault::TakesNoWord, line.word)),
            _ => Err(Fault::of_word(WordFault::Unknown, line.word)),
        }
    }

    /// Adds one more row, which has this text.
    ///
    /// # Errors
    ///
    /// Where the application has no rows, where the row is malformed, and where one has the same stimulus.
    pub(crate) fn read_row<'a>(&mut self, alloc: Global, text: &'a str) -> Result<(), Fault<'a>> {
        let Acts::ByRows(rows) = self else {
            return Err(Fault::of_rule(ROWS_ABOVE));
        };
        let row = row_of(alloc, text)?;
        if has_row(rows.as_slice(), row.trigger()) {
            return Err(Fault::of_rule(ONE_ROW));
        }
        rows.push(row)?;
        Ok(())
    }
}
