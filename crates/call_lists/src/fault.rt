//! Why a text is no call, and no application.

use thiserror::Error;

/// Why a text is no call, or no application.
#[derive(Clone, Copy, Debug, Drop, Error)]
pub enum CallFault<'a> {
    #[error("no application {0}")]
    NoApplication(&'a str),
    #[error("no call {0}")]
    NoCall(&'a str),
    /// A call has fewer words than it takes.
    #[error("{0} lacks a word")]
    TooFewWords(&'a str),
    /// A call has more words than it takes: these.
    #[error("more words than the call takes: {0}")]
    TooManyWords(&'a str),
    #[error("{word} is no number from {least} to {most}")]
    NoNumber {
        word: &'a str,
        least: u32,
        most: u32,
    },
    #[error("{word} is no hex of at most {most} bytes")]
    NoHex {
        word: &'a str,
        most: usize,
    },
    #[error("an application makes at most 128 calls")]
    TooManyCalls,
}
