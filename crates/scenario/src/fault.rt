//! Why a line of a file is malformed.

use call_lists::{CallFault, RowFault};
use mote_kit::run_file::{self, WordFault};
use std::alloc::{AllocError, AllocFailed};
use std::fmt;

/// Why a line of a file is malformed.
#[derive(Clone, Copy, Drop)]
pub(crate) enum Fault<'a> {
    /// As a file of runs it is malformed.
    File(run_file::Fault<'a>),
    /// A text is no application, or no call.
    Call(CallFault<'a>),
    Row(RowFault<'a>),
}

impl<'a> Fault<'a> {
    /// What is wrong with a word.
    pub(crate) fn of_word(fault: WordFault, word: &'a str) -> Self {
        Fault::File(run_file::Fault::Word(fault, word))
    }

    /// The rule that the line breaks.
    pub(crate) fn of_rule(rule: &'static str) -> Self {
        Fault::File(run_file::Fault::Rule(rule))
    }

    /// The form that the line should have.
    pub(crate) fn of_form(form: &'static str) -> Self {
        Fault::File(run_file::Fault::Form(form))
    }

    /// Whether memory was refused.
    pub(crate) fn is_out_of_memory(&self) -> bool {
        matches!(self, Fault::File(run_file::Fault::OutOfMemory))
    }

    /// Whether a word is at fault that a typing mistake may have spoilt.
    pub(crate) fn is_of_words(&self) -> bool {
        match self {
            Fault::File(fault) => fault.is_of_words(),
            Fault::Call(_) | Fault::Row(_) => true,
        }
    }
}

impl fmt::Display for Fault<'_> {
    fn fmt<W: fmt::Write>(&self, f: &mut fmt::Formatter<W>) -> fmt::Result {
        match self {
            Fault::File(fault) => fault.fmt(f),
            Fault::Call(fault) => fault.fmt(f),
            Fault::Row(fault) => fault.fmt(f),
        }
    }
}

impl<'a> From<run_file::Fault<'a>> for Fault<'a> {
    fn from(fault: run_file::Fault<'a>) -> Self {
        Fault::File(fault)
    }
}

impl<'a> From<CallFault<'a>> for Fault<'a> {
    fn from(fault: CallFault<'a>) -> Self {
        Fault::Call(fault)
    }
}

impl<'a> From<RowFault<'a>> for Fault<'a> {
    fn from(fault: RowFault<'a>) -> Self {
        Fault::Row(fault)
    }
}

impl From<AllocError> for Fault<'_> {
    fn from(_error: AllocError) -> Self {
        Fault::File(run_file::Fault::OutOfMemory)
    }
}

impl<T: Drop> From<AllocFailed<T>> for Fault<'_> {
    fn from(_error: AllocFailed<T>) -> Self {
        Fault::File(run_file::Fault::OutOfMemory)
    }
}
