//! From arguments to what they name.

ghost use Rattle.std.specs.Prelude.{◌≡◌, ◌≤◌, Some, None, find, filter_map, length, IfOk, IfErr};
ghost use Rattle.clap.specs.Walk.{rows_of, texts};
ghost use Rattle.clap.specs.Words.{found_of};
ghost use Rattle.command_line.specs.CommandLine.{NamesApplications, Refuses, RefusesNames, applications_of, is_unknown, named_in, names_of, sizes_of};
ghost use Rattle.command_line.specs.Code.Names.{application_of, refusal_of};

use crate::options::{is_quiet, number_in, parse, size_in};
use crate::program::Program;
use crate::refusal::Refusal;
use arrayvec::ArrayVec;
use clap::ArgMatches;
use mote_types::{FromName, event};
use node_memory::Sizes;
use std::alloc::Global;

/// The largest number of applications of a mote.
pub const MOST_APPLICATIONS: usize = event::MOST_APPLICATIONS as usize;

/// The applications of a mote, in the order of their process numbers.
pub type Applications<T> = ArrayVec<T, MOST_APPLICATIONS>;

/// What arguments name.
#[derive(Drop)]
pub struct Named<T> {
    pub applications: Applications<T>,
    pub sizes: Sizes,
    /// Whether the transcript is a quiet one.
    pub quiet: bool,
}

/// The applications of these names.
fn read_names<'a, T: FromName>(names: &[&'a str]) -> Result<Applications<T>, Refusal<'a>>
    ensures applications { IfOk result (λ applications. applications.items ≡ filter_map (application_of T.by_name) names.now) }
    ensures known { IfOk result (λ _. refusal_of T.by_name names.now ≡ None) }
    ensures refused { IfErr result (λ refusal. refusal_of T.by_name names.now ≡ Some refusal) }
{
    let mut applications = ArrayVec::new();
    for name in names {
        let application = T::from_name(name).ok_or(Refusal::NoApplication(*name))?;
        let _ = applications.try_push(application);
    }
    if names.len() > MOST_APPLICATIONS {
        return Err(Refusal::TooManyApplications);
    }
    Ok(applications)
}

/// The applications whose names the parser found.
fn applications_in<'a, T: FromName>(
    matches: &ArgMatches<'a>,
) -> Result<Applications<T>, Refusal<'a>>
    ensures applications { IfOk result
        (λ applications. applications.items ≡ applications_of T.by_name (names_of (rows_of (found_of matches.now)))) }
    ensures known { IfOk result (λ _. find (is_unknown T.by_name) (names_of (rows_of (found_of matches.now))) ≡ None) }
    ensures few { IfOk result (λ _. length (names_of (rows_of (found_of matches.now))) ≤ 16) }
    ensures refused { IfErr result (RefusesNames T.by_name (names_of (rows_of (found_of matches.now)))) }
{
    match matches.get_strs("APP") {
        Some(names) => read_names(names),
        None => Ok(ArrayVec::new()),
    }
}

/// The sizes among what the parser found. Where the option for it isn't used a region has 4,096 bytes, a header has 16, and there is no
/// quota.
pub fn sizes_in(matches: &ArgMatches<'_>) -> Sizes
    ensures { result ≡ sizes_of (rows_of (found_of matches.now)) }
{
    Sizes {
        mmem: size_in(matches, "mmem"),
        heap: size_in(matches, "heap"),
        header: size_in(matches, "header"),
        quota: number_in(matches, "quota"),
    }
}

/// What the arguments name. The first is the program's name.
///
/// # Errors
///
/// First `Request` or `Words` with what the parser finds, then `NoApplication` with the first name that no application
/// has, then `TooManyApplications` where there are more than 16. `OutOfMemory` where memory was refused.
pub fn read_words<'a, T: FromName>(
    alloc: Global,
    program: Program,
    words: &'a [&'a str],
) -> Result<Named<T>, Refusal<'a>>
    ensures taken { IfOk result (λ _. NamesApplications T.by_name (texts words.now)) }
    ensures named { IfOk result (λ named. named ≡ named_in T.by_name (texts words.now)) }
    ensures refused { IfErr result (Refuses T.by_name (texts words.now)) }
{
    let matches = parse(alloc, program, words)?;
    let applications = applications_in(&matches)?;
    Ok(Named {
        applications,
        sizes: sizes_in(&matches),
        quiet: is_quiet(&matches),
    })
}
