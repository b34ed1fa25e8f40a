//! What the arguments name.

ghost use Rattle.std.specs.Prelude.{◌≡◌, ◌≤◌, ◌++◌, true, false, flat_map, IfOk, IfErr, string_bytes};
ghost use Rattle.clap.specs.Walk.{rows_of, texts};
ghost use Rattle.clap.specs.Words.{found_of};
ghost use Rattle.command_line.specs.CommandLine.{sizes_of};
ghost use Rattle.node_memory.specs.Sizes.{are_sizes};
ghost use Rattle.mote_picture.specs.CommandLine.{matches_in};
ghost use Rattle.mote_picture.specs.Named as spec;
ghost use Rattle.mote_picture.specs.Named.{IsBackwards, IsForm, IsNamed, IsOfWords, IsSet, IsUnset, MayReport, title_word};

use crate::options::parse;
use crate::undrawn::Undrawn;
use clap::ArgMatches;
use command_line::{Failure, MOST_APPLICATIONS, sizes_in};
use mote_types::fault::BootFault;
use pictures::memory::Sizes;
use std::alloc::{AllocError, Global};

/// What is written of a run.
#[derive(Clone, Copy)]
pub enum Form {
    /// One SVG.
    Picture,
    /// One HTML file.
    Page,
    /// A value change dump.
    Dump,
}

/// What the arguments name.
#[derive(Drop)]
pub struct Named<'a> {
    pub form: Form,
    pub names: Vec<&'a str>,
    pub from: u64,
    pub to: u64,
    pub sizes: Sizes,
    pub unfolded: bool,
}

/// The sizes of a mote with n applications, where they are valid for one.
fn sizes_for(matches: &ArgMatches<'_>, applications: usize) -> Result<Sizes, Failure<'static>>
    ensures few { IfOk result (λ _. applications ≤ 16) }
    ensures sizes { IfOk result (λ sizes. sizes ≡ spec.shown_sizes (sizes_of (rows_of (found_of matches.now)))) }
    ensures allowed { IfOk result (λ _. are_sizes (sizes_of (rows_of (found_of matches.now))) applications ≡ true) }
    ensures refused { IfErr result (spec.MayRefuse (sizes_of (rows_of (found_of matches.now))) applications) }
{
    if applications > MOST_APPLICATIONS {
        return Err(Failure::TooManyApplications);
    }
    let sizes = sizes_in(matches);
    if !sizes.are_allowed(applications as u8) {
        return Err(BootFault::BadSizes.into());
    }
    Ok(Sizes {
        managed: sizes.mmem,
        quota: sizes.quota,
        heap: sizes.heap,
        header: sizes.header,
    })
}

/// Whether a flag is used.
fn flag_in(matches: &ArgMatches<'_>, flag: &str) -> bool
    ensures set { IsSet (rows_of (found_of matches.now)) flag.now → result ≡ true }
    ensures unset { IsUnset (rows_of (found_of matches.now)) flag.now → result ≡ false }
{
    matches.get_flag(flag)
}

/// The form to write. The parser refuses `--page` with `--vcd`.
fn form_of(matches: &ArgMatches<'_>) -> Form
    ensures { IsForm (rows_of (found_of matches.now)) result }
{
    if flag_in(matches, "page") {
        Form::Page
    } else if flag_in(matches, "vcd") {
        Form::Dump
    } else {
        Form::Picture
    }
}

/// The clock of an option, otherwise another one. The parser lets no other text through.
fn clock_in(matches: &ArgMatches<'_>, option: &str, otherwise: u64) -> u64
    ensures { result ≡ spec.clock_of option.now otherwise (rows_of (found_of matches.now)) }
{
    matches.get_one::<u64>(option).unwrap_or(otherwise)
}

/// The clocks from which and up to which the run is shown.
fn range_of(matches: &ArgMatches<'_>) -> Result<(u64, u64), Undrawn>
    ensures from { IfOk result (λ range. range.0 ≡ spec.from_of (rows_of (found_of matches.now))) }
    ensures to { IfOk result (λ range. range.1 ≡ spec.to_of (rows_of (found_of matches.now))) }
    ensures order { IfOk result (λ range. range.0 ≤ range.1) }
    ensures refused { IfErr result (IsBackwards (rows_of (found_of matches.now))) }
{
    let from = clock_in(matches, "from", 0);
    let to = clock_in(matches, "to", u64::MAX);
    if from > to {
        return Err(Undrawn::BadRange(from, to));
    }
    Ok((from, to))
}

/// What the parser's matches name.
fn named_by<'a>(alloc: Global, matches: &ArgMatches<'a>) -> Result<Named<'a>, Undrawn>
    ensures named { IfOk result (IsNamed (rows_of (found_of matches.now))) }
    ensures refused { IfErr result (MayReport (rows_of (found_of matches.now))) }
{
    let given = matches.get_strs("APP").unwrap_or(&[]);
    let sizes = sizes_for(matches, given.len())?;
    let (from, to) = range_of(matches)?;
    let names = Vec::from_slice(alloc, given)?;
    Ok(Named {
        form: form_of(matches),
        names,
        from,
        to,
        sizes,
        unfolded: flag_in(matches, "unfolded"),
    })
}

/// What the arguments name. The first is the program's name.
///
/// # Errors
///
/// What the parser finds in the arguments, then more than sixteen names, then invalid sizes, then a range that ends before it
/// begins. `Memory` where memory was refused.
pub fn read_words<'a>(alloc: Global, words: &'a [&'a str]) -> Result<Named<'a>, Undrawn>
    ensures named { IfOk result (IsNamed (matches_in (texts words.now))) }
    ensures refused { IfErr result (IsOfWords (matches_in (texts words.now))) }
{
    let matches = parse(alloc, words)?;
    named_by(alloc, &matches)
}

/// Appends an argument to the title, unless it is `--page`.
fn push_word(title: &mut String, word: &str) -> Result<(), AllocError>
    ensures { IfOk result (λ _. string_bytes title.new ≡ string_bytes title.old ++ title_word word.now) }
{
    if word == "--page" {
        return Ok(());
    }
    title.push_str(" ")?;
    title.push_str(word)
}

/// Appends arguments to the title.
fn push_words(title: &mut String, words: &[&str]) -> Result<(), AllocError>
    ensures { IfOk result (λ _. string_bytes title.new ≡ string_bytes title.old ++ flat_map title_word (texts words.now)) }
{
    for word in words {
        push_word(title, word)?;
    }
    Ok(())
}

/// The title above the picture: the arguments without `--page`.
///
/// # Errors
///
/// `AllocError` where memory was refused.
pub fn title_of(alloc: Global, words: &[&str]) -> Result<String, AllocError>
    ensures { IfOk result (λ title. string_bytes title ≡ spec.title_of (texts words.now)) }
{
    let mut title = String::from_str(alloc, "mote")?;
    if let Some((_, words)) = words.split_first() {
        push_words(&mut title, words)?;
    }
    Ok(title)
}
