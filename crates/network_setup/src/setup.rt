//! The motes and links of a network, as the first lines of its script say them.

ghost use Rattle.std.specs.Prelude.{◌≡◌, ◌≤◌, ◌∷◌, ◌++◌, [], IfOk, IsErrOf, None, Some, OnErr, false, map, option_and_then, option_map, true};
ghost use Rattle.kernel_core.specs.Machine.{is_bootable};
ghost use Rattle.network_setup.specs.Code.Setups.{Does, HasOneMore, IfMalformed, IfNoMemory, IsAdded};
ghost use Rattle.network_setup.specs.Code.Words.{AreBadWords, IsBadList, IsBadWord, IsListLast, IsMoteSaid, TakesWord, TakesWords, words_in};
ghost use Rattle.network_setup.specs.FirstLines.{DoesSaid, SaysNothing};
ghost use Rattle.network_setup.specs.Lines.{line_said, with_links, words_of};
ghost use Rattle.network_setup.specs.MoteLines.{AddsMotes, SaysNoMote, SaysNoMotes, mote_line, with_calls, with_option};
ghost use Rattle.network_setup.specs.SetUpRuns.{HasBooted};
ghost use Rattle.network_setup.specs.SetupView.{HasJustBooted, empty_setup};
ghost use Rattle.network_setup.specs.declared.fault.LineFault.{LineFault};

use crate::carriage::Carriage;
use crate::fault::LineFault;
use crate::links::add_shape;
use crate::mote_app::MoteApp;
use crate::shape::{Shape, read_links};
use crate::words::{Span, only_number, read_span, split_words};
use kernel_core::config::Config;
use medium_core::link::Link;
use mote_session::session::Session;
use mote_text::script::read_number;
use mote_types::fault::BootFault;
use std::alloc::Global;
use std::marker::Model;

/// A mote without options.
const DEFAULT: Config = Config {
    mmem: 4_096,
    heap: 4_096,
    apps: 0,
    quota: None,
    header: 16,
};

/// The most applications that a mote can have.
const MOST_APPLICATIONS: usize = 16;

/// The number of frames that can be in flight, unless the script says otherwise.
const DEFAULT_ROOM: u32 = 1_024;

/// The number of rounds that an input can take, unless the script says otherwise.
const DEFAULT_ROUNDS: u32 = 16_777_216;

/// What the first lines set up.
#[derive(Drop)]
pub struct Setup {
    pub motes: Vec<Session>,
    /// Those of mote 1, of mote 2, and so on; and so with the links.
    pub applications: Vec<Vec<MoteApp>>,
    pub links: Vec<Vec<Link>>,
    pub room: u32,
    pub rounds: u32,
}

impl Model for Setup {
    ghost use Rattle.medium_core.specs.Code.Airs.{link_lists};
    ghost use Rattle.network_setup.specs.Code.Setups.{AreBooted};
    ghost use Rattle.network_setup.specs.SetupView.{SetupView};

    ghost Value = { SetupView };

    ghost view = { λ s. record {
      motes = s.motes.items;
      applications = s.applications.items;
      links = link_lists s.links.items;
      room = s.room;
      rounds = s.rounds;
    } };

    ghost invariant = { λ s. AreBooted s.motes.items };
}

/// Sets the size of this name.
fn set_size(config: &mut Config, name: &str, number: &str) -> Result<(), LineFault>
    ensures size { IfOk result (λ _. with_option name.now number.now config.old ≡ Some config.new) }
    ensures malformed { IfMalformed result (with_option name.now number.now config.old ≡ None) }
{
    let Some(size) = read_number(number.as_bytes()) else {
        return Err(LineFault::Malformed);
    };
    match name {
        "mmem" => config.mmem = size,
        "heap" => config.heap = size,
        "header" => config.header = size,
        "quota" => config.quota = Some(size),
        _ => return Err(LineFault::Malformed),
    }
    Ok(())
}

/// Adds an application to a mote's.
fn push_application(applications: &mut Vec<MoteApp>, application: MoteApp) -> Result<(), LineFault>
    ensures pushed { IfOk result (λ _. applications.new.items ≡ applications.old.items ++ application ∷ []) }
    ensures memory { IfMalformed result ⊥ }
{
    match applications.push(application) {
        Ok(()) => Ok(()),
        Err(_) => Err(LineFault::Memory),
    }
}

/// Takes a word after a mote's number: the name of an application, an option, or the size after an option. Returns an option
/// whose size comes next.
fn take_word<'a>(
    alloc: Global,
    word: &'a str,
    option: Option<&'a str>,
    config: &mut Config,
    applications: &mut Vec<MoteApp>,
) -> Result<Option<&'a str>, LineFault>
    ensures taken { IfOk result (λ next. TakesWord (option_map (λ name. name.now) option.entry) (option_map (λ name. name.now) next) word.now
        config.old config.new applications.old.items applications.new.items) }
    ensures malformed { IfMalformed result (IsBadWord (option_map (λ name. name.now) option.entry) word.now config.old) }
{
    if let Some(name) = option {
        set_size(config, name, word)?;
        return Ok(None);
    }
    if let Some(name) = word.strip_prefix("--") {
        return Ok(Some(name));
    }
    push_application(applications, MoteApp::named(alloc, word)?)?;
    Ok(None)
}

/// Takes the words after a mote's number: names of applications, and sizes with their options.
fn take_words(
    alloc: Global,
    words: &[&str],
    config: &mut Config,
    applications: &mut Vec<MoteApp>,
) -> Result<(), LineFault>
    ensures taken { IfOk result (λ _. TakesWords (map (λ word. word.now) words.now) [] None config.old config.new
        applications.old.items applications.new.items) }
    ensures malformed { IfMalformed result (AreBadWords None (map (λ word. word.now) words.now) config.old) }
{
    let mut option = None;
    for word in words {
        option = take_word(alloc, word, option, config, applications)?;
    }
    match option {
        Some(_) => Err(LineFault::Malformed),
        None => Ok(()),
    }
}

/// The words before `calls` and the list after it, where a text has one.
fn cut_at_calls(text: &str) -> Result<(&str, Option<&str>), LineFault>
    ensures cut { IfOk result (λ parts. mote_line text.now ≡ with_calls (words_of parts.0.now) (option_map (λ calls. calls.now) parts.1)) }
    ensures malformed { IfMalformed result (mote_line text.now ≡ None) }
{
    let Some((words, rest)) = text.split_once(" calls") else {
        return Ok((text, None));
    };
    if rest.is_empty() {
        return Ok((words, Some("")));
    }
    match rest.strip_prefix(" ") {
        Some(calls) if !calls.is_empty() => Ok((words, Some(calls))),
        _ => Err(LineFault::Malformed),
    }
}

/// The motes of a line, and the words and the list of calls after their numbers.
fn cut_mote_line(text: &str) -> Result<(Span, Option<&str>, Option<&str>), LineFault>
    ensures said { IfOk result (λ line. mote_line text.now ≡ Some (record {
      span = line.0;
      words = words_in (option_map (λ words. words.now) line.1);
      calls = option_map (λ calls. calls.now) line.2;
    })) }
    ensures order { IfOk result (λ line. (1 ≤ line.0.first) × (line.0.first ≤ line.0.last)) }
    ensures malformed { IfMalformed result (mote_line text.now ≡ None) }
{
    let (text, calls) = cut_at_calls(text)?;
    let (span, words) = match text.split_once(" ") {
        Some((span, words)) => (read_span(span), Some(words)),
        None => (read_span(text), None),
    };
    match span {
        Some(span) => Ok((span, words, calls)),
        None => Err(LineFault::Malformed),
    }
}

/// The words of a text, if there is one.
fn words_in<'a>(alloc: Global, text: Option<&'a str>) -> Result<Vec<&'a str>, LineFault>
    ensures words { IfOk result (λ words. map (λ word. word.now) words.items ≡ words_in (option_map (λ text. text.now) text.entry)) }
    ensures memory { IfMalformed result ⊥ }
{
    match text {
        Some(text) => split_words(alloc, text),
        None => Ok(Vec::new(alloc)),
    }
}

/// Adds the application that makes the calls of a list, if there is one.
fn add_listed(
    alloc: Global,
    calls: Option<&str>,
    applications: &mut Vec<MoteApp>,
) -> Result<(), LineFault>
    ensures added { IfOk result (λ _. IsListLast (option_map (λ calls. calls.now) calls.entry) applications.old.items applications.new.items) }
    ensures malformed { IfMalformed result (IsBadList (option_map (λ calls. calls.now) calls.entry)) }
{
    match calls {
        Some(calls) => push_application(applications, MoteApp::listed(alloc, calls)?),
        None => Ok(()),
    }
}

/// The sizes and the applications of a mote, by its words and its list of calls.
fn read_mote(
    alloc: Global,
    words: &[&str],
    calls: Option<&str>,
) -> Result<(Config, Vec<MoteApp>), LineFault>
    ensures said { IfOk result (λ mote. IsMoteSaid (map (λ word. word.now) words.now) (option_map (λ calls. calls.now) calls.entry) mote.0 mote.1.items) }
    ensures malformed { IfMalformed result (SaysNoMote (map (λ word. word.now) words.now) (option_map (λ calls. calls.now) calls.entry)) }
{
    let mut config = DEFAULT;
    let mut applications = Vec::new(alloc);
    take_words(alloc, words, &mut config, &mut applications)?;
    add_listed(alloc, calls, &mut applications)?;
    if applications.len() > MOST_APPLICATIONS {
        return Err(LineFault::Malformed);
    }
    config.apps = applications.len() as u8;
    Ok((config, applications))
}

/// A mote that has just booted.
fn boot(alloc: Global, config: Config) -> Result<Session, LineFault>
    ensures booted { IfOk result (λ mote. HasJustBooted config mote) }
    ensures bootable { IfOk result (λ _. is_bootable config ≡ true) }
    ensures malformed { IfMalformed result (is_bootable config ≡ false) }
    ensures memory { IfNoMemory result (is_bootable config ≡ true) }
{
    match Session::boot(alloc, config) {
        Ok(mote) => Ok(mote),
        Err(BootFault::BadSizes) => Err(LineFault::Malformed),
        Err(BootFault::Memory) => Err(LineFault::Memory),
    }
}

/// Boots one more mote.
fn boot_mote(alloc: Global, motes: &mut Vec<Session>, config: Config) -> Result<(), LineFault>
    ensures added { IfOk result (λ _. IsAdded config motes.old.items motes.new.items) }
    ensures bootable { IfOk result (λ _. is_bootable config ≡ true) }
    ensures malformed { IfMalformed result (is_bootable config ≡ false) }
    ensures memory { IfNoMemory result (is_bootable config ≡ true) }
    ensures err { OnErr result (motes.new.items ≡ motes.old.items) }
{
    let mote = match boot(alloc, config) {
        Ok(mote) => mote,
        Err(fault) => return Err(fault),
    };
    match motes.push(mote) {
        Ok(()) => Ok(()),
        Err(_) => Err(LineFault::Memory),
    }
}

impl Setup {
    /// No motes.
    pub fn new(alloc: Global) -> Self
        ensures { result ≡ empty_setup }
    {
        Setup {
            motes: Vec::new(alloc),
            applications: Vec::new(alloc),
            links: Vec::new(alloc),
            room: DEFAULT_ROOM,
            rounds: DEFAULT_ROUNDS,
        }
    }

    /// Does what a line says before the first input.
    ///
    /// # Errors
    ///
    /// `Malformed` exactly where the line says nothing that can be set up, and `Memory` where memory is refused.
    pub fn take_line(&mut self, alloc: Global, line: &str) -> Result<(), LineFault>
        ensures done { IfOk result (λ _. DoesSaid line.now self.old self.new) }
        ensures malformed { IsErrOf result LineFault.Malformed → SaysNothing line.now self.old }
    {
        match line.strip_prefix("mote ") {
            Some(text) => self.add_motes(alloc, text),
            None => self.take_other_line(alloc, line),
        }
    }

    /// Does what a line says that doesn't say motes.
    fn take_other_line(&mut self, alloc: Global, line: &str) -> Result<(), LineFault>
        ensures { Does result (line_said (words_of line.now) self.old) self.new }
    {
        let words = split_words(alloc, line)?;
        match words.as_slice() {
            [word, rest @ ..] => self.take_said(word, rest),
            [] => Err(LineFault::Malformed),
        }
    }

    /// Does what the words of a line say of links, of the room, or of rounds.
    fn take_said(&mut self, word: &str, rest: &[&str]) -> Result<(), LineFault>
        ensures { Does result (line_said (word.now ∷ map (λ word. word.now) rest.now) self.old) self.new }
    {
        match word {
            "room" => self.set_room(only_number(rest)),
            "rounds" => self.set_rounds(only_number(rest)),
            _ => self.add_links(read_links(word, rest)),
        }
    }

    /// Adds the links that a line says.
    fn add_links(&mut self, said: Option<(Shape, Carriage)>) -> Result<(), LineFault>
        ensures { Does result (option_and_then (with_links self.old) said) self.new }
    {
        match said {
            Some((shape, carriage)) => add_shape(self.links.as_mut_slice(), shape, carriage),
            None => Err(LineFault::Malformed),
        }
    }

    /// `N WORD..` or `N..M WORD..`: the first number is the next one.
    fn add_motes(&mut self, alloc: Global, text: &str) -> Result<(), LineFault>
        ensures added { IfOk result (λ _. AddsMotes text.now self.old self.new) }
        ensures malformed { IfMalformed result (SaysNoMotes text.now self.old) }
    {
        let (span, words, calls) = cut_mote_line(text)?;
        if span.first as usize != self.motes.len().saturating_add(1) {
            return Err(LineFault::Malformed);
        }
        let words = words_in(alloc, words)?;
        let count = span.last - span.first + 1;
        for _mote in 0..count {
            let (config, applications) = read_mote(alloc, words.as_slice(), calls)?;
            self.add_mote(alloc, config, applications)?;
        }
        Ok(())
    }

    /// Adds a mote, to which no links lead.
    fn add_mote(
        &mut self,
        alloc: Global,
        config: Config,
        applications: Vec<MoteApp>,
    ) -> Result<(), LineFault>
        ensures added { IfOk result (λ _. HasOneMore config applications self.old self.new) }
        ensures bootable { IfOk result (λ _. is_bootable config ≡ true) }
        ensures malformed { IfMalformed result (is_bootable config ≡ false) }
        ensures memory { IfNoMemory result (is_bootable config ≡ true) }
    {
        boot_mote(alloc, &mut self.motes, config)?;
        if self.applications.push(applications).is_err()
            || self.links.push(Vec::new(alloc)).is_err()
        {
            return Err(LineFault::Memory);
        }
        Ok(())
    }

    /// Sets the number of frames that can be in flight.
    fn set_room(&mut self, room: Option<u32>) -> Result<(), LineFault>
        ensures { Does result (option_map (λ room. record self.old { room = room }) room) self.new }
    {
        match room {
            Some(room) => {
                self.room = room;
                Ok(())
            }
            None => Err(LineFault::Malformed),
        }
    }

    /// Sets the number of rounds that an input can take.
    fn set_rounds(&mut self, rounds: Option<u32>) -> Result<(), LineFault>
        ensures { Does result (option_map (λ rounds. record self.old { rounds = rounds }) rounds) self.new }
    {
        match rounds {
            Some(rounds) => {
                self.rounds = rounds;
                Ok(())
            }
            None => Err(LineFault::Malformed),
        }
    }

    /// Shows that the motes have just booted.
    pub(crate) fn has_booted(&self)
        ensures { HasBooted self.now }
    {
        let _ = &self.motes;
    }
}
