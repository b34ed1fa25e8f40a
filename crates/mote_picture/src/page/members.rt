//! What the data of a page has besides the text of the transcript and the title: names and sizes, the words for each line, and what
//! holds at the lines. Numbers of lines are those in the whole transcript, from 0 on; where an end never comes it is null.

use crate::named::Named;
use crate::page::data::Data;
use crate::page::words::{push_line, reply_in};
use pictures::facts::{Facts, facts_of};
use pictures::marks::Marks;
use pictures::memory::Stay;
use pictures::rows::Shown;
use pictures::transcript::is_quiet;
use std::alloc::{AllocError, Global};

/// Appends the name of a member.
fn push_name(out: &mut Data, name: &str) -> Result<(), AllocError> {
    out.put(",")?;
    out.say(name)?;
    out.put(":")
}

/// Appends a number, or null.
fn push_number(out: &mut Data, number: Option<usize>) -> Result<(), AllocError> {
    match number {
        Some(number) => out.count(number as u64),
        None => out.put("null"),
    }
}

/// Appends a list of numbers.
fn push_list(out: &mut Data, name: &str, numbers: &[Option<usize>]) -> Result<(), AllocError> {
    push_name(out, name)?;
    out.put("[")?;
    for index in 0..numbers.len() {
        if index > 0 {
            out.put(",")?;
        }
        push_number(out, numbers[index])?;
    }
    out.put("]")
}

/// Appends a list of texts.
fn push_texts(out: &mut Data, name: &str, texts: &[&str]) -> Result<(), AllocError> {
    push_name(out, name)?;
    out.put("[")?;
    for index in 0..texts.len() {
        if index > 0 {
            out.put(",")?;
        }
        out.say(texts[index])?;
    }
    out.put("]")
}

/// Whether something is there at a line that is shown.
fn is_shown(shown: Shown, first: usize, end: Option<usize>) -> bool {
    match end {
        Some(end) => first < shown.end && end >= shown.first,
        None => first < shown.end,
    }
}

/// The lists of numbers for what the lines show together.
#[derive(Clone, Copy)]
struct Lists<'a> {
    alloc: Global,
    shown: Shown,
    facts: &'a Facts,
}

impl Lists<'_> {
    fn marks(&self) -> &Marks {
        &self.facts.marks
    }

    /// The clock at each line.
    fn push_clocks(&self, out: &mut Data) -> Result<(), AllocError> {
        let mut numbers = Vec::new(self.alloc);
        let clocks = self.marks().clocks.as_slice();
        for clock in clocks.get(self.shown.first..self.shown.end).unwrap_or(&[]) {
            numbers.push(Some(*clock as usize))?;
        }
        push_list(out, "clocks", numbers.as_slice())
    }

    /// For each line the line with the reply to its call.
    fn push_replies(&self, out: &mut Data) -> Result<(), AllocError> {
        let replies = self.marks().replies.as_slice();
        let replies = replies.get(self.shown.first..self.shown.end);
        push_list(out, "answers", replies.unwrap_or(&[]))
    }

    /// Process, first and last line of each activation.
    fn push_activations(&self, out: &mut Data) -> Result<(), AllocError> {
        let mut numbers = Vec::new(self.alloc);
        for activation in self.marks().activations.as_slice() {
            let last = Some(activation.last);
            if is_shown(self.shown, activation.first, last) {
                numbers.extend_from_slice(&[Some(activation.pid), Some(activation.first), last])?;
            }
        }
        push_list(out, "activations", numbers.as_slice())
    }

    /// Process, first line and end of each life.
    fn push_lives(&self, out: &mut Data) -> Result<(), AllocError> {
        let mut numbers = Vec::new(self.alloc);
        for life in self.marks().lives.as_slice() {
            if is_shown(self.shown, life.first, life.end) {
                numbers.extend_from_slice(&[Some(life.pid), Some(life.first), life.end])?;
            }
        }
        push_list(out, "lives", numbers.as_slice())
    }

    /// The giver, whom it gives something at once, and the line.
    fn push_gifts(&self, out: &mut Data) -> Result<(), AllocError> {
        let mut numbers = Vec::new(self.alloc);
        for gift in self.marks().gifts.as_slice() {
            let row = Some(gift.row);
            if is_shown(self.shown, gift.row, row) {
                numbers.extend_from_slice(&[Some(gift.from), Some(gift.to), row])?;
            }
        }
        push_list(out, "gifts", numbers.as_slice())
    }

    /// Who posted an event and in which line, and who receives it and in which.
    fn push_curves(&self, out: &mut Data) -> Result<(), AllocError> {
        let mut numbers = Vec::new(self.alloc);
        for curve in self.marks().curves.as_slice() {
            let (first, last) = (Some(curve.first), Some(curve.last));
            if is_shown(self.shown, curve.first, last) {
                numbers.extend_from_slice(&[Some(curve.from), first, Some(curve.to), last])?;
            }
        }
        push_list(out, "curves", numbers.as_slice())
    }

    /// Process, number, first line and end of each arming of a timer, when it was due, and when its event came.
    fn push_armings(&self, out: &mut Data) -> Result<(), AllocError> {
        let mut numbers = Vec::new(self.alloc);
        for arming in self.marks().armings.as_slice() {
            if is_shown(self.shown, arming.first, arming.last) {
                numbers.extend_from_slice(&[
                    Some(arming.pid),
                    Some(arming.timer),
                    Some(arming.first),
                    arming.last,
                    Some(arming.due as usize),
                    number_of(arming.received),
                ])?;
            }
        }
        push_list(out, "armings", numbers.as_slice())
    }

    /// The line that posts an event, and the one from which on it waits no more.
    fn push_waits(&self, out: &mut Data) -> Result<(), AllocError> {
        let mut numbers = Vec::new(self.alloc);
        for wait in self.facts.waits.as_slice() {
            if is_shown(self.shown, wait.line, wait.end) {
                numbers.extend_from_slice(&[Some(wait.line), wait.end])?;
            }
        }
        push_list(out, "waits", numbers.as_slice())
    }

    /// The line, the list, how many blocks it has from then on, and these.
    fn push_chains(&self, out: &mut Data) -> Result<(), AllocError> {
        let mut numbers = Vec::new(self.alloc);
        for chain in self.facts.chains.as_slice() {
            if chain.line < self.shown.end {
                let blocks = chain.blocks.as_slice();
                numbers.extend_from_slice(&[
                    Some(chain.line),
                    Some(chain.list),
                    Some(blocks.len()),
                ])?;
                for block in blocks {
                    numbers.push(Some(*block as usize))?;
                }
            }
        }
        push_list(out, "chains", numbers.as_slice())
    }

    /// Process, name, position, bytes that are taken and that were asked for, first line and end of each block.
    fn push_stays(&self, out: &mut Data, name: &str, stays: &[Stay]) -> Result<(), AllocError> {
        let mut numbers = Vec::new(self.alloc);
        for stay in stays {
            if is_shown(self.shown, stay.first, stay.last) {
                numbers.extend_from_slice(&[
                    Some(stay.pid),
                    Some(stay.name as usize),
                    Some(stay.at as usize),
                    Some(stay.taken as usize),
                    Some(stay.size as usize),
                    Some(stay.first),
                    stay.last,
                ])?;
            }
        }
        push_list(out, name, numbers.as_slice())
    }

    /// What was run, the words for each line, and all lists.
    fn push_rest(
        &self,
        out: &mut Data,
        lines: &[&str],
        named: &Named<'_>,
    ) -> Result<(), AllocError> {
        push_run(out, lines, self.shown, self.facts, named)?;
        push_words(self.alloc, out, lines, self.shown, self.marks())?;
        self.push_clocks(out)?;
        self.push_replies(out)?;
        self.push_activations(out)?;
        self.push_lives(out)?;
        self.push_gifts(out)?;
        self.push_curves(out)?;
        self.push_armings(out)?;
        self.push_waits(out)?;
        self.push_chains(out)?;
        let stays = &self.marks().stays;
        self.push_stays(out, "managed", stays.managed.as_slice())?;
        self.push_stays(out, "heap", stays.heap.as_slice())?;
        self.push_stays(out, "used", stays.used.as_slice())?;
        self.push_stays(out, "linked", stays.linked.as_slice())?;
        out.put("}")
    }
}

/// A number that may be there, as lists have it.
fn number_of(number: Option<u64>) -> Option<usize> {
    match number {
        Some(number) => Some(number as usize),
        None => None,
    }
}

/// The clock before the first line that is shown.
fn start_of(marks: &Marks, shown: Shown) -> u64 {
    match shown.first.checked_sub(1) {
        Some(before) => marks.clocks.as_slice().get(before).copied().unwrap_or(0),
        None => 0,
    }
}

/// Appends what was run, as one member after the other.
fn push_run(
    out: &mut Data,
    lines: &[&str],
    shown: Shown,
    facts: &Facts,
    named: &Named<'_>,
) -> Result<(), AllocError> {
    push_texts(out, "names", named.names.as_slice())?;
    push_name(out, "quiet")?;
    out.decide(is_quiet(lines))?;
    let numbers = [
        Some(lines.len()),
        Some(shown.first),
        Some(start_of(&facts.marks, shown) as usize),
        Some(named.sizes.managed as usize),
        Some(named.sizes.heap as usize),
        Some(named.sizes.header as usize),
        facts.exceeds,
        facts.marks.stays.differs,
    ];
    push_list(out, "run", &numbers)
}

/// The reply to the call of a line, or nothing.
fn reply_to<'a>(lines: &[&'a str], marks: &Marks, number: usize) -> &'a str {
    match marks.replies.as_slice().get(number) {
        Some(Some(reply)) => reply_in(lines.get(*reply)),
        _ => "",
    }
}

/// Appends the words for each line.
fn push_words(
    alloc: Global,
    out: &mut Data,
    lines: &[&str],
    shown: Shown,
    marks: &Marks,
) -> Result<(), AllocError> {
    let mut words = String::new(alloc);
    for number in shown.first..shown.end.min(lines.len()) {
        let reply = reply_to(lines, marks, number);
        push_line(alloc, &mut words, lines[number], reply)?;
        words.push_str("\n")?;
    }
    push_name(out, "words")?;
    out.say(words.as_str())
}

/// Appends all members after the title, to the end of the data.
fn push_rest(
    alloc: Global,
    out: &mut Data,
    lines: &[&str],
    shown: Shown,
    named: &Named<'_>,
) -> Result<(), AllocError> {
    let facts = facts_of(alloc, lines, named.sizes)?;
    let lists = Lists {
        alloc,
        shown,
        facts: &facts,
    };
    lists.push_rest(out, lines, named)
}

/// All members after the title, to the end of the data.
pub(crate) fn rest_of(
    alloc: Global,
    lines: &[&str],
    shown: Shown,
    named: &Named<'_>,
) -> Result<Data, AllocError> {
    let mut rest = Data::new(alloc);
    push_rest(alloc, &mut rest, lines, shown, named)?;
    Ok(rest)
}
