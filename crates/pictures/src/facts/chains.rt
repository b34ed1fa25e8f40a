//! The lists of the pools: which blocks each of them has, the head first.

ghost use Rattle.std.specs.Prelude.{◌≡◌, ◌==◌, ◌<◌, ◌≤◌, [], length, map, position, IfOk, IfSome};
ghost use Rattle.pictures.specs.Ascending.{MayAppend};
ghost use Rattle.pictures.specs.Chains.{AreChains};
ghost use Rattle.pictures.specs.Lists as spec;

use crate::facts::accepted::Accepted;
use crate::numbers::{asked_by, number_in_reply};
use std::alloc::{AllocError, Global};
use std::marker::Model;

/// The number of lists.
const LISTS: usize = 8;

/// The blocks of a list from a line on, up to its next chain.
#[derive(Drop)]
pub struct Chain {
    /// The number of the line whose call makes it, from 0 on.
    pub line: usize,
    pub list: usize,
    /// The numbers of its blocks in their pool, the head first.
    pub blocks: Vec<u64>,
}

/// What an accepted call does to a list.
#[derive(Clone, Copy)]
pub(crate) enum ListChange {
    /// A block is put after all others.
    Append(u64),
    /// A block is put before all others.
    Prepend(u64),
    /// The second block is put after the first one.
    InsertAfter(u64, u64),
    /// A block leaves the list.
    Remove(u64),
}

/// The lists after the lines so far.
#[derive(Drop)]
pub(crate) struct Lists {
    alloc: Global,
    lists: Vec<Vec<u64>>,
    chains: Vec<Chain>,
}

/// What a call changes, by its word, its first number after the list's and its last one, and the number in its reply.
fn change_by(word: &str, first: u64, last: u64, reply: u64) -> Option<ListChange>
    ensures { result ≡ spec.change_by word.now first last reply }
{
    match word {
        "list-add" => Some(ListChange::Append(last)),
        "list-push" => Some(ListChange::Prepend(last)),
        "list-insert" => Some(ListChange::InsertAfter(first, last)),
        "list-remove" => Some(ListChange::Remove(last)),
        "list-pop" | "list-chop" => Some(ListChange::Remove(reply)),
        _ => None,
    }
}

/// Removes a block from a list, if it is there.
fn take_out(blocks: &mut Vec<u64>, block: u64)
    ensures { blocks.new.items ≡ spec.without block blocks.old.items }
{
    blocks.retain(|other| *other != block);
}

/// The position of a block, if the list has it.
fn position_of(blocks: &[u64], block: u64) -> Option<usize>
    ensures within { IfSome result (λ index. index < length blocks.now) }
    ensures found { result ≡ position (λ other. other == block) blocks.now }
{
    blocks.iter().position(|other| *other == block)
}

/// The position after a block, or the end where the list doesn't have it.
fn position_after(blocks: &[u64], block: u64) -> usize
    ensures within { result ≤ length blocks.now }
    ensures found { result ≡ spec.position_after block blocks.now }
{
    match position_of(blocks, block) {
        Some(index) => index + 1,
        None => blocks.len(),
    }
}

/// Changes a list. A block that is put into it is removed first.
fn carry_out(blocks: &mut Vec<u64>, change: ListChange) -> Result<(), AllocError>
    ensures { IfOk result (λ _. blocks.new.items ≡ spec.changed change blocks.old.items) }
{
    match change {
        ListChange::Append(block) => {
            take_out(blocks, block);
            blocks.push(block)?;
        }
        ListChange::Prepend(block) => {
            take_out(blocks, block);
            blocks.insert(0, block)?;
        }
        ListChange::InsertAfter(other, block) => {
            take_out(blocks, block);
            let index = position_after(blocks.as_slice(), other);
            blocks.insert(index, block)?;
        }
        ListChange::Remove(block) => take_out(blocks, block),
    }
    Ok(())
}

/// Which list a call changes, and how.
fn read_change(call: &Accepted<'_>) -> Option<(usize, ListChange)> {
    let asked = asked_by(call.call);
    let list = asked.first.min(LISTS as u64) as usize;
    let reply = number_in_reply(call.reply);
    Some((
        list,
        change_by(asked.name, asked.second, asked.last, reply)?,
    ))
}

impl Model for Lists {
    ghost use Rattle.std.specs.Prelude.{List, map};
    ghost use Rattle.pictures.specs.declared.facts.chains.Chain.{Chain};
    ghost use Rattle.pictures.specs.Chains.{AreChains};
    ghost use Rattle.pictures.specs.Code.Blocks.{HaveBlocks};

    ghost Value = { List Chain };

    ghost view = { λ lists. lists.chains.items };

    ghost invariant = { λ lists. HaveBlocks (map (λ blocks. blocks.items) lists.lists.items) lists.chains.items
        × AreChains lists.chains.items };
}

impl Lists {
    pub(crate) fn new(alloc: Global) -> Result<Self, AllocError>
        ensures { IfOk result (λ lists. lists ≡ []) }
    {
        let mut lists = Vec::new(alloc);
        for _list in 0..LISTS {
            lists.push(Vec::new(alloc))?;
        }
        Ok(Lists {
            alloc,
            lists,
            chains: Vec::new(alloc),
        })
    }

    /// A call in the line of that number was accepted.
    pub(crate) fn carry_out(&mut self, call: &Accepted<'_>, line: usize) -> Result<(), AllocError>
        ensures { MayAppend line (map (λ chain. chain.line) self.old) (map (λ chain. chain.line) self.new) }
    {
        let Some((list, change)) = read_change(call) else {
            return Ok(());
        };
        if list >= self.lists.len() {
            return Ok(());
        }
        let mut blocks = Vec::from_slice(self.alloc, self.lists[list].as_slice())?;
        carry_out(&mut blocks, change)?;
        let kept = Vec::from_slice(self.alloc, blocks.as_slice())?;
        self.chains.push(Chain { line, list, blocks })?;
        self.lists[list] = kept;
        Ok(())
    }

    pub(crate) fn finish(self) -> Vec<Chain>
        ensures same { result.items ≡ self }
        ensures chains { AreChains result.items }
    {
        self.chains
    }
}
