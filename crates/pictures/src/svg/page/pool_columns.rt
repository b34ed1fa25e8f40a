//! The columns of the pools: which blocks are used, and which of these are in a list.

ghost use Rattle.std.specs.Prelude.{◌≡◌, ◌+◌, ◌≤◌, ◌++◌, false, flat_map, slice_index_or, string_bytes, IfOk};
ghost use Rattle.pictures.specs.Svg.Pools as spec;

use crate::memory::Stay;
use crate::memory::pools::BLOCKS;
use crate::svg::page::ground::draw_ground;
use crate::svg::page::memory_columns::box_class;
use crate::svg::page::pen::{Area, Pen, Point};
use crate::svg::page::{POOL, Page};
use std::alloc::{AllocError, Global};

/// How many pools there are.
const POOLS: u64 = 4;

/// The width of a block.
const BLOCK: usize = 5;

/// The width of the mark of a block that is in a list.
const MARK: usize = 2;

/// Whether a block of a pool is used.
fn is_used(used: &[Stay], pool: u64) -> bool
    ensures { result ≡ spec.is_used used.now pool }
{
    let mut is_found = false;
    for stay in used {
        is_found |= stay.at / BLOCKS == pool;
    }
    is_found
}

/// Which pools have a column: those of which a block is used.
#[derive(Clone, Copy, Drop)]
pub struct Pools {
    are_used: [bool; 4],
}

impl Pools {
    /// Those of these used blocks.
    pub fn of(used: &[Stay]) -> Self
        ensures { result ≡ spec.pools_of used.now }
    {
        Pools {
            are_used: [
                is_used(used, 0),
                is_used(used, 1),
                is_used(used, 2),
                is_used(used, 3),
            ],
        }
    }

    /// Whether a pool has a column.
    fn has_column(&self, pool: u64) -> bool
        ensures { result ≡ slice_index_or self.now.are_used pool false }
    {
        matches!(self.are_used.get(pool as usize), Some(true))
    }

    /// How many pools have a column below that one.
    #[tactic(auto, using(crate::proofs::Fronts::take_within))]
    pub fn below(&self, pool: u64) -> usize
        ensures most { result ≤ 4 }
        ensures count { result ≡ spec.columns_before self.now pool }
    {
        let most = pool.min(POOLS) as usize;
        self.are_used[..most]
            .iter()
            .filter(|is_used| **is_used)
            .count()
    }

    /// How many pools have a column.
    pub fn count(&self) -> usize
        ensures most { result ≤ 4 }
        ensures count { result ≡ spec.columns_before self.now 4 }
    {
        self.below(POOLS)
    }
}

/// The part of its pool's column that a block takes, from so far within it on.
fn area_of(page: &Page, pools: &Pools, stay: &Stay, width: usize) -> Area
    ensures area { result ≡ spec.block_area page.now pools.now width stay.now }
    ensures from { spec.column_left page.now pools.now (spec.pool_of stay.now) ≤ result.corner.left }
    ensures to { width ≤ 5 → result.corner.left + width ≤ spec.column_left page.now pools.now (spec.pool_of stay.now) + 80 }
{
    let block = (stay.at % BLOCKS) as usize;
    let left = page
        .pool_left(pools.below(stay.at / BLOCKS))
        .saturating_add(block.saturating_mul(BLOCK))
        .saturating_add((BLOCK.saturating_sub(width)) / 2);
    let (top, end) = page.span_of(stay);
    Area {
        corner: Point { left, top },
        width,
        height: end.saturating_sub(top).max(1),
    }
}

fn pool_name(alloc: Global, pool: u64) -> Result<String, AllocError>
    ensures { IfOk result (λ name. string_bytes name ≡ spec.pool_name pool) }
{
    format!(in alloc; "pool {pool}")
}

/// The ground and the name of a pool's column.
fn draw_pool_ground(pen: &mut Pen, page: &Page, pools: &Pools, pool: u64) -> Result<(), AllocError>
    ensures { IfOk result (λ _. pen.new.content ≡ pen.old.content ++ spec.pool_ground page.now pools.now pool) }
{
    let left = page.pool_left(pools.below(pool));
    let name = pool_name(pen.alloc, pool)?;
    draw_ground(pen, page, left, POOL, name.as_str(), "blocks 0 to 15")
}

/// The same, if it has one.
fn draw_column(pen: &mut Pen, page: &Page, pools: &Pools, pool: u64) -> Result<(), AllocError>
    ensures { IfOk result (λ _. pen.new.content ≡ pen.old.content ++ spec.column_text page.now pools.now pool) }
{
    if pools.has_column(pool) {
        draw_pool_ground(pen, page, pools, pool)
    } else {
        Ok(())
    }
}

/// The grounds and names of the columns.
fn draw_names(pen: &mut Pen, page: &Page, pools: &Pools) -> Result<(), AllocError>
    ensures { IfOk result (λ _. pen.new.content ≡ pen.old.content ++ flat_map (spec.column_text page.now pools.now) spec.numbers) }
{
    for pool in 0..POOLS {
        draw_column(pen, page, pools, pool)?;
    }
    Ok(())
}

/// What a used block says.
fn used_title(alloc: Global, stay: &Stay) -> Result<String, AllocError>
    ensures { IfOk result (λ title. string_bytes title ≡ spec.used_title stay.now) }
{
    let pool = stay.at / BLOCKS;
    let block = stay.at % BLOCKS;
    format!(in alloc;
        "block {block} of pool {pool}, taken by process {}",
        stay.pid
    )
}

/// What the mark of a block shows that is in a list.
fn linked_title(alloc: Global, stay: &Stay) -> Result<String, AllocError>
    ensures { IfOk result (λ title. string_bytes title ≡ spec.linked_title stay.now) }
{
    let pool = stay.at / BLOCKS;
    let block = stay.at % BLOCKS;
    format!(in alloc; "block {block} of pool {pool} is in list {}", stay.name)
}

/// Draws the bar of a used block.
fn draw_bar(pen: &mut Pen, page: &Page, pools: &Pools, stay: &Stay) -> Result<(), AllocError>
    ensures { IfOk result (λ _. pen.new.content ≡ pen.old.content ++ spec.used_bar page.now pools.now stay.now) }
{
    let class = box_class(pen.alloc, stay)?;
    let title = used_title(pen.alloc, stay)?;
    let area = area_of(page, pools, stay, BLOCK);
    pen.area(class.as_str(), area, title.as_str())
}

fn draw_bars(pen: &mut Pen, page: &Page, pools: &Pools, used: &[Stay]) -> Result<(), AllocError>
    ensures { IfOk result (λ _. pen.new.content ≡ pen.old.content ++ flat_map (spec.used_bar page.now pools.now) used.now) }
{
    for stay in used {
        draw_bar(pen, page, pools, stay)?;
    }
    Ok(())
}

/// The class of the marks of a list: dark for the first one of a pool, light for the second one.
fn linked_class(stay: &Stay) -> &'static str
    ensures { result.now ≡ spec.linked_class stay.now }
{
    if stay.name % 2 == 0 { "c0" } else { "c1" }
}

/// Draws the mark of a block that is in a list.
fn draw_link(pen: &mut Pen, page: &Page, pools: &Pools, stay: &Stay) -> Result<(), AllocError>
    ensures { IfOk result (λ _. pen.new.content ≡ pen.old.content ++ spec.linked_mark page.now pools.now stay.now) }
{
    let title = linked_title(pen.alloc, stay)?;
    let area = area_of(page, pools, stay, MARK);
    pen.area(linked_class(stay), area, title.as_str())
}

fn draw_links(pen: &mut Pen, page: &Page, pools: &Pools, linked: &[Stay]) -> Result<(), AllocError>
    ensures { IfOk result (λ _. pen.new.content ≡ pen.old.content ++ flat_map (spec.linked_mark page.now pools.now) linked.now) }
{
    for stay in linked {
        draw_link(pen, page, pools, stay)?;
    }
    Ok(())
}

/// Draws the pools: a bar for each used block, and a mark in it while it is in a list.
pub fn draw_pools(
    pen: &mut Pen,
    page: &Page,
    used: &[Stay],
    linked: &[Stay],
) -> Result<(), AllocError>
    ensures { IfOk result (λ _. pen.new.content ≡ pen.old.content ++ spec.pools_text page.now
        (spec.pools_of used.now) used.now linked.now) }
{
    let pools = Pools::of(used);
    draw_names(pen, page, &pools)?;
    draw_bars(pen, page, &pools, used)?;
    draw_links(pen, page, &pools, linked)
}
