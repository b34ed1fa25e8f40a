//! The columns of memory beside the rows: a box for each block, for as long as it is there.

ghost use Rattle.std.specs.Prelude.{◌≡◌, ◌+◌, ◌≤◌, ◌++◌, codes, decimal, flat_map, string_bytes, IfOk};
ghost use Rattle.pictures.specs.Svg.Boxes as spec;
ghost use Rattle.pictures.specs.Svg.Columns as columns;
ghost use Rattle.pictures.specs.Svg.Positions.{capped};

use crate::memory::managed::FRAMES;
use crate::memory::{Sizes, Stay};
use crate::svg::page::ground::draw_ground;
use crate::svg::page::pen::{Area, Pen, Point};
use crate::svg::page::{Page, ROW};
use std::alloc::{AllocError, Global};

/// The least width of a box with a name in it.
const NAMED: usize = 30;

/// How many bytes a column shows at least.
const LEAST_BYTES: u64 = 64;

/// A column: where it begins, its width, and how many bytes it shows.
#[derive(Clone, Copy, Drop)]
pub struct Column {
    pub left: usize,
    pub width: usize,
    pub bytes: u64,
}

impl Column {
    /// How far from the left of the picture this number of bytes reaches.
    fn reach_of(&self, bytes: u64) -> usize
        ensures from { capped self.now.left ≤ result }
        ensures to { result ≤ self.now.left + self.now.width }
        ensures reach { result ≡ spec.reach self.now bytes }
    {
        let column = *self;
        let along = (column.width as u64).saturating_mul(bytes.min(column.bytes))
            / column.bytes.max(1);
        column.left.saturating_add(along as usize)
    }
}

/// The position after a block's last byte.
fn end_of(stay: &Stay) -> u64
    ensures { result ≡ spec.block_end stay.now }
{
    stay.at.saturating_add(stay.taken)
}

/// The end of the block that reaches furthest.
fn furthest(stays: &[Stay]) -> u64
    ensures { result ≡ columns.furthest stays.now }
{
    let mut reach: u64 = 0;
    for stay in stays {
        reach = reach.max(end_of(stay));
    }
    reach
}

/// How many bytes a column shows: a power of two, from 64 on, that no block reaches beyond, but no more than there are.
pub fn bytes_shown(stays: &[Stay], size: u64) -> u64
    ensures { columns.IsRange stays.now size result }
{
    let reach = furthest(stays);
    let all = size.max(reach);
    match reach.max(LEAST_BYTES).checked_next_power_of_two() {
        Some(power) => power.min(all),
        None => all,
    }
}

/// The part of a column that a block takes.
fn area_of(page: &Page, column: &Column, stay: &Stay) -> Area
    ensures from { capped column.now.left ≤ result.corner.left }
    ensures to { result.corner.left + result.width ≤ column.now.left + column.now.width + 1 }
    ensures area { result ≡ spec.area_in page.now column.now stay.now }
{
    let left = column.reach_of(stay.at);
    let right = column.reach_of(end_of(stay));
    let (top, end) = page.span_of(stay);
    Area {
        corner: Point { left, top },
        width: right.saturating_sub(left).max(1),
        height: end.saturating_sub(top).max(1),
    }
}

fn numbers_of(alloc: Global, stay: &Stay) -> Result<String, AllocError>
    ensures { IfOk result (λ name. string_bytes name ≡ decimal stay.now.pid ++ codes "." ++ decimal stay.now.name) }
{
    format!(in alloc; "{}.{}", stay.pid, stay.name)
}

fn name_of(alloc: Global, stay: &Stay) -> Result<String, AllocError>
    ensures { IfOk result (λ name. string_bytes name ≡ spec.box_name stay.now) }
{
    if stay.pid == FRAMES {
        String::from_str(alloc, "frame")
    } else {
        numbers_of(alloc, stay)
    }
}

/// Where the name of a box is.
fn name_point(area: Area) -> Point
    ensures { result ≡ spec.name_point area }
{
    Point {
        left: area.corner.left.saturating_add(3),
        top: area.corner.top.saturating_add(11),
    }
}

/// The name of a box, where there is room for it.
fn draw_name(pen: &mut Pen, area: Area, stay: &Stay) -> Result<(), AllocError>
    ensures { IfOk result (λ _. pen.new.content ≡ pen.old.content ++ spec.name_in area stay.now) }
{
    if area.width < NAMED || area.height < ROW {
        return Ok(());
    }
    let name = name_of(pen.alloc, stay)?;
    pen.text("v", name_point(area), name.as_str())
}

fn frame_title(alloc: Global, stay: &Stay) -> Result<String, AllocError>
    ensures { IfOk result (λ title. string_bytes title ≡ spec.frame_title stay.now) }
{
    format!(in alloc; "a frame that is held, {} bytes", stay.size)
}

fn handle_title(alloc: Global, stay: &Stay) -> Result<String, AllocError>
    ensures { IfOk result (λ title. string_bytes title ≡ spec.handle_title stay.now) }
{
    format!(in alloc;
        "handle {} of process {}, {} bytes",
        stay.name, stay.pid, stay.size
    )
}

/// What a box of managed memory says.
fn managed_title(alloc: Global, stay: &Stay) -> Result<String, AllocError>
    ensures { IfOk result (λ title. string_bytes title ≡ spec.managed_title stay.now) }
{
    if stay.pid == FRAMES {
        frame_title(alloc, stay)
    } else {
        handle_title(alloc, stay)
    }
}

/// The class of what belongs to a block's process.
pub(crate) fn box_class(alloc: Global, stay: &Stay) -> Result<String, AllocError>
    ensures { IfOk result (λ class. string_bytes class ≡ spec.box_class stay.now) }
{
    format!(in alloc; "z f{}", stay.pid)
}

/// Draws a box, and its name where there is room for it.
fn draw_box(
    pen: &mut Pen,
    page: &Page,
    column: &Column,
    stay: &Stay,
    title: &str,
) -> Result<(), AllocError>
    ensures { IfOk result (λ _. pen.new.content ≡ pen.old.content ++ spec.box_of page.now column.now stay.now title.now) }
{
    let area = area_of(page, column, stay);
    let class = box_class(pen.alloc, stay)?;
    pen.area(class.as_str(), area, title)?;
    draw_name(pen, area, stay)?;
    Ok(())
}

fn draw_managed_boxes(
    pen: &mut Pen,
    page: &Page,
    column: &Column,
    stays: &[Stay],
) -> Result<(), AllocError>
    ensures { IfOk result (λ _. pen.new.content ≡ pen.old.content ++ flat_map (spec.managed_box page.now column.now) stays.now) }
{
    for stay in stays {
        let title = managed_title(pen.alloc, stay)?;
        draw_box(pen, page, column, stay, title.as_str())?;
    }
    Ok(())
}

fn managed_range(alloc: Global, bytes: u64, size: u64) -> Result<String, AllocError>
    ensures { IfOk result (λ range. string_bytes range ≡ columns.managed_range bytes size) }
{
    format!(in alloc; "0 to {bytes} of {size} bytes")
}

/// Draws the column of managed memory, which shows this number of bytes.
fn draw_managed_column(
    pen: &mut Pen,
    page: &Page,
    stays: &[Stay],
    size: u64,
    bytes: u64,
) -> Result<(), AllocError>
    ensures { IfOk result (λ _. pen.new.content ≡ pen.old.content ++ columns.managed_text page.now stays.now size bytes) }
{
    let (left, width) = (page.managed_left(), page.columns.managed);
    let range = managed_range(pen.alloc, bytes, size)?;
    draw_ground(pen, page, left, width, "managed memory", range.as_str())?;
    let column = Column { left, width, bytes };
    draw_managed_boxes(pen, page, &column, stays)?;
    Ok(())
}

/// Draws managed memory: the lengths of its blocks one after the other.
pub fn draw_managed(pen: &mut Pen, page: &Page, stays: &[Stay], size: u32) -> Result<(), AllocError>
    ensures { IfOk result (λ _. columns.AddsColumn stays.now size
        (columns.managed_text page.now stays.now size) pen.old.content pen.new.content) }
{
    if stays.is_empty() {
        return Ok(());
    }
    let bytes = bytes_shown(stays, size as u64);
    draw_managed_column(pen, page, stays, size as u64, bytes)
}

fn heap_name(alloc: Global, stay: &Stay) -> Result<String, AllocError>
    ensures { IfOk result (λ name. string_bytes name ≡ spec.heap_name stay.now) }
{
    format!(in alloc;
        "heap block {} of process {}: {} bytes",
        stay.name, stay.pid, stay.size
    )
}

fn heap_position(alloc: Global, at: u64, end: u64, room: u64) -> Result<String, AllocError>
    ensures { IfOk result (λ text. string_bytes text ≡ spec.heap_position at end room) }
{
    format!(in alloc; ", room for {room}, from {at} to {end} with its header")
}

/// What a box of the heap says.
fn heap_title(alloc: Global, stay: &Stay, header: u32) -> Result<String, AllocError>
    ensures { IfOk result (λ title. string_bytes title ≡ spec.heap_title stay.now header) }
{
    let mut title = heap_name(alloc, stay)?;
    let room = stay.taken.saturating_sub(header as u64);
    let position = heap_position(alloc, stay.at, end_of(stay), room)?;
    title.push_str(position.as_str())?;
    Ok(title)
}

/// A part of a block, with an offset and a length, as a stay of its own.
fn part_of(stay: &Stay, from: u64, bytes: u64) -> Stay
    ensures { result ≡ spec.part_of stay.now from bytes }
{
    Stay {
        at: stay.at.saturating_add(from),
        taken: bytes,
        ..*stay
    }
}

/// Makes a part of a block paler.
fn draw_pale_part(
    pen: &mut Pen,
    page: &Page,
    column: &Column,
    part: &Stay,
    title: &str,
) -> Result<(), AllocError>
    ensures { IfOk result (λ _. pen.new.content ≡ pen.old.content ++ spec.pale_part page.now column.now part.now title.now) }
{
    pen.area("u", area_of(page, column, part), title)
}

/// The part of a block that is after its header and its length.
fn beyond(stay: &Stay, header: u64) -> Stay
    ensures { result ≡ spec.beyond stay.now header }
{
    let used = header.saturating_add(stay.size);
    part_of(stay, used, stay.taken.saturating_sub(used))
}

fn beyond_title(alloc: Global, rest: &Stay) -> Result<String, AllocError>
    ensures { IfOk result (λ title. string_bytes title ≡ spec.beyond_title rest.now) }
{
    format!(in alloc; "{} bytes of room beyond the length", rest.taken)
}

/// Makes the room paler that a block has beyond its length, if it has any.
fn draw_beyond(pen: &mut Pen, page: &Page, column: &Column, rest: &Stay) -> Result<(), AllocError>
    ensures { IfOk result (λ _. pen.new.content ≡ pen.old.content ++ spec.beyond_text page.now column.now rest.now) }
{
    if rest.taken == 0 {
        return Ok(());
    }
    let title = beyond_title(pen.alloc, rest)?;
    draw_pale_part(pen, page, column, rest, title.as_str())
}

/// Makes the header of a block paler, and the room that it has beyond its length.
fn draw_pale_parts(
    pen: &mut Pen,
    page: &Page,
    column: &Column,
    stay: &Stay,
    header: u32,
) -> Result<(), AllocError>
    ensures { IfOk result (λ _. pen.new.content ≡ pen.old.content ++ spec.pale_parts page.now column.now stay.now header) }
{
    let header = header as u64;
    let front = part_of(stay, 0, header);
    draw_pale_part(pen, page, column, &front, "a header")?;
    draw_beyond(pen, page, column, &beyond(stay, header))?;
    Ok(())
}

/// Draws a block of the heap.
fn draw_heap_box(
    pen: &mut Pen,
    page: &Page,
    column: &Column,
    stay: &Stay,
    header: u32,
) -> Result<(), AllocError>
    ensures { IfOk result (λ _. pen.new.content ≡ pen.old.content ++ spec.heap_box page.now column.now header stay.now) }
{
    let title = heap_title(pen.alloc, stay, header)?;
    draw_box(pen, page, column, stay, title.as_str())?;
    draw_pale_parts(pen, page, column, stay, header)?;
    Ok(())
}

fn draw_heap_boxes(
    pen: &mut Pen,
    page: &Page,
    column: &Column,
    stays: &[Stay],
    header: u32,
) -> Result<(), AllocError>
    ensures { IfOk result (λ _. pen.new.content ≡ pen.old.content ++ flat_map (spec.heap_box page.now column.now header) stays.now) }
{
    for stay in stays {
        draw_heap_box(pen, page, column, stay, header)?;
    }
    Ok(())
}

fn heap_range(alloc: Global, bytes: u64, size: u64, most: usize) -> Result<String, AllocError>
    ensures { IfOk result (λ range. string_bytes range ≡ columns.heap_range bytes size most) }
{
    format!(in alloc; "0 to {bytes} of {size} bytes, at most {most} blocks at once")
}

/// Draws the column of the heap, which shows this number of bytes.
fn draw_heap_column(
    pen: &mut Pen,
    page: &Page,
    stays: &[Stay],
    most: usize,
    sizes: Sizes,
    bytes: u64,
) -> Result<(), AllocError>
    ensures { IfOk result (λ _. pen.new.content ≡ pen.old.content ++ columns.heap_text page.now stays.now most sizes bytes) }
{
    let (left, width) = (page.heap_left(), page.columns.heap);
    let range = heap_range(pen.alloc, bytes, sizes.heap as u64, most)?;
    draw_ground(pen, page, left, width, "heap", range.as_str())?;
    let column = Column { left, width, bytes };
    draw_heap_boxes(pen, page, &column, stays, sizes.header)?;
    Ok(())
}

/// Draws the map of the heap: by position, so that one sees the gaps between the blocks.
pub fn draw_heap(
    pen: &mut Pen,
    page: &Page,
    stays: &[Stay],
    most: usize,
    sizes: Sizes,
) -> Result<(), AllocError>
    ensures { IfOk result (λ _. columns.AddsColumn stays.now sizes.heap
        (columns.heap_text page.now stays.now most sizes) pen.old.content pen.new.content) }
{
    if stays.is_empty() {
        return Ok(());
    }
    let bytes = bytes_shown(stays, sizes.heap as u64);
    draw_heap_column(pen, page, stays, most, sizes, bytes)
}
