//! The ground of a column beside the rows, and the words above it.

ghost use Rattle.std.specs.Prelude.{◌≡◌, ◌++◌, IfOk};
ghost use Rattle.pictures.specs.Svg.Columns as spec;

use crate::svg::page::Page;
use crate::svg::page::pen::{Area, Pen, Point};
use std::alloc::AllocError;

/// Draws a ground from the first row to the last one, and above it the column's name and what it shows.
pub(crate) fn draw_ground(
    pen: &mut Pen,
    page: &Page,
    left: usize,
    width: usize,
    name: &str,
    range: &str,
) -> Result<(), AllocError>
    ensures { IfOk result (λ _. pen.new.content ≡ pen.old.content ++ spec.ground_of page.now left width name.now range.now) }
{
    let area = Area {
        corner: Point {
            left,
            top: page.top,
        },
        width,
        height: page.bottom().saturating_sub(page.top),
    };
    pen.area("j", area, "")?;
    let top = page.top.saturating_sub(24);
    pen.text("b", Point { left, top }, name)?;
    let top = page.top.saturating_sub(12);
    pen.text("g", Point { left, top }, range)?;
    Ok(())
}
