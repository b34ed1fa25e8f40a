//! The links that a line adds, in the lists of their senders.

ghost use Rattle.std.specs.Prelude.{◌≡◌, ◌≢◌, ◌≤◌, ◌<◌, true, ◌∷◌, [], length};
ghost use Rattle.medium_core.specs.Code.Airs.{link_lists};
ghost use Rattle.network_setup.specs.Code.Linking.{Links};
ghost use Rattle.network_setup.specs.Code.Setups.{Does};
ghost use Rattle.network_setup.specs.Setting.{next_carriage};
ghost use Rattle.network_setup.specs.Shapes.{both_ways, column_links, grid_links, is_shape, line_links, links_after, links_of, mesh_links, ring_links, row_links, with_shape};

use crate::carriage::Carriage;
use crate::fault::LineFault;
use crate::shape::Shape;
use crate::words::Span;
use medium_core::link::Link;

/// Adds a link between two motes that there are.
fn add_link(
    links: &mut [Vec<Link>],
    from: u32,
    to: u32,
    carriage: Carriage,
) -> Result<(), LineFault>
    ensures { Links result ((from, to) ∷ []) carriage (next_carriage carriage) (link_lists links.old) (link_lists links.new) }
{
    let (from, to) = (from as usize, to as usize);
    if from == 0 || from > links.len() || to == 0 || to > links.len() {
        return Err(LineFault::Malformed);
    }
    let link = Link::new(to - 1, carriage.delay, carriage.loss);
    if !link.is_sound() {
        return Err(LineFault::Malformed);
    }
    match links[from - 1].push(link) {
        Ok(()) => Ok(()),
        Err(_) => Err(LineFault::Memory),
    }
}

/// Adds a link of a line, after which the next one follows.
fn add_next(
    links: &mut [Vec<Link>],
    from: u32,
    to: u32,
    carriage: &mut Carriage,
) -> Result<(), LineFault>
    ensures { Links result ((from, to) ∷ []) carriage.old carriage.new (link_lists links.old) (link_lists links.new) }
{
    add_link(links, from, to, *carriage)?;
    *carriage = carriage.next();
    Ok(())
}

/// Adds links both ways.
fn add_pair(
    links: &mut [Vec<Link>],
    a: u32,
    b: u32,
    carriage: &mut Carriage,
) -> Result<(), LineFault>
    ensures { Links result (both_ways a b) carriage.old carriage.new (link_lists links.old) (link_lists links.new) }
{
    add_next(links, a, b, carriage)?;
    add_next(links, b, a, carriage)
}

/// Links each mote and the next one.
fn add_line(links: &mut [Vec<Link>], span: Span, carriage: &mut Carriage) -> Result<(), LineFault>
    ensures { Links result (line_links span.first span.last) carriage.old carriage.new (link_lists links.old) (link_lists links.new) }
{
    for a in span.first..span.last {
        add_pair(links, a, a + 1, carriage)?;
    }
    Ok(())
}

/// Links each mote and the next one, and the last and the first.
fn add_ring(links: &mut [Vec<Link>], span: Span, carriage: &mut Carriage) -> Result<(), LineFault>
    ensures { Links result (ring_links span.first span.last) carriage.old carriage.new (link_lists links.old) (link_lists links.new) }
{
    add_line(links, span, carriage)?;
    add_pair(links, span.last, span.first, carriage)
}

/// Links each two motes.
fn add_mesh(links: &mut [Vec<Link>], span: Span, carriage: &mut Carriage) -> Result<(), LineFault>
    ensures { Links result (mesh_links span.first span.last) carriage.old carriage.new (link_lists links.old) (link_lists links.new) }
{
    for a in span.first..span.last {
        add_after(links, a, span.last, carriage)?;
    }
    Ok(())
}

/// Links a mote and each one after it.
fn add_after(
    links: &mut [Vec<Link>],
    a: u32,
    last: u32,
    carriage: &mut Carriage,
) -> Result<(), LineFault>
    requires { a < last }
    ensures { Links result (links_after last a) carriage.old carriage.new (link_lists links.old) (link_lists links.new) }
{
    for b in a + 1..=last {
        add_pair(links, a, b, carriage)?;
    }
    Ok(())
}

/// Links each mote with its neighbours in a grid: rows of `width` motes.
fn add_grid(
    links: &mut [Vec<Link>],
    span: Span,
    width: u32,
    carriage: &mut Carriage,
) -> Result<(), LineFault>
    requires { width ≢ 0 }
    ensures { Links result (grid_links span.first span.last width) carriage.old carriage.new (link_lists links.old) (link_lists links.new) }
{
    for a in span.first..=span.last {
        add_in_row(links, a, span, width, carriage)?;
        add_in_column(links, a, span.last, width, carriage)?;
    }
    Ok(())
}

/// Links a mote of a grid and the next one in its row, if there is one.
fn add_in_row(
    links: &mut [Vec<Link>],
    a: u32,
    span: Span,
    width: u32,
    carriage: &mut Carriage,
) -> Result<(), LineFault>
    requires width { width ≢ 0 }
    requires within { span.first ≤ a }
    ensures { Links result (row_links span.first span.last width a) carriage.old carriage.new (link_lists links.old) (link_lists links.new) }
{
    if a >= span.last || (a + 1 - span.first) % width == 0 {
        return Ok(());
    }
    add_pair(links, a, a + 1, carriage)
}

/// Links a mote of a grid and the one below it, if there is one.
fn add_in_column(
    links: &mut [Vec<Link>],
    a: u32,
    last: u32,
    width: u32,
    carriage: &mut Carriage,
) -> Result<(), LineFault>
    ensures { Links result (column_links last width a) carriage.old carriage.new (link_lists links.old) (link_lists links.new) }
{
    match a.checked_add(width) {
        Some(below) if below <= last => add_pair(links, a, below, carriage),
        _ => Ok(()),
    }
}

/// Whether these motes can be linked so, among this number of motes.
fn is_shape(motes: usize, shape: Shape) -> bool
    ensures { result ≡ is_shape motes shape }
{
    match shape {
        Shape::Link { .. } => true,
        Shape::Line(span) => span.last as usize <= motes,
        Shape::Ring(span) => {
            span.last as usize <= motes && span.last.saturating_sub(span.first) >= 2
        }
        Shape::Mesh(span) => span.last as usize <= motes,
        Shape::Grid { span, width } => span.last as usize <= motes && width > 0,
    }
}

/// Adds the links of a shape.
fn add_links_of(
    links: &mut [Vec<Link>],
    shape: Shape,
    carriage: &mut Carriage,
) -> Result<(), LineFault>
    requires { is_shape (length links.old) shape ≡ true }
    ensures { Links result (links_of shape) carriage.old carriage.new (link_lists links.old) (link_lists links.new) }
{
    match shape {
        Shape::Link { from, to } => add_next(links, from, to, carriage),
        Shape::Line(span) => add_line(links, span, carriage),
        Shape::Ring(span) => add_ring(links, span, carriage),
        Shape::Mesh(span) => add_mesh(links, span, carriage),
        Shape::Grid { span, width } => add_grid(links, span, width, carriage),
    }
}

/// Adds the links that a line says, if they can be set up.
pub(crate) fn add_shape(
    links: &mut [Vec<Link>],
    shape: Shape,
    carriage: Carriage,
) -> Result<(), LineFault>
    ensures { Does result (with_shape shape carriage (link_lists links.old)) (link_lists links.new) }
{
    if !is_shape(links.len(), shape) {
        return Err(LineFault::Malformed);
    }
    let mut carriage = carriage;
    add_links_of(links, shape, &mut carriage)
}
