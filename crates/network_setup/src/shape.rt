//! What a line says of links: between which motes they lead, and how they carry frames.

ghost use Rattle.std.specs.Prelude.{◌≡◌, map, option_map};
ghost use Rattle.std.specs.Option.{option_zip};
ghost use Rattle.network_setup.specs.Code.Words.{shape_of};
ghost use Rattle.network_setup.specs.Lines.{carriage_said, ends_said, grid_said, link_said, links_said, motes_said, rows_said, span_said};

use crate::carriage::Carriage;
use crate::words::{Span, read_span};
use mote_text::script::read_number;

/// Which motes a line links.
#[derive(Clone, Copy, Drop)]
pub(crate) enum Shape {
    /// One mote to another, one way.
    Link { from: u32, to: u32 },
    /// Each mote and the next one.
    Line(Span),
    /// The same, and the last one and the first one.
    Ring(Span),
    /// Each two motes.
    Mesh(Span),
    /// Neighbours in rows of `width` motes.
    Grid { span: Span, width: u32 },
}

/// The shape, and how its links carry frames.
fn with_carriage(shape: Option<Shape>, words: &[&str]) -> Option<(Shape, Carriage)>
    ensures { result ≡ option_zip shape (carriage_said (map (λ word. word.now) words.now)) }
{
    let shape = shape?;
    let carriage = Carriage::from_words(words)?;
    Some((shape, carriage))
}

/// The numbers of two motes.
fn read_ends(from: &str, to: &str) -> Option<Shape>
    ensures { result ≡ ends_said from.now to.now }
{
    let from = read_number(from.as_bytes())?;
    let to = read_number(to.as_bytes())?;
    Some(Shape::Link { from, to })
}

/// `N N`, and how the link carries frames.
fn read_link(words: &[&str]) -> Option<(Shape, Carriage)>
    ensures { result ≡ link_said (map (λ word. word.now) words.now) }
{
    match words {
        [from, to, rest @ ..] => with_carriage(read_ends(from, to), rest),
        _ => None,
    }
}

/// Which motes a line, a ring or a mesh links.
#[derive(Clone, Copy, Drop)]
enum Kind {
    Line,
    Ring,
    Mesh,
}

impl Kind {
    fn of(self, span: Span) -> Shape
        ensures { result ≡ shape_of self span }
    {
        match self {
            Kind::Line => Shape::Line(span),
            Kind::Ring => Shape::Ring(span),
            Kind::Mesh => Shape::Mesh(span),
        }
    }
}

/// `N..M`.
fn read_motes(kind: Kind, motes: &str) -> Option<Shape>
    ensures { result ≡ option_map (shape_of kind) (span_said motes.now) }
{
    let span = read_span(motes)?;
    Some(kind.of(span))
}

/// `N..M`, and how the links carry frames.
fn read_kind(kind: Kind, words: &[&str]) -> Option<(Shape, Carriage)>
    ensures { result ≡ motes_said (shape_of kind) (map (λ word. word.now) words.now) }
{
    match words {
        [motes, rest @ ..] => with_carriage(read_motes(kind, motes), rest),
        [] => None,
    }
}

/// `N..M width N`.
fn read_rows(motes: &str, word: &str, width: &str) -> Option<Shape>
    ensures { result ≡ rows_said motes.now word.now width.now }
{
    if word != "width" {
        return None;
    }
    let span = read_span(motes)?;
    let width = read_number(width.as_bytes())?;
    Some(Shape::Grid { span, width })
}

/// `N..M width N`, and how the links carry frames.
fn read_grid(words: &[&str]) -> Option<(Shape, Carriage)>
    ensures { result ≡ grid_said (map (λ word. word.now) words.now) }
{
    match words {
        [motes, word, width, rest @ ..] => with_carriage(read_rows(motes, word, width), rest),
        _ => None,
    }
}

/// What a line says of links, by its first word and the other ones.
pub(crate) fn read_links(word: &str, rest: &[&str]) -> Option<(Shape, Carriage)>
    ensures { result ≡ links_said word.now (map (λ word. word.now) rest.now) }
{
    match word {
        "link" => read_link(rest),
        "grid" => read_grid(rest),
        "line" => read_kind(Kind::Line, rest),
        "ring" => read_kind(Kind::Ring, rest),
        "mesh" => read_kind(Kind::Mesh, rest),
        _ => None,
    }
}
