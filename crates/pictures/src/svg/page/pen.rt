//! Shapes and texts that are put into a picture, each with what it shows when it is pointed at.

ghost use Rattle.std.specs.Prelude.{◌≡◌, ◌++◌, [], IfOk};
ghost use Rattle.pictures.specs.Svg.Parts.{text_of};
ghost use Rattle.pictures.specs.Svg.Elements as spec;

use crate::svg::markup::{Attribute, Content, Element, Tag};
use std::alloc::{AllocError, Global};

/// A point of the picture, in units of a pixel, from the left and from above.
#[derive(Clone, Copy, Drop)]
pub struct Point {
    pub left: usize,
    pub top: usize,
}

/// A rectangle.
#[derive(Clone, Copy, Drop)]
pub struct Area {
    pub corner: Point,
    pub width: usize,
    pub height: usize,
}

/// The element that is shown when another one is pointed at.
pub fn title_element(alloc: Global, title: &str) -> Result<Element, AllocError>
    ensures { IfOk result (λ element. element ≡ spec.title_element title.now) }
{
    Element::new(alloc, Tag::Title).saying(title)
}

/// A rectangle of a class.
pub fn area_element(alloc: Global, class: &str, area: Area) -> Result<Element, AllocError>
    ensures tag { IfOk result (λ element. element.tag ≡ Tag.Rect) }
    ensures inside { IfOk result (λ element. element.inside ≡ []) }
    ensures whole { IfOk result (λ element. element ≡ spec.area_element class.now area) }
{
    Element::new(alloc, Tag::Rect)
        .with(Attribute::Class, class)?
        .with_number(Attribute::Left, area.corner.left)?
        .with_number(Attribute::Top, area.corner.top)?
        .with_number(Attribute::Width, area.width)?
        .with_number(Attribute::Height, area.height)
}

/// A text's element, with nothing inside.
pub fn text_element(alloc: Global, point: Point) -> Result<Element, AllocError>
    ensures { IfOk result (λ element. element ≡ spec.text_element point) }
{
    Element::new(alloc, Tag::Text)
        .with_number(Attribute::Left, point.left)?
        .with_number(Attribute::Top, point.top)
}

/// A text's element, with words of a class after what it says.
pub fn with_span(
    alloc: Global,
    element: Element,
    class: &str,
    words: &str,
) -> Result<Element, AllocError>
    ensures { IfOk result (λ whole. whole ≡ spec.with_span class.now words.now element) }
{
    if words.is_empty() {
        return Ok(element);
    }
    let span = Element::new(alloc, Tag::Span)
        .with(Attribute::Class, class)?
        .saying(words)?;
    element.holding(&span)
}

/// Draws into content. A class says how something looks, as the picture's style has it. A title may be empty: then there is
/// none.
#[derive(Drop)]
pub struct Pen {
    pub alloc: Global,
    pub content: Content,
}

impl Pen {
    pub fn new(alloc: Global) -> Self
        ensures { result.content ≡ [] }
    {
        Pen {
            alloc,
            content: Content::new(alloc),
        }
    }

    fn put(&mut self, element: Element, title: &str) -> Result<(), AllocError>
        ensures { IfOk result (λ _. self.new.content ≡ self.old.content ++ text_of (spec.titled title.now element)) }
    {
        if title.is_empty() {
            return self.content.hold(&element);
        }
        let title = title_element(self.alloc, title)?;
        self.content.hold(&element.holding(&title)?)
    }

    pub fn area(&mut self, class: &str, area: Area, title: &str) -> Result<(), AllocError>
        ensures { IfOk result (λ _. self.new.content ≡ self.old.content
            ++ text_of (spec.titled title.now (spec.area_element class.now area))) }
    {
        let element = area_element(self.alloc, class, area)?;
        self.put(element, title)
    }

    /// A line by the commands of a path.
    pub fn line(&mut self, class: &str, commands: &str, title: &str) -> Result<(), AllocError>
        ensures { IfOk result (λ _. self.new.content ≡ self.old.content
            ++ text_of (spec.titled title.now (spec.line_element class.now commands.now))) }
    {
        let element = Element::new(self.alloc, Tag::Path)
            .with(Attribute::Class, class)?
            .with(Attribute::Commands, commands)?;
        self.put(element, title)
    }

    pub fn text(&mut self, class: &str, point: Point, text: &str) -> Result<(), AllocError>
        ensures { IfOk result (λ _. self.new.content ≡ self.old.content ++ text_of (spec.words_element class.now point text.now)) }
    {
        let element = text_element(self.alloc, point)?
            .with(Attribute::Class, class)?
            .saying(text)?;
        self.content.hold(&element)
    }
}
