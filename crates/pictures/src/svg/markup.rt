//! Markup that is well formed by the way it is made: an element is closed when it is put in, and every text is escaped.

ghost use Rattle.std.specs.Prelude.{◌≡◌, ℕ, List, [], ◌++◌, decimal, IfOk};
ghost use Rattle.pictures.specs.Svg.Markup.{AreAttributes, HaveText, IsContent, IsDocument, escaped, escaped_byte, attribute_text, element_text};
ghost use Rattle.pictures.specs.Svg.Markup as markup;
ghost use Rattle.pictures.specs.Svg.Parts.{Parts, text_of, with_attribute, with_text, with_element};

pub mod names;

use itoa::Buffer;
pub use names::{Attribute, Tag};
use std::alloc::{AllocError, Global};
use std::marker::Model;

/// Appends a byte as it may be in a text.
fn push_escaped_byte(out: &mut Vec<u8>, byte: u8) -> Result<(), AllocError>
    ensures { IfOk result (λ _. out.new.items ≡ out.old.items ++ escaped_byte byte) }
{
    match byte {
        b'&' => out.extend_from_slice(b"&amp;"),
        b'<' => out.extend_from_slice(b"&lt;"),
        b'>' => out.extend_from_slice(b"&gt;"),
        b'"' => out.extend_from_slice(b"&quot;"),
        b'\n' => out.extend_from_slice(b"\n"),
        0..=31 => out.extend_from_slice(b"?"),
        _ => out.extend_from_slice(&[byte]),
    }
}

/// Appends a text, escaped.
fn push_escaped(out: &mut Vec<u8>, text: &[u8]) -> Result<(), AllocError>
    ensures { IfOk result (λ _. out.new.items ≡ out.old.items ++ escaped text.now) }
{
    for byte in text {
        push_escaped_byte(out, *byte)?;
    }
    Ok(())
}

/// Whether one of these attributes has the name of that one.
fn is_named(named: &[Attribute], attribute: Attribute) -> bool
    ensures { result ≡ markup.is_named attribute named.now }
{
    let mut is_found = false;
    for other in named {
        is_found |= other.name() == attribute.name();
    }
    is_found
}

/// Appends an attribute.
fn push_attribute(out: &mut Vec<u8>, attribute: Attribute, value: &[u8]) -> Result<(), AllocError>
    ensures { IfOk result (λ _. out.new.items ≡ out.old.items ++ attribute_text attribute value.now) }
{
    out.extend_from_slice(b" ")?;
    out.extend_from_slice(attribute.name().as_bytes())?;
    out.extend_from_slice(b"=\"")?;
    push_escaped(out, value)?;
    out.extend_from_slice(b"\"")
}

/// Appends a whole element.
fn push_element(
    out: &mut Vec<u8>,
    tag: Tag,
    attributes: &[u8],
    inside: &[u8],
) -> Result<(), AllocError>
    ensures { IfOk result (λ _. out.new.items ≡ out.old.items ++ element_text tag attributes.now inside.now) }
{
    out.extend_from_slice(b"<")?;
    out.extend_from_slice(tag.name().as_bytes())?;
    out.extend_from_slice(attributes)?;
    out.extend_from_slice(b">")?;
    out.extend_from_slice(inside)?;
    out.extend_from_slice(b"</")?;
    out.extend_from_slice(tag.name().as_bytes())?;
    out.extend_from_slice(b">")
}

/// Elements and texts, one after the other.
#[derive(Drop)]
pub struct Content {
    bytes: Vec<u8>,
}

impl Model for Content {
    ghost Value = { List ℕ };

    ghost view = { λ content. content.bytes.items };

    ghost invariant = { λ content. IsContent content.bytes.items };
}

impl Content {
    pub fn new(alloc: Global) -> Self
        ensures { result ≡ [] }
    {
        Content {
            bytes: Vec::new(alloc),
        }
    }

    /// Appends a text.
    pub fn say(&mut self, text: &str) -> Result<(), AllocError>
        ensures { IfOk result (λ _. self.new ≡ self.old ++ escaped text.now) }
    {
        let mut words = Vec::new(*self.bytes.allocator());
        push_escaped(&mut words, text.as_bytes())?;
        self.bytes.extend_from_slice(words.as_slice())
    }

    /// Appends an element.
    pub fn hold(&mut self, element: &Element) -> Result<(), AllocError>
        ensures { IfOk result (λ _. self.new ≡ self.old ++ text_of element.now) }
    {
        let mut whole = Vec::new(*self.bytes.allocator());
        let inside = &element.inside;
        push_element(
            &mut whole,
            element.tag,
            element.attributes.as_slice(),
            inside.bytes.as_slice(),
        )?;
        self.bytes.extend_from_slice(whole.as_slice())
    }

    /// Appends other content.
    pub fn append(&mut self, other: &Content) -> Result<(), AllocError>
        ensures { IfOk result (λ _. self.new ≡ self.old ++ other.now) }
    {
        self.bytes.extend_from_slice(other.bytes.as_slice())
    }

    /// What is in it is content.
    pub fn is_well_formed(&self)
        ensures { IsContent self.now }
    {
        // Nothing is done: the clause says what holds of all content.
        let _bytes = &self.bytes;
    }
}

/// An element that is not put into any content yet.
#[derive(Drop)]
pub struct Element {
    tag: Tag,
    named: Vec<Attribute>,
    /// Their text.
    attributes: Vec<u8>,
    inside: Content,
}

impl Model for Element {
    ghost Value = { Parts };

    ghost view = { λ element.
        record { tag = element.tag; named = element.named.items; attributes = element.attributes.items; inside = element.inside } };

    ghost invariant = { λ element. HaveText element.named.items element.attributes.items };
}

impl Element {
    /// An element without attributes, and with nothing inside.
    pub fn new(alloc: Global, tag: Tag) -> Self
        ensures { result ≡ record { tag = tag; named = []; attributes = []; inside = [] } }
    {
        Element {
            tag,
            named: Vec::new(alloc),
            attributes: Vec::new(alloc),
            inside: Content::new(alloc),
        }
    }

    /// The element with one more attribute. One that has it already stays as it is: no element has an attribute twice.
    pub fn with(self, attribute: Attribute, value: &str) -> Result<Self, AllocError>
        ensures { IfOk result (λ element. element ≡ with_attribute attribute value.now self) }
    {
        if is_named(self.named.as_slice(), attribute) {
            return Ok(self);
        }
        let Element {
            tag,
            mut named,
            mut attributes,
            inside,
        } = self;
        named.push(attribute)?;
        push_attribute(&mut attributes, attribute, value.as_bytes())?;
        Ok(Element {
            tag,
            named,
            attributes,
            inside,
        })
    }

    /// The element with one more attribute, a number.
    pub fn with_number(self, attribute: Attribute, value: usize) -> Result<Self, AllocError>
        ensures { IfOk result (λ element. element ≡ with_attribute attribute (decimal value) self) }
    {
        let mut buffer = Buffer::new();
        self.with(attribute, buffer.format(value))
    }

    /// The element with a text after its content.
    pub fn saying(mut self, text: &str) -> Result<Self, AllocError>
        ensures { IfOk result (λ element. element ≡ with_text text.now self) }
    {
        self.inside.say(text)?;
        Ok(self)
    }

    /// The element with another one after its content.
    pub fn holding(mut self, element: &Element) -> Result<Self, AllocError>
        ensures { IfOk result (λ outer. outer ≡ with_element element.now self) }
    {
        self.inside.hold(element)?;
        Ok(self)
    }

    /// The element with more content after its content.
    pub fn around(mut self, content: &Content) -> Result<Self, AllocError>
        ensures { IfOk result (λ outer. outer ≡ record self { inside = self.inside ++ content.now }) }
    {
        self.inside.append(content)?;
        Ok(self)
    }

    /// The text of the attributes is attributes, and what is inside is content.
    pub fn is_well_formed(&self)
        ensures attributes { AreAttributes self.now.attributes }
        ensures content { IsContent self.now.inside }
    {
        // Nothing is done: the clauses say what holds of each element.
        let _attributes = &self.attributes;
        let inside = &self.inside;
        let _bytes = &inside.bytes;
    }

    /// The text of the element.
    pub fn document(&self, alloc: Global) -> Result<Vec<u8>, AllocError>
        ensures text { IfOk result (λ text. text.items ≡ text_of self.now) }
        ensures document { IfOk result (λ text. IsDocument text.items) }
    {
        let mut whole = Vec::new(alloc);
        let inside = &self.inside;
        push_element(
            &mut whole,
            self.tag,
            self.attributes.as_slice(),
            inside.bytes.as_slice(),
        )?;
        Ok(whole)
    }
}
