//! The names that the markup of a picture has.

ghost use Rattle.std.specs.Prelude.{◌≡◌};
ghost use Rattle.pictures.specs.Svg.Names as spec;

/// What an element is.
#[derive(Clone, Copy, Drop)]
pub enum Tag {
    Svg,
    Style,
    Rect,
    Path,
    Circle,
    Text,
    Span,
    Title,
}

impl Tag {
    pub fn name(self) -> &'static str
        ensures { result.now ≡ spec.tag_name self }
    {
        match self {
            Tag::Svg => "svg",
            Tag::Style => "style",
            Tag::Rect => "rect",
            Tag::Path => "path",
            Tag::Circle => "circle",
            Tag::Text => "text",
            Tag::Span => "tspan",
            Tag::Title => "title",
        }
    }
}

/// What an attribute says of its element.
#[derive(Clone, Copy, Drop)]
pub enum Attribute {
    Namespace,
    /// Whether spaces stay as they are.
    Space,
    Width,
    Height,
    ViewBox,
    Class,
    Left,
    Top,
    Commands,
    CentreLeft,
    CentreTop,
    Radius,
    Fill,
    Stroke,
    Anchor,
}

impl Attribute {
    pub fn name(self) -> &'static str
        ensures { result.now ≡ spec.attribute_name self }
    {
        match self {
            Attribute::Namespace => "xmlns",
            Attribute::Space => "xml:space",
            Attribute::Width => "width",
            Attribute::Height => "height",
            Attribute::ViewBox => "viewBox",
            Attribute::Class => "class",
            Attribute::Left => "x",
            Attribute::Top => "y",
            Attribute::Commands => "d",
            Attribute::CentreLeft => "cx",
            Attribute::CentreTop => "cy",
            Attribute::Radius => "r",
            Attribute::Fill => "fill",
            Attribute::Stroke => "stroke",
            Attribute::Anchor => "text-anchor",
        }
    }
}
