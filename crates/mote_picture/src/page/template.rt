//! A page without its data, in its parts.

pub(crate) mod markup;
pub(crate) mod script;
pub(crate) mod style;
