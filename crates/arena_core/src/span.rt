//! A range of bytes.

ghost use Rattle.std.specs.Prelude.{◌+◌, ◌<◌, ◌^◌};

/// A range of an arena's bytes: `len` bytes from `at` on. No range wraps around.
#[derive(Clone, Copy, Debug, PartialEq, Eq, Drop)]
pub struct Span {
    pub at: u32,
    pub len: u32,
    pub ghost fits: { at + len < 2 ^ 32 },
}
