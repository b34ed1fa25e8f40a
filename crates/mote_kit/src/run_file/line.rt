//! A line of a run.

ghost use Rattle.std.specs.Prelude.{◌≡◌, ◌&&◌, get_or, nat_le};

/// A line of a run.
#[derive(Clone, Copy, Drop)]
pub struct Line<'a> {
    /// Its number in the file.
    pub number: usize,
    /// How often it is there.
    pub count: u32,
    pub text: &'a str,
    /// Its first word.
    pub word: &'a str,
    /// What is after that word and a space.
    pub rest: &'a str,
}

impl<'a> Line<'a> {
    /// The line with this number and text, so many times.
    pub fn of(number: usize, count: u32, text: &'a str) -> Self
        ensures number { result.number ≡ number }
        ensures count { result.count ≡ count }
        ensures text { result.text.now ≡ text.now }
    {
        let (word, rest) = text.split_once(' ').unwrap_or((text, ""));
        Line {
            number,
            count,
            text,
            word,
            rest,
        }
    }
}

/// Whether a text begins with a digit.
pub fn begins_with_digit(text: &str) -> bool
    ensures { result ≡ (nat_le 48 (get_or text.now 0 0) && nat_le (get_or text.now 0 0) 57) }
{
    matches!(text.as_bytes().first(), Some(b'0'..=b'9'))
}
