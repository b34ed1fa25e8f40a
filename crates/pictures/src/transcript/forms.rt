//! The forms of the words of a line.

ghost use Rattle.std.specs.Prelude.{◌≡◌, ◌∷◌, ◌++◌};
ghost use Rattle.std.specs.Char.{is_ascii_digit};
ghost use Rattle.std.specs.List.{list_all};
ghost use Rattle.pictures.specs.Transcript.Words as spec;
ghost use Rattle.pictures.specs.Transcript.Turns as turns;
ghost use Rattle.pictures.specs.Transcript.Turns.{words};
ghost use Rattle.pictures.specs.Transcript.Code.{after_word, words_in};

/// The form of a word.
#[derive(Clone, Copy, Drop)]
pub(crate) enum Form {
    /// A decimal number without leading zeros, of 64 bits at most.
    Number,
    /// Two lower case digits for each byte, or `-` for none.
    Bytes,
    /// `-` for none, a number, or `x` and two lower case digits for each byte of a line.
    Payload,
    /// `true` or `false`.
    Flag,
}

impl Form {
    fn allows(self, word: &str) -> bool
        ensures { result ≡ spec.has_form self word.now }
    {
        match self {
            Form::Number => number(word).is_some(),
            Form::Bytes => is_bytes(word),
            Form::Payload => is_payload(word),
            Form::Flag => word == "true" || word == "false",
        }
    }
}

fn are_digits(word: &str) -> bool
    ensures { result ≡ list_all is_ascii_digit word.now }
{
    word.as_bytes().iter().all(|byte| byte.is_ascii_digit())
}

fn has_leading_zero(word: &str) -> bool
    ensures { result ≡ spec.has_leading_zero word.now }
{
    word.len() > 1 && word.as_bytes()[0] == b'0'
}

/// The number that is written so, without leading zeros.
pub(crate) fn number(word: &str) -> Option<u64>
    ensures { result ≡ spec.read_number word.now }
{
    if has_leading_zero(word) {
        return None;
    }
    if !are_digits(word) {
        return None;
    }
    word.parse::<u64>().ok()
}

fn is_hex_digit(byte: u8) -> bool
    ensures { result ≡ spec.is_hex_digit byte }
{
    matches!(byte, b'0'..=b'9' | b'a'..=b'f')
}

fn are_hex_digits(word: &str) -> bool
    ensures { result ≡ list_all spec.is_hex_digit word.now }
{
    word.as_bytes().iter().all(|byte| is_hex_digit(*byte))
}

/// Two lower case digits for each byte.
fn is_hex(word: &str) -> bool
    ensures { result ≡ spec.is_hex word.now }
{
    word.len() % 2 == 0 && are_hex_digits(word)
}

pub(crate) fn is_bytes(word: &str) -> bool
    ensures { result ≡ spec.is_bytes word.now }
{
    word == "-" || (!word.is_empty() && is_hex(word))
}

fn is_payload(word: &str) -> bool
    ensures { result ≡ spec.is_payload word.now }
{
    match word.strip_prefix("x") {
        Some(line) => is_hex(line),
        None => word == "-" || number(word).is_some(),
    }
}

/// Whether the words have these forms, one space between each two; without a text there are no words.
pub(crate) fn have_forms(text: Option<&str>, forms: &[Form]) -> bool
    ensures { result ≡ turns.have_forms forms.now (words_in text.entry) }
{
    let mut left = text;
    for form in forms {
        let Some(words) = left else {
            return false;
        };
        let (word, rest) = first_word(words);
        if !form.allows(word) {
            return false;
        }
        left = rest;
    }
    left.is_none()
}

/// A text's first word, and what follows the space.
pub(crate) fn first_word(text: &str) -> (&str, Option<&str>)
    ensures whole { text.now ≡ result.0.now ++ after_word result.1 }
    ensures first { words text.now ≡ result.0.now ∷ words_in result.1 }
{
    match text.split_once(' ') {
        Some((word, rest)) => (word, Some(rest)),
        None => (text, None),
    }
}
