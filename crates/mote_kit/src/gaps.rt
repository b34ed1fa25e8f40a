//! Texts of which parts are left out.

ghost use Rattle.std.specs.Prelude.{◌≡◌, ◌≢◌, ◌↔◌, ◌++◌, ◌∷◌, true, List, ℕ, MatchOption};
ghost use Rattle.mote_kit.specs.Gaps.{Fits, gap, texts};
ghost use Rattle.mote_kit.specs.Code.Parts.{HasNoGap, IsFirst, IsNowhere};

/// The line that matches any lines.
pub const GAP: &str = "...";

/// The lines before the first gap and those after it, where there is one.
fn around_gap<'x>(lines: &'x [&'x str]) -> Option<(&'x [&'x str], &'x [&'x str])>
    ensures { MatchOption result (HasNoGap (texts lines.now)) (λ p.
        HasNoGap (texts p.0.now) × (texts lines.now ≡ texts p.0.now ++ (gap ∷ texts p.1.now))) }
{
    for index in 0..lines.len() {
        if lines[index] == GAP {
            return Some((&lines[..index], &lines[index + 1..]));
        }
    }
    None
}

/// What is after these lines where a text begins with them.
fn rest_of<'x>(lines: &'x [&'x str], text: &'x [&'x str]) -> Option<&'x [&'x str]>
    ensures { MatchOption result ((rest : List (List ℕ)) → texts text.now ≢ texts lines.now ++ rest)
        (λ left. texts text.now ≡ texts lines.now ++ texts left.now) }
{
    text.strip_prefix(lines)
}

/// What is after these lines where they are first in a text, if they are there.
fn rest_after<'x>(lines: &'x [&'x str], text: &'x [&'x str]) -> Option<&'x [&'x str]>
    ensures { MatchOption result (IsNowhere (texts lines.now) (texts text.now))
        (λ left. IsFirst (texts lines.now) (texts text.now) (texts left.now)) }
{
    for start in 0..=text.len() {
        if let Some(rest) = rest_of(lines, &text[start..]) {
            return Some(rest);
        }
    }
    None
}

/// Whether a text is as expected, where a line `...` of the expected one matches any lines, none included.
pub fn fits<'x>(wanted: &'x [&'x str], found: &'x [&'x str]) -> bool
    ensures { (result ≡ true) ↔ Fits (texts wanted.now) (texts found.now) }
{
    let Some((front, mut wanted)) = around_gap(wanted) else {
        return wanted == found;
    };
    let Some(mut found) = rest_of(front, found) else {
        return false;
    };
    // A part that is matched as soon as it can be leaves most for those after it.
    while let Some((part, after)) = around_gap(wanted) {
        let Some(rest) = rest_after(part, found) else {
            return false;
        };
        found = rest;
        wanted = after;
    }
    found.ends_with(wanted)
}
