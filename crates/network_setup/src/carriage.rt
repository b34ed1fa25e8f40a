//! How links carry frames: the end of a line that makes links.

ghost use Rattle.std.specs.Prelude.{◌≡◌, [], ◌∷◌, map};
ghost use Rattle.network_setup.specs.Lines.{carriage_said, loss_said};
ghost use Rattle.network_setup.specs.Setting.{next_carriage};

use medium_core::link::{Link, Loss};
use mote_text::script::read_number;

/// The delay of links in ticks, and which frames they lose.
#[derive(Clone, Copy, Drop)]
pub(crate) struct Carriage {
    pub(crate) delay: u32,
    pub(crate) loss: Loss,
}

/// `every N`.
fn read_every(word: &str, number: &str) -> Option<Loss>
    ensures { result ≡ loss_said (word.now ∷ number.now ∷ []) }
{
    if word != "every" {
        return None;
    }
    let number = read_number(number.as_bytes())?;
    Some(Loss::every_nth(number))
}

/// `lot N seed N`.
fn read_lot(word: &str, chance: &str, label: &str, seed: &str) -> Option<Loss>
    ensures { result ≡ loss_said (word.now ∷ chance.now ∷ label.now ∷ seed.now ∷ []) }
{
    if word != "lot" || label != "seed" {
        return None;
    }
    let chance = read_number(chance.as_bytes())?;
    let seed = read_number(seed.as_bytes())?;
    Some(Loss::ByLot {
        chance,
        drawn: seed as u64,
    })
}

/// The end of a line: nothing, `every N`, or `lot N seed N`.
fn read_loss(words: &[&str]) -> Option<Loss>
    ensures { result ≡ loss_said (map (λ word. word.now) words.now) }
{
    match words {
        [] => Some(Loss::Never),
        [word, number] => read_every(word, number),
        [word, chance, label, seed] => read_lot(word, chance, label, seed),
        _ => None,
    }
}

impl Carriage {
    /// The end of a line: `delay N`, and which frames are lost.
    pub(crate) fn from_words(words: &[&str]) -> Option<Self>
        ensures { result ≡ carriage_said (map (λ word. word.now) words.now) }
    {
        match words {
            [word, delay, rule @ ..] => {
                if *word != "delay" {
                    return None;
                }
                let delay = read_number(delay.as_bytes())?;
                let loss = read_loss(rule)?;
                if Link::new(0, delay, loss).is_sound() {
                    Some(Carriage { delay, loss })
                } else {
                    None
                }
            }
            _ => None,
        }
    }

    /// The same for the line's next link: a lot has the next seed.
    pub(crate) fn next(self) -> Self
        ensures { result ≡ next_carriage self }
    {
        let loss = match self.loss {
            Loss::Never => Loss::Never,
            Loss::EveryNth { n, left } => Loss::EveryNth { n, left },
            Loss::ByLot { chance, drawn } => Loss::ByLot {
                chance,
                drawn: drawn.wrapping_add(1),
            },
        };
        Carriage {
            delay: self.delay,
            loss,
        }
    }
}
