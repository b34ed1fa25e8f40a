//! An application of a run, as it runs.

ghost use Rattle.scenario.specs.Actors.{actor_says};

use crate::acts::Acts;
use call_lists::{Application, Reactions};
use mote_types::app::App;
use mote_types::call::Call;
use mote_types::event::Stimulus;

/// An application of a run: one type for all, so that boxes hold no other.
#[derive(Drop)]
pub(crate) enum Actor {
    ByName(Application),
    ByRows(Reactions),
}

impl Actor {
    /// The application that does this, as it begins.
    pub(crate) fn of(acts: Acts) -> Self {
        match acts {
            Acts::ByName(application) => Actor::ByName(application),
            Acts::ByRows(rows) => Actor::ByRows(Reactions::new(rows)),
        }
    }
}

impl App for Actor {
    ghost says = { actor_says };

    fn turn(&mut self, stimulus: &Stimulus) -> Call {
        match self {
            Actor::ByName(application) => application.turn(stimulus),
            Actor::ByRows(reactions) => reactions.turn(stimulus),
        }
    }
}
