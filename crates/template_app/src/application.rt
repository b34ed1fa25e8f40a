//! The program's applications, by their names.

ghost use Rattle.template_app.specs.Applications.{application_says, named};

use crate::averager::Averager;
use crate::beat::Beat;
use mote_kit::FromName;
use mote_types::app::App;
use mote_types::call::Call;
use mote_types::event::Stimulus;

/// One of the program's applications: it says what that application says.
#[derive(Drop)]
pub enum Application {
    Beat(Beat),
    Averager(Averager),
}

impl Default for Application {
    /// What an unused entry of a list of applications is.
    fn default() -> Self {
        Application::Beat(Beat::new())
    }
}

impl FromName for Application {
    ghost by_name = { named };

    fn from_name(name: &str) -> Option<Self> {
        match name {
            "beat" => Some(Application::Beat(Beat::new())),
            "averager" => Some(Application::Averager(Averager::new())),
            _ => None,
        }
    }
}

impl App for Application {
    ghost says = { application_says };

    fn turn(&mut self, stimulus: &Stimulus) -> Call {
        match self {
            Application::Beat(beat) => beat.turn(stimulus),
            Application::Averager(averager) => averager.turn(stimulus),
        }
    }
}
