//! The applications of a network's motes.

ghost use Rattle.std.specs.Prelude.{IfOk};
ghost use Rattle.call_lists.specs.Faults.{IsNoList, IsNoName};
ghost use Rattle.network_setup.specs.Code.Setups.{IfMalformed};
ghost use Rattle.network_setup.specs.Code.Words.{IsBoxed};
ghost use Rattle.network_setup.specs.MoteApps.{mote_app_says};
ghost use Rattle.network_setup.specs.MoteLines.{HasCalls, HasName};

use crate::fault::LineFault;
use call_lists::Application;
use mote_apps::bundled::Bundled;
use mote_types::app::App;
use mote_types::call::Call;
use mote_types::event::Stimulus;
use std::alloc::Global;

/// An application of a mote.
#[derive(Drop)]
pub enum MoteApp {
    Bundled(Bundled),
    /// A list of calls has room for 128 of them. So that other applications need no such room, it is in a box.
    Boxed(Box<Application>),
}

/// An application in a box.
fn boxed(alloc: Global, application: Application) -> Result<MoteApp, LineFault>
    ensures boxed { IfOk result (IsBoxed application) }
    ensures memory { IfMalformed result ⊥ }
{
    match Box::new(alloc, application) {
        Ok(application) => Ok(MoteApp::Boxed(application)),
        Err(_) => Err(LineFault::Memory),
    }
}

impl MoteApp {
    /// The application of this name.
    pub(crate) fn named(alloc: Global, name: &str) -> Result<Self, LineFault>
        ensures named { IfOk result (HasName name.now) }
        ensures malformed { IfMalformed result (IsNoName name.now) }
    {
        if let Some(application) = Bundled::named(name) {
            return Ok(MoteApp::Bundled(application));
        }
        match Application::named(name) {
            Ok(application) => boxed(alloc, application),
            Err(_) => Err(LineFault::Malformed),
        }
    }

    /// The application that makes the calls of this text.
    pub(crate) fn listed(alloc: Global, text: &str) -> Result<Self, LineFault>
        ensures listed { IfOk result (HasCalls text.now) }
        ensures malformed { IfMalformed result (IsNoList text.now) }
    {
        match Application::listed(text) {
            Ok(application) => boxed(alloc, application),
            Err(_) => Err(LineFault::Malformed),
        }
    }
}

impl App for MoteApp {
    ghost says = { mote_app_says };

    fn turn(&mut self, stimulus: &Stimulus) -> Call {
        let mut call = Call::Wait;
        self.turn_into(stimulus, &mut call);
        call
    }

    fn turn_into(&mut self, stimulus: &Stimulus, call: &mut Call) {
        match self {
            MoteApp::Bundled(application) => application.turn_into(stimulus, call),
            MoteApp::Boxed(application) => application.turn_into(stimulus, call),
        }
    }
}
