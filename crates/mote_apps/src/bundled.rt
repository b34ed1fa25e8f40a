//! The applications by their names.

ghost use Rattle.std.specs.Prelude.{◌≡◌};
ghost use Rattle.mote_apps.specs.Bundled.{bundled_says, named};

use crate::blink::Blink;
use crate::churn::Churn;
use crate::echo::Echo;
use crate::hello::Hello;
use crate::ping::Ping;
use crate::relay::Relay;
use mote_types::FromName;
use mote_types::app::App;
use mote_types::call::Call;
use mote_types::event::Stimulus;

/// One of the applications that have a name: it says what that application says.
#[derive(Drop)]
pub enum Bundled {
    Hello(Hello),
    Blink(Blink),
    Echo(Echo),
    Relay(Relay),
    Churn(Churn),
    Ping(Ping),
}

impl Bundled {
    /// The application of this name, as it is before its first turn: `hello`, `blink`, `echo`, `relay`, `churn` or `ping`.
    pub fn named(word: &str) -> Option<Self>
        ensures { result ≡ named word.now }
    {
        match word {
            "hello" => Some(Bundled::Hello(Hello)),
            "blink" => Some(Bundled::Blink(Blink::new())),
            "echo" => Some(Bundled::Echo(Echo::new())),
            "relay" => Some(Bundled::Relay(Relay::new())),
            "churn" => Some(Bundled::Churn(Churn::new())),
            "ping" => Some(Bundled::Ping(Ping::new())),
            _ => None,
        }
    }
}

impl Default for Bundled {
    /// What an unused slot of a list of applications holds.
    fn default() -> Self {
        Bundled::Hello(Hello)
    }
}

impl FromName for Bundled {
    ghost by_name = { named };

    fn from_name(name: &str) -> Option<Self> {
        Bundled::named(name)
    }
}

impl App for Bundled {
    ghost says = { bundled_says };

    fn turn(&mut self, stimulus: &Stimulus) -> Call {
        let mut call = Call::Wait;
        self.turn_into(stimulus, &mut call);
        call
    }

    fn turn_into(&mut self, stimulus: &Stimulus, call: &mut Call) {
        match self {
            Bundled::Hello(hello) => hello.turn_into(stimulus, call),
            Bundled::Blink(blink) => blink.turn_into(stimulus, call),
            Bundled::Echo(echo) => echo.turn_into(stimulus, call),
            Bundled::Relay(relay) => relay.turn_into(stimulus, call),
            Bundled::Churn(churn) => churn.turn_into(stimulus, call),
            Bundled::Ping(ping) => ping.turn_into(stimulus, call),
        }
    }
}
