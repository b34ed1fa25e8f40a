//! A bundled application as C holds it between two turns.

ghost use Rattle.std.specs.Prelude.{◌≡◌, ◌≤◌, ◌<◌, Some, None, length, IfSome, IfNone};
ghost use Rattle.library_core.specs.PlainApplications.{MakesCall, application_said, byte_in, churn_in, echo_in, event_in, is_set, ping_in, ping_stage, relay_in, relay_stage};

use crate::call::front;
use mote_apps::blink::Blink;
use mote_apps::bundled::Bundled;
use mote_apps::churn::Churn;
use mote_apps::echo::Echo;
use mote_apps::hello::Hello;
use mote_apps::ping::{Ping, Stage as PingStage};
use mote_apps::relay::{Relay, Stage as RelayStage};
use mote_types::app::App;
use mote_types::call::Call;
use mote_types::event::Stimulus;

/// A bundled application between two turns. With a kind, and 0 in all other fields, it is as before its start.
#[repr(C)]
#[derive(Drop)]
pub struct PlainApplication {
    /// 1 hello, 2 blink, 3 echo, 4 relay, 5 churn, 6 ping. Any other says no application.
    pub kind: u32,
    /// Of blink whether the light is on, and whether that is being printed; of relay its stage, and the length of the frame; of
    /// churn whether it has begun, and how many calls it has made; of ping its stage, the count, whether it has an event number,
    /// and which.
    pub numbers: [u32; 4],
    /// The number of bytes that echo has still to print, at most 64.
    pub length: u32,
    pub bytes: [u8; 128],
}

/// The stage of a relay that has this number.
fn relay_stage(number: u32) -> Option<RelayStage>
    ensures { result ≡ relay_stage number }
{
    match number {
        0 => Some(RelayStage::Idle),
        1 => Some(RelayStage::Allocating),
        2 => Some(RelayStage::ReadingFront),
        3 => Some(RelayStage::WritingFront),
        4 => Some(RelayStage::ReadingRest),
        5 => Some(RelayStage::WritingRest),
        6 => Some(RelayStage::Sending),
        7 => Some(RelayStage::Freeing),
        8 => Some(RelayStage::Finishing),
        _ => None,
    }
}

fn relay_number(stage: RelayStage) -> u32
    ensures { relay_stage result ≡ Some stage }
{
    match stage {
        RelayStage::Idle => 0,
        RelayStage::Allocating => 1,
        RelayStage::ReadingFront => 2,
        RelayStage::WritingFront => 3,
        RelayStage::ReadingRest => 4,
        RelayStage::WritingRest => 5,
        RelayStage::Sending => 6,
        RelayStage::Freeing => 7,
        RelayStage::Finishing => 8,
    }
}

/// The stage of a ping that has this number.
fn ping_stage(number: u32) -> Option<PingStage>
    ensures { result ≡ ping_stage number }
{
    match number {
        0 => Some(PingStage::Idle),
        1 => Some(PingStage::Asked),
        2 => Some(PingStage::Sent),
        _ => None,
    }
}

fn ping_number(stage: PingStage) -> u32
    ensures { ping_stage result ≡ Some stage }
{
    match stage {
        PingStage::Idle => 0,
        PingStage::Asked => 1,
        PingStage::Sent => 2,
    }
}

impl PlainApplication {
    fn is_set(&self, index: usize) -> bool
        requires { index < 4 }
        ensures { result ≡ is_set index self.now }
    {
        self.numbers[index] != 0
    }

    fn byte(&self, index: usize) -> Option<u8>
        requires { index < 4 }
        ensures { result ≡ byte_in index self.now }
    {
        u8::try_from(self.numbers[index]).ok()
    }

    fn relay(&self) -> Option<Relay>
        ensures { result ≡ relay_in self.now }
    {
        let stage = relay_stage(self.numbers[0])?;
        let len = self.byte(1)?;
        Some(Relay { len, stage })
    }

    fn churn(&self) -> Option<Churn>
        ensures { result ≡ churn_in self.now }
    {
        if !self.is_set(0) {
            return Some(Churn::new());
        }
        let made = self.byte(1)?;
        Some(Churn { made })
    }

    /// The event number that a ping has drawn, if it has.
    fn event(&self) -> Option<Option<u8>>
        ensures { result ≡ event_in self.now }
    {
        if !self.is_set(2) {
            return Some(None);
        }
        let number = self.byte(3)?;
        Some(Some(number))
    }

    fn ping(&self) -> Option<Ping>
        ensures { result ≡ ping_in self.now }
    {
        let stage = ping_stage(self.numbers[0])?;
        let number = self.event()?;
        let count = self.numbers[1];
        Some(Ping {
            number,
            count,
            stage,
        })
    }

    fn echo(&self) -> Option<Echo>
        ensures { result ≡ echo_in self.now }
    {
        let rest = front(&self.bytes, self.length)?;
        Some(Echo { rest })
    }

    /// The application that this says. None where there is no such kind, or a number is out of its range.
    fn application(&self) -> Option<Bundled>
        ensures { result ≡ application_said self.now }
    {
        match self.kind {
            1 => Some(Bundled::Hello(Hello)),
            2 => Some(Bundled::Blink(Blink {
                lit: self.is_set(0),
                printed: self.is_set(1),
            })),
            3 => Some(Bundled::Echo(self.echo()?)),
            4 => Some(Bundled::Relay(self.relay()?)),
            5 => Some(Bundled::Churn(self.churn()?)),
            6 => Some(Bundled::Ping(self.ping()?)),
            _ => None,
        }
    }

    /// Puts what an echo has still to print to the front.
    #[tactic(auto, using(std::proofs::lemmas::List::take_at))]
    fn put_rest(&mut self, rest: &[u8])
        requires { length rest.now ≤ 64 }
        ensures kind { self.new.kind ≡ 3 }
        ensures rest { echo_in self.new ≡ Some (record { rest = record { items = rest.now } }) }
    {
        self.kind = 3;
        self.length = rest.len() as u32;
        self.bytes[..rest.len()].copy_from_slice(rest);
    }

    /// Says this application.
    fn put(&mut self, application: &Bundled)
        ensures { application_said self.new ≡ Some application.now }
    {
        match application {
            Bundled::Hello(_) => self.kind = 1,
            Bundled::Blink(blink) => {
                self.kind = 2;
                self.numbers = [u32::from(blink.lit), u32::from(blink.printed), 0, 0];
            }
            Bundled::Echo(echo) => self.put_rest(echo.rest.as_slice()),
            Bundled::Relay(relay) => {
                self.kind = 4;
                self.numbers = [relay_number(relay.stage), u32::from(relay.len), 0, 0];
            }
            Bundled::Churn(churn) => {
                self.kind = 5;
                self.numbers = [1, u32::from(churn.made), 0, 0];
            }
            Bundled::Ping(ping) => {
                self.kind = 6;
                self.numbers = match ping.number {
                    Some(number) => [ping_number(ping.stage), ping.count, 1, u32::from(number)],
                    None => [ping_number(ping.stage), ping.count, 0, 0],
                };
            }
        }
    }

    /// The call that the application makes to a stimulus; this says the application after that. None where this says no
    /// application.
    pub fn turn(&mut self, stimulus: &Stimulus) -> Option<Call>
        ensures made { IfSome result (λ call. MakesCall call stimulus.now self.old self.new) }
        ensures none { IfNone result (application_said self.old ≡ None) }
        ensures unchanged { IfNone result (self.new ≡ self.old) }
    {
        let mut application = self.application()?;
        let call = application.turn(stimulus);
        self.put(&application);
        Some(call)
    }
}
