//! What says a call.

ghost use Rattle.std.specs.Prelude.{◌≡◌, Option, Some, is_some, true};
ghost use Rattle.mote_types.specs.declared.call.Call.{Call as Made};

use mote_types::call::Call;

/// A call in another form, or something that isn't one.
pub trait CallSource {
    /// The call that it says, if it says one.
    ghost said: { Self → Option Made };

    /// Puts the call that it says into `call`, where the last call may still be. Returns whether it says one: if not, `call` may be any
    /// call.
    fn put_call(&self, call: &mut Call) -> bool
        ensures is_said { result ≡ is_some (said self.now) }
        ensures said { result ≡ true → said self.now ≡ Some call.new };
}
