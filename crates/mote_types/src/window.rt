//! The latest of many items.

ghost use Rattle.std.specs.Prelude.{◌≡◌, ◌<◌, ◌++◌, [], ◌∷◌};
ghost use Rattle.mote_types.specs.Code.Latest.{latest};

use arrayvec::ArrayVec;

/// Appends an item. Where there is no room the oldest one is dropped, so the latest N remain.
pub fn push_latest<T: Default + Drop, const N: usize>(window: &mut ArrayVec<T, N>, item: T)
    requires { 0 < N }
    ensures { window.new.items ≡ latest N (window.old.items ++ item ∷ []) }
{
    if window.is_full() {
        window.remove(0);
    }
    window.push(item);
}
