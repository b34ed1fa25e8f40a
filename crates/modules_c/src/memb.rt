//! Pools of blocks for C (`memb.h` of Contiki-NG), over a flag of each block that the pool's owner stores: `toarmuts/calls.h`
//! in `c/modules/include` declares these calls, and `lib/memb.h` there makes pointers of the numbers.
//!
//! A pool's blocks are numbered from 0 on, one for each flag, and a flag is true exactly where its block is used. Each contract
//! is about the pool that these flags are, whatever the bytes of its blocks. No call requires anything of flags or numbers.

mod flags;

ghost use Rattle.std.specs.Prelude.{◌≡◌, ℕ, List, ◌≤◌, ◌<◌, length, true, false, Some, None};
ghost use Rattle.mote_types.specs.Bytes.{zeros};
ghost use Rattle.memb_core.specs.Code.PoolBytes.{is_live};
ghost use Rattle.memb_core.specs.BlockPool.{unused_pool, first_unused, unused_count, allocated, freed};
ghost use Rattle.modules_c.specs.Memb.Flags.{flagged};

use crate::memb::flags::{count_unset, first_unset, is_set, unset_all};

/// Makes every block unused (`memb_init`).
#[unsafe(no_mangle)]
pub extern "C" fn toarmuts_memb_init(used: &mut [bool])
    ensures { (usable : ℕ) (bytes_at : ℕ → List ℕ) → flagged usable bytes_at used.new ≡ unused_pool (length used.old) usable }
{
    unset_all(used);
}

/// Allocates the unused block of lowest number (`memb_alloc`), and returns that number. Where every block is used it
/// returns the number of blocks, and nothing changes. Clause `block` is about a pool whose owner writes zeros over the
/// block.
#[unsafe(no_mangle)]
pub extern "C" fn toarmuts_memb_alloc(used: &mut [bool]) -> usize
    ensures within { result ≤ length used.old }
    ensures number { result < length used.old → (usable : ℕ) (bytes_at : ℕ → List ℕ) →
        first_unused (flagged usable bytes_at used.old) ≡ Some result }
    ensures block { result < length used.old → (usable : ℕ) (bytes_at : ℕ → List ℕ) → bytes_at result ≡ zeros usable →
        flagged usable bytes_at used.new ≡ allocated result (flagged usable bytes_at used.old) }
    ensures full { result ≡ length used.old → (usable : ℕ) (bytes_at : ℕ → List ℕ) →
        first_unused (flagged usable bytes_at used.old) ≡ None }
    ensures unchanged { result ≡ length used.old → used.new ≡ used.old }
{
    match first_unset(used) {
        Some(number) => {
            used[number] = true;
            number
        }
        None => used.len(),
    }
}

/// Frees a block (`memb_free`). Returns `false` exactly where no such block is used, and then nothing changes.
#[unsafe(no_mangle)]
pub extern "C" fn toarmuts_memb_free(used: &mut [bool], number: usize) -> bool
    ensures live { (usable : ℕ) (bytes_at : ℕ → List ℕ) → result ≡ is_live number (flagged usable bytes_at used.old) }
    ensures block { result ≡ true → (usable : ℕ) (bytes_at : ℕ → List ℕ) →
        flagged usable bytes_at used.new ≡ freed number (flagged usable bytes_at used.old) }
    ensures unchanged { result ≡ false → used.new ≡ used.old }
{
    if !is_set(used, number) {
        return false;
    }
    used[number] = false;
    true
}

/// The number of unused blocks (`memb_numfree`).
#[unsafe(no_mangle)]
pub extern "C" fn toarmuts_memb_numfree(used: &[bool]) -> usize
    ensures { (usable : ℕ) (bytes_at : ℕ → List ℕ) → result ≡ unused_count (flagged usable bytes_at used.now) }
{
    count_unset(used)
}
