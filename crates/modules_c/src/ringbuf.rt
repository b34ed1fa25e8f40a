//! Rings of bytes for C (`ringbuf.h` of Contiki-NG): a queue of bytes between one that puts and one that gets, over a block of
//! bytes and two positions that its owner stores. `lib/ringbuf.h` in `c/modules/include` has these calls under Contiki-NG's
//! names.
//!
//! Each contract is about the queue that bytes and positions mean. No call requires anything of them: a ring that is none
//! counts as full for a put, and as empty for a get.

ghost use Rattle.std.specs.Prelude.{◌≡◌, ◌+◌, ◌≤◌, ◌<◌, ◌↔◌, [], ◌∷◌, ◌++◌, length, slice_set, true, false, IsTrue};
ghost use Rattle.modules_c.specs.Ringbuf.Queues.{IsRing, queued, room};

/// Whether bytes and positions are a ring.
fn is_ring(bytes: &[u8], put: u8, get: u8) -> bool
    ensures { IsTrue result ↔ IsRing bytes.now put get }
{
    let size = bytes.len();
    size <= 256 && (put as usize) < size && (get as usize) < size
}

/// The position after this one, around the end.
fn next(index: u8, size: usize) -> u8
    requires inside { index < size }
    requires size { size ≤ 256 }
    ensures within { index + 1 < size → result ≡ index + 1 }
    ensures around { index + 1 ≡ size → result ≡ 0 }
{
    if index as usize + 1 == size {
        0
    } else {
        index + 1
    }
}

/// Puts a byte at the queue's end (`ringbuf_put`): bytes wait from `get` on, and this one goes to position `put`, which
/// then advances. `false` where the queue is full, or there is no ring; then nothing changes.
#[unsafe(no_mangle)]
pub extern "C" fn toarmuts_ringbuf_put(bytes: &mut [u8], put: &mut u8, get: u8, byte: u8) -> bool
    ensures refused { IsRing bytes.old put.old get → result ≡ false → length (queued bytes.old put.old get) ≡ room bytes.old }
    ensures taken { result ≡ true → IsRing bytes.old put.old get × (length (queued bytes.old put.old get) < room bytes.old) }
    ensures ring { result ≡ true → IsRing bytes.new put.new get }
    ensures queue { result ≡ true → queued bytes.new put.new get ≡ queued bytes.old put.old get ++ (byte ∷ []) }
    ensures others { result ≡ true → bytes.new ≡ slice_set bytes.old put.old byte }
    ensures unchanged { result ≡ false → (bytes.new ≡ bytes.old) × (put.new ≡ put.old) }
{
    if !is_ring(bytes, *put, get) {
        return false;
    }
    let following = next(*put, bytes.len());
    if following == get {
        return false;
    }
    bytes[*put as usize] = byte;
    *put = following;
    true
}

/// Removes the oldest byte of the queue (`ringbuf_get`): it is at position `get`, which then advances. `false` where none
/// waits, or there is no ring; then nothing changes.
#[unsafe(no_mangle)]
pub extern "C" fn toarmuts_ringbuf_get(bytes: &[u8], put: u8, get: &mut u8, byte: &mut u8) -> bool
    ensures empty { IsRing bytes.now put get.old → result ≡ false → queued bytes.now put get.old ≡ [] }
    ensures ring { result ≡ true → IsRing bytes.now put get.old × IsRing bytes.now put get.new }
    ensures queue { result ≡ true → queued bytes.now put get.old ≡ byte.new ∷ queued bytes.now put get.new }
    ensures unchanged { result ≡ false → (get.new ≡ get.old) × (byte.new ≡ byte.old) }
{
    if !is_ring(bytes, put, *get) || put == *get {
        return false;
    }
    *byte = bytes[*get as usize];
    *get = next(*get, bytes.len());
    true
}

/// The number of waiting bytes (`ringbuf_elements`). None where there is no ring.
#[unsafe(no_mangle)]
pub extern "C" fn toarmuts_ringbuf_elements(bytes: &[u8], put: u8, get: u8) -> usize
    ensures ring { IsRing bytes.now put get → result ≡ length (queued bytes.now put get) }
    ensures none { ¬ IsRing bytes.now put get → result ≡ 0 }
{
    if !is_ring(bytes, put, get) {
        return 0;
    }
    if get <= put {
        (put - get) as usize
    } else {
        bytes.len() - (get - put) as usize
    }
}
