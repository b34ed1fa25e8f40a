//! Hex digits of several bytes, up to sixteen at a time with vector instructions. Each contract here compares them with those of the
//! crate `hex`.

ghost use Rattle.std.specs.Prelude.{◌≡◌, ◌≤◌, ◌+◌, ◌*◌, ◌/◌, ◌++◌, EachIndex, drop, length, slice_index, take};
ghost use Rattle.hex.specs.Hex.{encode_lower};
ghost use Rattle.mote_text.specs.Code.HexDigits.{IsReadTo, value_or_none};

use std::simd::prelude::*;

/// What a byte is worth that is no digit.
pub(crate) const NO_DIGIT: u8 = 255;

/// The bytes of a block.
pub(crate) const BLOCK: usize = 16;

/// The fewest bytes whose digits are worked out, not looked up.
pub(crate) const FEW: usize = 4;

/// The two lower case digits of each of sixteen bytes.
#[inline(always)]
fn digits_of(bytes: u8x16) -> u8x32
    ensures { result ≡ encode_lower bytes }
{
    let high = bytes / u8x16::splat(16);
    let low = bytes % u8x16::splat(16);
    let values: u8x32 = high.shuffle(
        low,
        [
            0, 16, 1, 17, 2, 18, 3, 19, 4, 20, 5, 21, 6, 22, 7, 23, 8, 24, 9, 25, 10, 26, 11, 27,
            12, 28, 13, 29, 14, 30, 15, 31,
        ],
    );
    // The distance of the letters from the digits 0 to 9.
    let past_numbers = values
        .simd_gt(u8x32::splat(9))
        .select(u8x32::splat(b'a' - b'9' - 1), u8x32::splat(0));
    values + u8x32::splat(b'0') + past_numbers
}

/// The digits of four bytes and of four others, worked out together.
#[inline(always)]
fn digits_of_fours(front: u8x4, back: u8x4) -> (u8x8, u8x8)
    ensures front { result.0 ≡ encode_lower front }
    ensures back { result.1 ≡ encode_lower back }
{
    let bytes: u8x16 = front.shuffle(back, [0, 1, 2, 3, 4, 5, 6, 7, 0, 1, 2, 3, 4, 5, 6, 7]);
    let digits = digits_of(bytes);
    let first: u8x8 = digits.shuffle(digits, [0, 1, 2, 3, 4, 5, 6, 7]);
    let second: u8x8 = digits.shuffle(digits, [8, 9, 10, 11, 12, 13, 14, 15]);
    (first, second)
}

/// Writes two lower case digits for each of four to eight bytes: those of the first four and of the last four, which may overlap.
#[inline(always)]
fn write_few(bytes: &[u8], buffer: &mut [u8])
    requires some { 4 ≤ length bytes.now }
    requires few { length bytes.now ≤ 8 }
    requires buffer { length buffer.old ≡ 2 * length bytes.now }
    ensures { buffer.new ≡ encode_lower bytes.now }
{
    let last = bytes.len() - FEW;
    let (front, back) = digits_of_fours(u8x4::from_slice(bytes), u8x4::from_slice(&bytes[last..]));
    front.copy_to_slice(buffer);
    back.copy_to_slice(&mut buffer[2 * last..]);
}

/// As `write_few`, of eight to sixteen bytes.
#[inline(always)]
fn write_some(bytes: &[u8], buffer: &mut [u8])
    requires some { 8 ≤ length bytes.now }
    requires few { length bytes.now ≤ 16 }
    requires buffer { length buffer.old ≡ 2 * length bytes.now }
    ensures { buffer.new ≡ encode_lower bytes.now }
{
    let last = bytes.len() - 2 * FEW;
    write_few(&bytes[..2 * FEW], &mut buffer[..4 * FEW]);
    write_few(&bytes[last..], &mut buffer[2 * last..]);
}

/// Writes two lower case digits for each of sixteen bytes.
#[inline(always)]
fn write_block(bytes: &[u8], buffer: &mut [u8])
    requires bytes { length bytes.now ≡ 16 }
    requires buffer { length buffer.old ≡ 32 }
    ensures { buffer.new ≡ encode_lower bytes.now }
{
    digits_of(u8x16::from_slice(bytes)).copy_to_slice(buffer);
}

/// Writes the digits of sixteen bytes from a position on.
#[inline(always)]
fn write_block_at(bytes: &[u8], buffer: &mut [u8], at: usize)
    requires inside { at + 16 ≤ length bytes.now }
    requires buffer { length buffer.old ≡ 2 * length bytes.now }
    ensures text { take (2 * at + 32) buffer.new ≡ take (2 * at) buffer.old ++ encode_lower (take 16 (drop at bytes.now)) }
    ensures size { length buffer.new ≡ length buffer.old }
{
    write_block(
        &bytes[at..at + BLOCK],
        &mut buffer[2 * at..2 * at + 2 * BLOCK],
    );
}

/// Writes two lower case digits for each byte, block by block. The last block may overlap the one before.
#[inline(always)]
fn write_blocks(bytes: &[u8], buffer: &mut [u8])
    requires bytes { 16 ≤ length bytes.now }
    requires buffer { length buffer.old ≡ 2 * length bytes.now }
    ensures { buffer.new ≡ encode_lower bytes.now }
{
    'rows: for row in 0..bytes.len() / BLOCK {
        write_block_at(bytes, buffer, BLOCK * row);
    }
    write_block_at(bytes, buffer, bytes.len() - BLOCK);
}

/// Writes two lower case digits for each of four bytes or more.
#[inline(always)]
pub(crate) fn write_digits(bytes: &[u8], buffer: &mut [u8])
    requires bytes { 4 ≤ length bytes.now }
    requires buffer { length buffer.old ≡ 2 * length bytes.now }
    ensures { buffer.new ≡ encode_lower bytes.now }
{
    if bytes.len() <= 2 * FEW {
        write_few(bytes, buffer);
    } else if bytes.len() < BLOCK {
        write_some(bytes, buffer);
    } else {
        write_blocks(bytes, buffer);
    }
}

/// What a byte is worth as a hex digit of either case.
#[inline(always)]
fn value_of(digit: u8) -> u8
    ensures { result ≡ value_or_none digit }
{
    let number = digit.wrapping_sub(b'0');
    let letter = (digit | 32).wrapping_sub(b'a');
    if number < 10 {
        number
    } else if letter < 6 {
        letter + 10
    } else {
        NO_DIGIT
    }
}

/// What the digits of a block are worth.
#[inline(always)]
fn values_of(digits: &[u8], from: usize) -> [u8; 32]
    requires { from + 32 ≤ length digits.now }
    ensures { EachIndex result (λ i. slice_index result i ≡ value_or_none (slice_index digits.now (from + i))) }
{
    let mut values = [0; 32];
    'digits: for i in 0..32 {
        values[i] = value_of(digits[from + i]);
    }
    values
}

/// Reads sixteen bytes from a position on. Returns the bits of all values, those of the digits before it among them.
#[inline(always)]
fn read_block(digits: &[u8], buffer: &mut [u8], at: usize, before: u8) -> u8
    requires inside { at + 16 ≤ length buffer.old }
    requires digits { length digits.now ≡ 2 * length buffer.old }
    requires before { IsReadTo digits.now buffer.old at before }
    ensures read { IsReadTo digits.now buffer.new (at + 16) result }
    ensures size { length buffer.new ≡ length buffer.old }
{
    let values = values_of(digits, 2 * at);
    let mut bits = before;
    'bytes: for i in 0..BLOCK {
        let (high, low) = (values[2 * i], values[2 * i + 1]);
        bits |= high | low;
        buffer[at + i] = high.wrapping_mul(16).wrapping_add(low);
    }
    bits
}

/// Reads all whole blocks of the buffer. Returns the bits of all values.
#[inline(never)]
pub(crate) fn read_blocks(digits: &[u8], buffer: &mut [u8]) -> u8
    requires { length digits.now ≡ 2 * length buffer.old }
    ensures read { IsReadTo digits.now buffer.new (length buffer.old / 16 * 16) result }
    ensures size { length buffer.new ≡ length buffer.old }
{
    let mut bits = 0;
    'rows: for row in 0..buffer.len() / BLOCK {
        bits = read_block(digits, buffer, BLOCK * row, bits);
    }
    bits
}
