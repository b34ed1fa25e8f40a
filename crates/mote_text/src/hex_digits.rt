//! Tables of the hex digits of bytes: the crate `hex` fills them once.

ghost use Rattle.std.specs.Prelude.{◌≡◌, ◌*◌, EachIndex, length, slice_index};
ghost use Rattle.std.specs.Result.{result_ok};
ghost use Rattle.hex.specs.Hex.{decode_sized, encode_lower};
ghost use Rattle.mote_text.specs.Code.HexDigits.{PairsOfDigits, ValuesOfDigits};
ghost use Rattle.mote_text.specs.Code.LineAnswers.{some_if};

use crate::hex_blocks::{BLOCK, FEW, NO_DIGIT, read_blocks, write_digits};

/// The two lower case digits of each byte, one pair after the other.
#[derive(Drop)]
pub struct DigitPairs {
    text: [u8; 512],
    ghost pairs: { PairsOfDigits text },
}

/// The bytes 0 to 255.
fn every_byte() -> [u8; 256]
    ensures { EachIndex result (λ i. slice_index result i ≡ i) }
{
    let mut bytes = [0; 256];
    'bytes: for i in 0..256 {
        bytes[i] = i as u8;
    }
    bytes
}

impl DigitPairs {
    pub fn new() -> Self
        ensures { PairsOfDigits result.text }
    {
        let mut text = [0; 512];
        let _ = hex::encode_to_slice(&every_byte()[..], &mut text);
        DigitPairs { text }
    }

    /// Writes two lower case digits for each byte into the buffer.
    #[inline]
    pub fn write(&self, bytes: &[u8], place: &mut [u8])
        requires { length place.old ≡ 2 * length bytes.now }
        ensures { place.new ≡ encode_lower bytes.now }
    {
        if bytes.len() >= FEW {
            return write_digits(bytes, place);
        }
        'bytes: for i in 0..bytes.len() {
            let at = 2 * bytes[i] as usize;
            // Both are read before either is written, so that they may move together.
            let (high, low) = (self.text[at], self.text[at + 1]);
            place[2 * i] = high;
            place[2 * i + 1] = low;
        }
    }
}

/// The digits of either case, each after a 0: so the crate `hex` reads them as bytes, which are their values.
const DIGITS: &[u8; 44] = b"000102030405060708090a0b0c0d0e0f0A0B0C0D0E0F";

/// What each byte is worth as a hex digit of either case.
#[derive(Drop)]
pub struct DigitValues {
    values: [u8; 256],
    ghost right: { ValuesOfDigits values },
}

impl DigitValues {
    pub fn new() -> Self
        ensures { ValuesOfDigits result.values }
    {
        let mut read = [0; 22];
        let _ = hex::decode_to_slice(&DIGITS[..], &mut read);
        let mut values = [NO_DIGIT; 256];
        'digits: for i in 0..22 {
            values[DIGITS[2 * i + 1] as usize] = read[i];
        }
        DigitValues { values }
    }

    /// Reads digits of either case into the buffer. Returns whether they write exactly as many bytes as it holds; if not, the
    /// buffer may hold any bytes.
    #[inline]
    pub fn read(&self, digits: &[u8], place: &mut [u8]) -> bool
        ensures { some_if result place.new ≡ result_ok (decode_sized digits.now (length place.old)) }
    {
        if digits.len() != 2 * place.len() {
            return false;
        }
        // The bits of all values: below 16 exactly where each is a digit's, so that one test serves for all.
        let whole = place.len() / BLOCK * BLOCK;
        let mut bits = if whole == 0 {
            0
        } else {
            read_blocks(digits, place)
        };
        'bytes: for i in whole..place.len() {
            let high = self.values[digits[2 * i] as usize];
            let low = self.values[digits[2 * i + 1] as usize];
            bits |= high | low;
            place[i] = high.wrapping_mul(16).wrapping_add(low);
        }
        bits < 16
    }
}
