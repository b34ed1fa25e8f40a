//! Bytes that are put at a position of a buffer: words with a blank after each, numbers, bytes in hex.
#![tactic(auto, unfolding(crate::specs::Code::EntryLines::blanked))]

ghost use Rattle.std.specs.Prelude.{◌≡◌, ◌≢◌, ◌≤◌, ◌<◌, ◌+◌, ◌-◌, ◌*◌, ◌/◌, ◌%◌, ◌++◌, [], ◌∷◌, length, take, decimal};
ghost use Rattle.hex.specs.Hex.{encode_lower};
ghost use Rattle.mote_text.specs.EntryText.{hex};
ghost use Rattle.mote_text.specs.Code.EntryLines.{blanked};
ghost use Rattle.mote_text.specs.Code.Appending.{Puts};
ghost use Rattle.mote_text.specs.Code.SmallNumbers.{HasSmallNumbers};

use crate::hex_digits::DigitPairs;
use itoa::Buffer;
use std::simd::Simd;

/// The numbers below 256, eight bytes each: in four its digits and blanks, then a byte with the number of its digits and one blank.
const SMALL_NUMBERS: &[u8; 2_048] = b"\
0   \x02   1   \x02   2   \x02   3   \x02   4   \x02   5   \x02   6   \x02   7   \x02   \
8   \x02   9   \x02   10  \x03   11  \x03   12  \x03   13  \x03   14  \x03   15  \x03   \
16  \x03   17  \x03   18  \x03   19  \x03   20  \x03   21  \x03   22  \x03   23  \x03   \
24  \x03   25  \x03   26  \x03   27  \x03   28  \x03   29  \x03   30  \x03   31  \x03   \
32  \x03   33  \x03   34  \x03   35  \x03   36  \x03   37  \x03   38  \x03   39  \x03   \
40  \x03   41  \x03   42  \x03   43  \x03   44  \x03   45  \x03   46  \x03   47  \x03   \
48  \x03   49  \x03   50  \x03   51  \x03   52  \x03   53  \x03   54  \x03   55  \x03   \
56  \x03   57  \x03   58  \x03   59  \x03   60  \x03   61  \x03   62  \x03   63  \x03   \
64  \x03   65  \x03   66  \x03   67  \x03   68  \x03   69  \x03   70  \x03   71  \x03   \
72  \x03   73  \x03   74  \x03   75  \x03   76  \x03   77  \x03   78  \x03   79  \x03   \
80  \x03   81  \x03   82  \x03   83  \x03   84  \x03   85  \x03   86  \x03   87  \x03   \
88  \x03   89  \x03   90  \x03   91  \x03   92  \x03   93  \x03   94  \x03   95  \x03   \
96  \x03   97  \x03   98  \x03   99  \x03   100 \x04   101 \x04   102 \x04   103 \x04   \
104 \x04   105 \x04   106 \x04   107 \x04   108 \x04   109 \x04   110 \x04   111 \x04   \
112 \x04   113 \x04   114 \x04   115 \x04   116 \x04   117 \x04   118 \x04   119 \x04   \
120 \x04   121 \x04   122 \x04   123 \x04   124 \x04   125 \x04   126 \x04   127 \x04   \
128 \x04   129 \x04   130 \x04   131 \x04   132 \x04   133 \x04   134 \x04   135 \x04   \
136 \x04   137 \x04   138 \x04   139 \x04   140 \x04   141 \x04   142 \x04   143 \x04   \
144 \x04   145 \x04   146 \x04   147 \x04   148 \x04   149 \x04   150 \x04   151 \x04   \
152 \x04   153 \x04   154 \x04   155 \x04   156 \x04   157 \x04   158 \x04   159 \x04   \
160 \x04   161 \x04   162 \x04   163 \x04   164 \x04   165 \x04   166 \x04   167 \x04   \
168 \x04   169 \x04   170 \x04   171 \x04   172 \x04   173 \x04   174 \x04   175 \x04   \
176 \x04   177 \x04   178 \x04   179 \x04   180 \x04   181 \x04   182 \x04   183 \x04   \
184 \x04   185 \x04   186 \x04   187 \x04   188 \x04   189 \x04   190 \x04   191 \x04   \
192 \x04   193 \x04   194 \x04   195 \x04   196 \x04   197 \x04   198 \x04   199 \x04   \
200 \x04   201 \x04   202 \x04   203 \x04   204 \x04   205 \x04   206 \x04   207 \x04   \
208 \x04   209 \x04   210 \x04   211 \x04   212 \x04   213 \x04   214 \x04   215 \x04   \
216 \x04   217 \x04   218 \x04   219 \x04   220 \x04   221 \x04   222 \x04   223 \x04   \
224 \x04   225 \x04   226 \x04   227 \x04   228 \x04   229 \x04   230 \x04   231 \x04   \
232 \x04   233 \x04   234 \x04   235 \x04   236 \x04   237 \x04   238 \x04   239 \x04   \
240 \x04   241 \x04   242 \x04   243 \x04   244 \x04   245 \x04   246 \x04   247 \x04   \
248 \x04   249 \x04   250 \x04   251 \x04   252 \x04   253 \x04   254 \x04   255 \x04   ";

/// The table of these numbers.
#[inline(always)]
fn small_numbers() -> &'static [u8]
    ensures numbers { HasSmallNumbers result.now }
    ensures size { length result.now ≡ 2048 }
{
    &SMALL_NUMBERS[..]
}

/// Moves the first N bytes of a block, in one load and one store: `copy_from_slice` would ask first whether the two overlap.
#[inline(always)]
fn move_block<const N: usize>(buffer: &mut [u8], block: &[u8])
    requires buffer { length buffer.old ≡ N }
    requires block { N ≤ length block.now }
    ensures { buffer.new ≡ take N block.now }
{
    Simd::<u8, N>::from_slice(block).copy_to_slice(buffer);
}

/// A buffer into which text is put at a position, which the caller keeps: so it stays in a register. What is after it counts
/// for nothing, so a short word is moved as a whole block. Each function returns where the text ends.
#[derive(Drop)]
pub(crate) struct Page<const CAPACITY: usize> {
    pub(crate) bytes: [u8; CAPACITY],
    digits: DigitPairs,
}

impl<const CAPACITY: usize> Page<CAPACITY> {
    #[inline(always)]
    pub(crate) fn new() -> Self {
        Page {
            bytes: [0; CAPACITY],
            digits: DigitPairs::new(),
        }
    }

    /// Puts these bytes.
    #[inline(always)]
    pub(crate) fn put(&mut self, at: usize, bytes: &[u8]) -> usize
        requires { at + length bytes.now ≤ CAPACITY }
        ensures { Puts self.old.bytes self.new.bytes at result (length bytes.now) bytes.now }
    {
        let end = at + bytes.len();
        let text = &mut self.bytes[..];
        text[at..end].copy_from_slice(bytes);
        end
    }

    /// Puts the first bytes of a block of N.
    #[inline(always)]
    fn put_block<const N: usize>(&mut self, at: usize, block: &[u8], len: usize) -> usize
        requires few { len ≤ N }
        requires whole { N ≤ length block.now }
        requires room { at + N ≤ CAPACITY }
        ensures { Puts self.old.bytes self.new.bytes at result len (take len block.now) }
    {
        let text = &mut self.bytes[..];
        move_block::<N>(&mut text[at..at + N], block);
        at + len
    }

    /// Puts the first bytes of a block of 16.
    #[inline(always)]
    pub(crate) fn put_front(&mut self, at: usize, block: &[u8; 16], len: usize) -> usize
        requires few { len ≤ 16 }
        requires room { at + 16 ≤ CAPACITY }
        ensures { Puts self.old.bytes self.new.bytes at result len (take len block.now) }
    {
        self.put_block::<16>(at, &block[..], len)
    }

    /// Puts two lower case hex digits for each byte.
    #[inline]
    pub(crate) fn put_digits(&mut self, at: usize, bytes: &[u8]) -> usize
        requires { at + 2 * length bytes.now ≤ CAPACITY }
        ensures { Puts self.old.bytes self.new.bytes at result (2 * length bytes.now) (encode_lower bytes.now) }
    {
        let end = at + 2 * bytes.len();
        let text = &mut self.bytes[..];
        self.digits.write(bytes, &mut text[at..end]);
        end
    }

    /// Puts a number in decimal and a blank.
    #[inline(always)]
    pub(crate) fn put_number(&mut self, at: usize, n: u32) -> usize
        requires { at + 21 ≤ CAPACITY }
        ensures { Puts self.old.bytes self.new.bytes at result 21 (blanked (decimal n ∷ [])) }
    {
        if n < 256 {
            self.put_small_number(at, n as u8)
        } else {
            self.put_large_number(at, u64::from(n))
        }
    }

    /// Puts a number below 256 in decimal and a blank.
    #[inline(always)]
    pub(crate) fn put_small_number(&mut self, at: usize, n: u8) -> usize
        requires { at + 4 ≤ CAPACITY }
        ensures { Puts self.old.bytes self.new.bytes at result 4 (blanked (decimal n ∷ [])) }
    {
        let from = 8 * n as usize;
        let numbers = small_numbers();
        let width = numbers[from + 4] as usize;
        self.put_block::<4>(at, &numbers[from..], width)
    }

    /// Puts the two digits of a number below 100, and a blank.
    // They are the last ones of a number from 100 to 199.
    #[inline(always)]
    fn put_two_digits(&mut self, at: usize, n: u8) -> usize
        requires few { n < 100 }
        requires room { at + 4 ≤ CAPACITY }
        ensures { Puts self.old.bytes self.new.bytes at result 3 ((48 + n / 10) ∷ (48 + n % 10) ∷ 32 ∷ []) }
    {
        let from = 8 * (100 + n) as usize + 1;
        self.put_block::<4>(at, &small_numbers()[from..], 3)
    }

    /// Puts the digits of a number below 256.
    #[inline(always)]
    fn put_small_digits(&mut self, at: usize, n: u8) -> usize
        requires { at + 4 ≤ CAPACITY }
        ensures { Puts self.old.bytes self.new.bytes at result 3 (decimal n) }
    {
        let from = 8 * n as usize;
        let numbers = small_numbers();
        let width = numbers[from + 4] as usize - 1;
        self.put_block::<4>(at, &numbers[from..], width)
    }

    /// Puts a number of three or four digits in decimal and a blank.
    #[inline(always)]
    fn put_short_number(&mut self, at: usize, n: u32) -> usize
        requires least { 100 ≤ n }
        requires most { n < 10_000 }
        requires room { at + 8 ≤ CAPACITY }
        ensures { Puts self.old.bytes self.new.bytes at result 6 (blanked (decimal n ∷ [])) }
    {
        let end = self.put_small_digits(at, (n / 100) as u8);
        self.put_two_digits(end, (n % 100) as u8)
    }

    /// Puts a number in decimal and a blank, however many digits it has.
    #[inline(never)]
    pub(crate) fn put_large_number(&mut self, at: usize, n: u64) -> usize
        requires { at + 21 ≤ CAPACITY }
        ensures { Puts self.old.bytes self.new.bytes at result 21 (blanked (decimal n ∷ [])) }
    {
        // Counts have mostly few digits: `itoa` makes those of a number apart, and they are copied.
        if n >= 100 && n < 10_000 {
            return self.put_short_number(at, n as u32);
        }
        let end = self.put(at, Buffer::new().format(n).as_bytes());
        self.put(end, b" ")
    }

    /// Puts bytes in hex, or a dash where there are none, and a blank.
    // No part of what puts a word and a small number or two, which so saves no registers.
    #[inline(never)]
    pub(crate) fn put_hex(&mut self, at: usize, bytes: &[u8]) -> usize
        requires few { length bytes.now ≤ 256 }
        requires room { at + 16 + 2 * length bytes.now ≤ CAPACITY }
        ensures { Puts self.old.bytes self.new.bytes at result (2 + 2 * length bytes.now) (blanked (hex bytes.now ∷ [])) }
    {
        if bytes.is_empty() {
            return self.put_front(at, b"-               ", 2);
        }
        let end = self.put_digits(at, bytes);
        self.put(end, b" ")
    }

    /// Ends a line at a position: its end takes the place of the blank after its last word.
    #[inline(always)]
    pub(crate) fn end_line(&mut self, end: usize)
        requires some { take end self.old.bytes ≢ [] }
        requires room { end ≤ CAPACITY }
        ensures line { take end self.new.bytes ≡ take (end - 1) self.old.bytes ++ 10 ∷ [] }
        ensures size { length (take end self.old.bytes) ≡ end }
    {
        self.bytes[end - 1] = b'\n';
    }
}
