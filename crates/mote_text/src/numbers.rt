//! Numbers as words of a line.
#![tactic(auto, unfolding(crate::specs::Code::EntryLines::blanked))]

ghost use Rattle.std.specs.Prelude.{◌≡◌, ◌≤◌, ◌+◌, ◌++◌, codes, decimal, length};
ghost use Rattle.mote_text.specs.Code.Appending.{HasRoom};

use crate::output_buffer::OutputBuffer;

/// Appends a number in decimal, and a blank.
#[inline(always)]
pub fn push_number_word(n: u32, line: &mut OutputBuffer)
    requires { HasRoom line.old 21 }
    ensures text { line.new.items ≡ line.old.items ++ (decimal n ++ codes " ") }
    ensures length { length line.new.items ≤ length line.old.items + 21 }
{
    line.len = line.page.put_number(line.len, n);
}
