//! The text of a folder's stamp, in room of a fixed size, so that it takes no memory.
ghost use Rattle.std.specs.Prelude.{◌≡◌, ◌≤◌, ◌+◌, ◌++◌, decimal, length};
ghost use Rattle.docroot_format.specs.Texts as text;
ghost use Rattle.docroot_format.specs.Texts.{longest_stat_text, most_digits_of_u64};

use arrayvec::ArrayString;
use cover_rules::Stamp;
use itoa::Buffer;

// Two words, two numbers of at most 20 digits, and what parts and ends them.
const LONGEST_STAT_TEXT: usize = 49;

/// The text of a .stat file.
pub type StatText = ArrayString<LONGEST_STAT_TEXT>;

fn push_number(text: &mut StatText, number: u64)
    requires { length text.old.bytes + most_digits_of_u64 ≤ longest_stat_text }
    ensures digits { text.new.bytes ≡ text.old.bytes ++ decimal number }
    ensures few { length text.new.bytes ≤ length text.old.bytes + most_digits_of_u64 }
{
    let mut digits = Buffer::new();
    text.push_str(digits.format(number));
}

/// The stamp of a folder.
pub fn stat_text(stamp: Stamp) -> StatText
    ensures { result.bytes ≡ text.stat_text stamp }
{
    let mut text = StatText::new();
    text.push_str("stat 1 ");
    push_number(&mut text, stamp.epoch);
    text.push_str(" ");
    push_number(&mut text, stamp.count);
    text.push_str("\n");
    text
}
