// Lines of a letter, numbers and words, told to a lent area; pub functions serve the crates above.
#![tactic(auto)]

ghost use Rattle.std.specs.Prelude.{[], ◌∷◌, ◌^◌, ◌<◌, length};
ghost use Rattle.text.specs.Text.{field_text, word_text, line_text, worded_text};
ghost use Rattle.text_lines.specs.Told.{Tells};

use text_digits::{Area, decimal_length};

// A space and a number take at most so many bytes.
const FIELD_MOST: usize = 21;

// A space and a word take so many.
const WORD_BYTES: usize = 5;

// Tells a byte: puts it at the area's place where the area reaches so far, and goes on to the place behind it in any case. So do the functions below.
fn tell_byte(area: &mut Area, b: u8)
    requires { area.old.at < 2 ^ 62 }
    ensures { Tells area.old (b ∷ []) area.new }
{
    if area.at < area.out.len() {
        area.put_byte(b);
    } else {
        area.at += 1;
    }
}

// A space and any number. Its length is only worked out near the end of the area. It stays a call, so that a line is short.
#[inline(never)]
fn tell_any(area: &mut Area, v: u64)
    requires { area.old.at < 2 ^ 62 }
    ensures { Tells area.old (field_text v) area.new }
{
    if area.out.len() < area.at + FIELD_MOST {
        let behind = area.at + 1 + decimal_length(v);
        if area.out.len() < behind {
            area.at = behind;
            return;
        }
    }
    area.put_field(v);
}

// A space and a number, which is mostly short and far from the end: this much the compiler puts into each line, so that a line foresees its own lengths.
#[inline(always)]
fn tell_field(area: &mut Area, v: u64)
    requires { area.old.at < 2 ^ 62 }
    ensures { Tells area.old (field_text v) area.new }
{
    if area.out.len() < area.at + FIELD_MOST || 10_000 <= v {
        return tell_any(area, v);
    }
    area.put_field(v);
}

// A space and a word.
fn tell_word(area: &mut Area, v: u16)
    requires { area.old.at < 2 ^ 62 }
    ensures { Tells area.old (word_text v) area.new }
{
    if area.out.len() < area.at + WORD_BYTES {
        area.at += WORD_BYTES;
    } else {
        area.put_word(v);
    }
}

// A line of a letter, numbers and words behind them: put into each caller, where the compiler unrolls it over the caller's numbers.
#[inline(always)]
pub fn tell_worded(area: &mut Area, letter: u8, numbers: &[u64], words: &[u16])
    requires { (area.old.at < 2 ^ 32) × (length numbers.now < 2 ^ 32) × (length words.now < 2 ^ 32) }
    ensures { Tells area.old (worded_text letter numbers.now words.now) area.new }
{
    tell_byte(area, letter);
    for v in numbers {
        tell_field(area, *v);
    }
    for w in words {
        tell_word(area, *w);
    }
    tell_byte(area, b'\n');
}

// A line of a letter and numbers, which is put into each caller too.
#[inline(always)]
pub fn tell_line(area: &mut Area, letter: u8, numbers: &[u64])
    requires { (area.old.at < 2 ^ 32) × (length numbers.now < 2 ^ 32) }
    ensures { Tells area.old (line_text letter numbers.now) area.new }
{
    tell_worded(area, letter, numbers, &[])
}
