// A lent area with the place reached in it; numbers in decimal and words in hexadecimal, put there where it has room for them. Its methods serve the lines.
#![tactic(auto)]

ghost use Rattle.std.specs.Prelude.{◌≡◌, [], ◌∷◌, ◌+◌, ◌≤◌, ◌<◌, length};
ghost use Rattle.text.specs.Text.{decimal, hex_digit, field_text, word_text};
ghost use Rattle.text_digits.specs.Put.{Puts};

use itoa::write_digits;

// What stands before each number and each word.
const SPACE: u8 = b' ';

// A lent area, and the place behind the text so far. The place goes on beyond an area that is too short, so no bound on it holds of every value:
// the functions that tell a line ask for one.
#[derive(Drop)]
pub struct Area<'a> {
    pub out: &'a mut [u8],
    pub at: usize,
}

impl<'a> Area<'a> {
    // One byte. Here and in `put_field` the place is read before a byte is put: for all that the compiler knows, the byte could lie on it.
    pub fn put_byte(&mut self, b: u8)
        requires { self.old.at + 1 ≤ length self.old.out.now }
        ensures { Puts self.old (b ∷ []) self.new }
    {
        let at = self.at;
        self.out[at] = b;
        self.at = at + 1;
    }

    // A space and a number.
    #[inline(always)]
    pub fn put_field(&mut self, v: u64)
        requires { self.old.at + length (field_text v) ≤ length self.old.out.now }
        ensures { Puts self.old (field_text v) self.new }
    {
        let end = self.at + 1 + decimal_length(v);
        self.put_byte(SPACE);
        write_digits(v, self.out, end);
        self.at = end;
    }

    // A space and a word: its four digits, zeros included. A loop over their places would be no shorter.
    pub fn put_word(&mut self, v: u16)
        requires { self.old.at + 5 ≤ length self.old.out.now }
        ensures { Puts self.old (word_text v) self.new }
    {
        self.put_byte(SPACE);
        self.put_byte(hex_digit(v / 4096));
        self.put_byte(hex_digit(v / 256 % 16));
        self.put_byte(hex_digit(v / 16 % 16));
        self.put_byte(hex_digit(v % 16));
    }
}

// How many digits a number has.
#[inline(always)]
pub fn decimal_length(v: u64) -> usize
    ensures { result ≡ length (decimal v) }
{
    match v {
        0..=9 => 1,
        10..=99 => 2,
        100..=999 => 3,
        1_000..=9_999 => 4,
        _ => v.ilog10() as usize + 1,
    }
}

// The byte of a hexadecimal digit. `char::from_digit` would give an Option of a char, to be unwrapped and cast.
fn hex_digit(d: u16) -> u8
    requires { d < 16 }
    ensures { result ≡ hex_digit d }
{
    if d < 10 { 48 + d as u8 } else { 87 + d as u8 }
}
