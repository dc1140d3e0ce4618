// Input that is read into a lent area, for the programs that take an image.
#![tactic(auto)]

ghost use Rattle.std.specs.Prelude.{◌≤◌, ◌<◌, length, take, IfOk};
ghost use Rattle.std.specs.Io.KnownBytes.{Consumes, IsAtEnd};

use std::io;
use std::io::Read;

// Reads until the area is full or the input ends, and returns how many bytes stand at the area's start. No method of `Read` does: `read_exact`
// fails where the input ends first, and `read_to_end` puts the bytes on the heap. How many reads it takes is not known before.
pub fn read_full<R: Read>(input: &mut R, area: &mut [u8]) -> io::Result<usize>
    ensures bound { IfOk result (λ n. n ≤ length area.new) }
    ensures bytes { IfOk result (λ n. Consumes (R.remaining input.old) (R.remaining input.new) (take n area.new)) }
    ensures end { IfOk result (λ n. n < length area.new → IsAtEnd (R.remaining input.new)) }
{
    let mut got = 0;
    while got < area.len() {
        match input.read(&mut area[got..])? {
            0 => break,
            n => got += n,
        }
    }
    Ok(got)
}
