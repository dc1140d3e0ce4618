// The trace program: reads an image from standard input and prints its text.
#![tactic(auto)]

use input::read_full;
use run::{IMAGE_MOST, TEXT_MOST};
use std::process::ExitCode;

// One byte more than the largest image is enough to know that an image is too long.
const AREA: usize = IMAGE_MOST + 1;

// Prints the text of the image from standard input, or tells what went wrong. Both lie on the stack, as README promises.
fn tell(rt: &HostRuntime) -> Result<(), &'static str> {
    let mut image = [0u8; AREA];
    let Ok(got) = read_full(&mut rt.stdin(), &mut image) else {
        return Err("cannot read standard input");
    };
    let mut answer = [0u8; TEXT_MOST];
    let Ok(length) = run::tell(&image[..got], &mut answer) else {
        return Err("the text does not fit its area");
    };
    rt.write_all(&answer[..length])
        .map_err(|_| "cannot write to standard output")
}

fn main(rt: HostRuntime) -> ExitCode {
    if let Err(words) = tell(&rt) {
        let _ = eprintln!(&rt; "trace: {words}");
        return ExitCode::FAILURE;
    }
    ExitCode::SUCCESS
}
