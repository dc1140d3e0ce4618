// Runs each trace file that its arguments name, and prints the name and the text: document 01's cases and refused images.
#![tactic(auto)]

use input::read_full;
use run::{IMAGE_MOST, TEXT_MOST};
use std::env::{Env, FillError};
use std::rt::Files;
use std::{fs, io};

// One byte more than the largest image is enough to know that an image is too long.
const AREA: usize = IMAGE_MOST + 1;

// Prints the text of an image, and nothing if the area were too short for it.
fn tell(rt: &impl Print, image: &[u8]) -> io::Result<()> {
    let mut answer = [0u8; TEXT_MOST];
    match run::tell(image, &mut answer) {
        Ok(length) => rt.write_all(&answer[..length]),
        Err(_) => Ok(()),
    }
}

fn tell_file(rt: &(impl Files + Print + Eprint), path: &str) -> io::Result<()> {
    println!(rt; "{path}")?;
    let mut file = match fs::open(rt, path) {
        Ok(file) => file,
        Err(e) => return eprintln!(rt; "{path}: {e}"),
    };
    // On the stack, as in the trace program.
    let mut image = [0u8; AREA];
    let got = read_full(&mut file, &mut image)?;
    tell(rt, &image[..got])
}

// A name that is no UTF-8 is printed and then passed over, since std opens no such file.
fn tell_argument(rt: &(impl Files + Print + Eprint), argument: &[u8]) -> io::Result<()> {
    match str::from_utf8(argument) {
        Ok(path) => tell_file(rt, path),
        Err(_) => {
            rt.write_all(argument)?;
            println!(rt; "")?;
            eprintln!(rt; "case_run: the name of a file is no UTF-8")
        }
    }
}

fn main(rt: HostRuntime) -> io::Result<()> {
    // No Strings, as `args` would give: a name that is longer than this stands for an empty one, which opens no file.
    // std's `arg` fills a lent area, and tells how much of it.
    let mut argument = [0u8; 64];
    for i in 1..usize::MAX {
        match rt.arg(i, &mut argument) {
            Ok(length) => tell_argument(&rt, &argument[..length])?,
            Err(FillError::NotPresent) => break,
            Err(FillError::TooLong) => tell_file(&rt, "")?,
        }
    }
    Ok(())
}
