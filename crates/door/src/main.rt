// How a Rattle host uses the marker: it opens one, lends it words, and asks about each packet of a camera burst.
#![tactic(auto)]

use marker::{Flow, Flows};
use refusals::Refusal;
use std::io;
use units::{Bytes, Instant, Marking};

// Says how a packet goes on to the scheduler. One place prints it: a type around the Result for a Display would be longer.
fn tell(rt: &impl Print, answer: Result<Marking, Refusal>) -> io::Result<()> {
    match answer {
        Ok(Marking::Unmarked) => println!(rt; "unmarked"),
        Ok(Marking::Marked) => println!(rt; "marked"),
        Err(refusal) => println!(rt; "refused with {}", u8::from(refusal)),
    }
}

fn main(rt: HostRuntime) -> io::Result<()> {
    // A tenth of a byte each tick, and 60 bytes at most.
    let camera = Flow {
        rate: 100_000,
        depth: 60,
    };
    let asked = Flows {
        count: 1,
        each: [camera; 8],
    };
    let mut marker = marker::empty();
    let opened = marker::open(asked, &mut marker);
    let Ok(()) = opened else {
        return Ok(());
    };
    // 40 of 60 bytes are taken; 39.9 are there at 199, and 40 at 200.
    tell(&rt, marker::mark(0, Bytes(40), Instant(0), &mut marker))?;
    tell(&rt, marker::mark(0, Bytes(40), Instant(199), &mut marker))?;
    tell(&rt, marker::mark(0, Bytes(40), Instant(200), &mut marker))
}
