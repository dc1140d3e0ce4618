// Runs the marker's cases on both sides of each line through its two calls, and prints each answer: O and the number of an opening, U unmarked,
// M marked, R and the number of a refusal.
#![tactic(auto)]

use marker::{Flow, Flows};
use refusals::Refusal;
use std::{fmt, io};
use units::{Bytes, INSTANT_MOST, Instant, Marking};

// The answer to a packet, as it is printed.
#[derive(Clone, Copy)]
struct Answer(Result<Marking, Refusal>);

impl fmt::Display for Answer {
    fn fmt<W: fmt::Write>(&self, f: &mut fmt::Formatter<W>) -> fmt::Result {
        match self.0 {
            Ok(Marking::Unmarked) => write!(f, "U"),
            Ok(Marking::Marked) => write!(f, "M"),
            Err(refusal) => write!(f, "R {}", u8::from(refusal)),
        }
    }
}

// A packet: its flow, its length and its instant.
type Packet = (u32, Bytes, Instant);

fn flow(rate: u32, depth: u32) -> Flow {
    Flow { rate, depth }
}

// So many of these two flows, the second as often as it takes.
fn flows(count: u32, first: Flow, second: Flow) -> Flows {
    Flows {
        count,
        each: [
            first, second, second, second, second, second, second, second,
        ],
    }
}

// These packets on a marker with these flows.
fn play(rt: &impl Print, asked: Flows, packets: &[Packet]) -> io::Result<()> {
    let mut marker = marker::empty();
    match marker::open(asked, &mut marker) {
        Ok(()) => println!(rt; "O 0")?,
        Err(refusal) => println!(rt; "O {}", u8::from(refusal))?,
    }
    for (flow, length, at) in packets {
        let answer = marker::mark(*flow, *length, *at, &mut marker);
        println!(rt; "{}", Answer(answer))?;
    }
    Ok(())
}

// All of flow 0, then a byte: before any flowed in, a millionth short of a byte, and at just a byte.
const EXACT: [Packet; 5] = [
    (0, Bytes(100), Instant(0)),
    (0, Bytes(1), Instant(1)),
    (0, Bytes(1), Instant(2)),
    (0, Bytes(1), Instant(999_999)),
    (0, Bytes(1), Instant(1_000_000)),
];

// The longest packet, again after the longest span, and a byte more.
const SPAN: [Packet; 3] = [
    (0, Bytes(2_048), Instant(0)),
    (0, Bytes(2_048), Instant(INSTANT_MOST)),
    (0, Bytes(1), Instant(INSTANT_MOST)),
];

// Longer than the depth of 1, at it, and once more.
const DEPTH: [Packet; 3] = [
    (0, Bytes(2), Instant(0)),
    (0, Bytes(1), Instant(0)),
    (0, Bytes(1), Instant(0)),
];

// A packet at 10; 51 though the length and the instant are wrong too; 1 though the instant is; 1 though it is before the clock; 2; 3; and the
// whole depth of flow 0, which none of them took from.
const REFUSED: [Packet; 7] = [
    (1, Bytes(1), Instant(10)),
    (2, Bytes(0), Instant(INSTANT_MOST + 1)),
    (0, Bytes(0), Instant(INSTANT_MOST + 1)),
    (0, Bytes(2_049), Instant(9)),
    (0, Bytes(100), Instant(INSTANT_MOST + 1)),
    (0, Bytes(100), Instant(9)),
    (0, Bytes(100), Instant(10)),
];

// What a refused opening opens: one flow with rate 1 and depth 1; with eight of the most all go through.
const LEAST: [Packet; 4] = [
    (0, Bytes(1), Instant(0)),
    (0, Bytes(1), Instant(999_999)),
    (0, Bytes(1), Instant(1_000_000)),
    (1, Bytes(1), Instant(1_000_000)),
];

fn play_limits(rt: &impl Print) -> io::Result<()> {
    let slow = flow(1, 100);
    let most = flow(10_000_000, 65_535);
    play(rt, flows(8, most, most), &LEAST)?;
    play(rt, flows(0, slow, slow), &LEAST)?;
    play(rt, flows(9, flow(0, 0), flow(0, 0)), &LEAST)?;
    play(rt, flows(2, flow(1, 0), flow(0, 1)), &LEAST)?;
    play(rt, flows(1, flow(10_000_001, 1), slow), &LEAST)?;
    play(rt, flows(2, slow, flow(1, 0)), &LEAST)?;
    play(rt, flows(1, flow(1, 65_536), slow), &LEAST)
}

fn main(rt: HostRuntime) -> io::Result<()> {
    let slow = flow(1, 100);
    play(&rt, flows(1, slow, slow), &EXACT)?;
    let slowest = flow(1, 2_048);
    play(&rt, flows(1, slowest, slowest), &SPAN)?;
    let fastest = flow(10_000_000, 2_048);
    play(&rt, flows(1, fastest, fastest), &SPAN)?;
    let least = flow(1, 1);
    play(&rt, flows(1, least, least), &DEPTH)?;
    play(&rt, flows(2, slow, slow), &REFUSED)?;
    play_limits(&rt)
}
