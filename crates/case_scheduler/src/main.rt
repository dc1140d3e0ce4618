// Runs document 01's printed case, the 65th waiting packet of each marking and the last instant through the three calls, and prints each answer
// as the trace program does.
#![tactic(auto)]

ghost use Rattle.std.specs.Prelude.{◌≡◌};
ghost use Rattle.scheduler.specs.Machine.{FromOpening};

use Call::{Advance, Marked, Unmarked};
use room::{Packet, Room};
use scheduler_state::Scheduler;
use std::io;
use text_digits::Area;
use units::{Bytes, INSTANT_MOST, Instant, Marking, Settings, Ticks};

// No line is longer.
const LINE_MOST: usize = 107;

// An arrival of so many bytes at an instant, or an advance to one.
#[derive(Clone, Copy)]
enum Call {
    Unmarked(u32, u64),
    Marked(u32, u64),
    Advance(u64),
}

// Prints a line that was told to an area; one that did not fit is left out.
fn print(rt: &impl Print, line: &Area) -> io::Result<()> {
    match line.out.get(..line.at) {
        Some(told) => rt.write_all(told),
        None => Ok(()),
    }
}

// A scheduler and the room that its packets wait in.
#[derive(Drop)]
struct Line {
    scheduler: Scheduler,
    room: Room,
}

impl Line {
    fn arrive(&mut self, marking: Marking, length: u32, at: u64, line: &mut Area)
        requires { FromOpening self.old.scheduler self.old.room × (line.old.at ≡ 0) }
        ensures { FromOpening self.new.scheduler self.new.room }
    {
        let packet = Packet {
            marking,
            length: Bytes(length),
            place: 0,
            arrival: Instant(at),
        };
        let arrived = scheduler::arrive(self.scheduler, packet, &mut self.room);
        self.scheduler = arrived.scheduler;
        text_answers::tell_admission(line, arrived.answer);
    }

    fn advance(&mut self, at: u64, line: &mut Area)
        requires { FromOpening self.old.scheduler self.old.room × (line.old.at ≡ 0) }
        ensures { FromOpening self.new.scheduler self.new.room }
    {
        let advanced = scheduler::advance(self.scheduler, Instant(at), &self.room);
        self.scheduler = advanced.scheduler;
        text_answers::tell_advance(line, advanced.answer);
    }

    // One call, and its line.
    fn call(&mut self, rt: &impl Print, call: Call) -> io::Result<()>
        requires { FromOpening self.old.scheduler self.old.room }
        ensures { FromOpening self.new.scheduler self.new.room }
    {
        let mut bytes = [0u8; LINE_MOST];
        let mut line = Area {
            out: &mut bytes,
            at: 0,
        };
        match call {
            Unmarked(length, at) => self.arrive(Marking::Unmarked, length, at, &mut line),
            Marked(length, at) => self.arrive(Marking::Marked, length, at, &mut line),
            Advance(at) => self.advance(at, &mut line),
        }
        print(rt, &line)
    }
}

// The first calls and the others on a fresh scheduler, alpha 100 and 1 tick per byte; and the tally line.
fn play(rt: &impl Print, first: &[Call], others: &[Call]) -> io::Result<()> {
    let settings = Settings {
        alpha: Ticks(100),
        ticks_per_byte: 1,
    };
    let mut played = Line {
        scheduler: scheduler::open(settings).scheduler,
        room: room::empty(),
    };
    for call in first.iter().chain(others) {
        played.call(rt, *call)?;
    }
    let mut bytes = [0u8; LINE_MOST];
    let mut line = Area {
        out: &mut bytes,
        at: 0,
    };
    text_answers::tell_tallies(&mut line, played.scheduler.tallies);
    print(rt, &line)
}

// u50@0, m60@0, u40@0, a0, a50, m45@60, u30@70, u10@125, a110, a150, m101@160, u20@160, a170, m30@165.
const CASE: [Call; 14] = [
    Unmarked(50, 0),
    Marked(60, 0),
    Unmarked(40, 0),
    Advance(0),
    Advance(50),
    Marked(45, 60),
    Unmarked(30, 70),
    Unmarked(10, 125),
    Advance(110),
    Advance(150),
    Marked(101, 160),
    Unmarked(20, 160),
    Advance(170),
    Marked(30, 165),
];

// The latest instant, and one tick later.
const LATE: [Call; 4] = [
    Unmarked(1, INSTANT_MOST),
    Marked(1, INSTANT_MOST + 1),
    Advance(INSTANT_MOST + 1),
    Advance(INSTANT_MOST),
];

// 65 arrivals of each marking, a start, one arrival more.
fn main(rt: HostRuntime) -> io::Result<()> {
    play(&rt, &[], &CASE)?;
    play(&rt, &[Unmarked(1, 0); 65], &[Advance(0), Unmarked(1, 0)])?;
    play(&rt, &[Marked(1, 0); 65], &[Advance(0), Marked(1, 0)])?;
    play(&rt, &[], &LATE)
}
