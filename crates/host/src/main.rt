// How a Rattle host uses the scheduler: it opens one, lends it a waiting room, hands in a packet and asks what to send.
#![tactic(auto)]

use refusals::Refusal;
use scheduler::{Packet, Start};
use std::io;
use units::{Bytes, Instant, Marking, Settings, Ticks};

// Says which packet goes onto the line.
fn send(rt: &impl Print, answer: Result<Option<Start>, Refusal>) -> io::Result<()> {
    let Ok(Some(start)) = answer else {
        return Ok(());
    };
    println!(rt; "packet {} starts at {}", start.number, start.at.0)
}

fn main(rt: HostRuntime) -> io::Result<()> {
    let settings = Settings {
        alpha: Ticks(100),
        ticks_per_byte: 1,
    };
    let mut room = room::empty();
    let opened = scheduler::open(settings);
    let packet = Packet {
        marking: Marking::Unmarked,
        length: Bytes(50),
        place: 0,
        arrival: Instant(7),
    };
    let arrived = scheduler::arrive(opened.scheduler, packet, &mut room);
    let advanced = scheduler::advance(arrived.scheduler, Instant(9), &room);
    send(&rt, advanced.answer)
}
