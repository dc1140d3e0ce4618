// The answers of the three calls, each with the scheduler from there on. A refused call answers with its refusal.
#![tactic(auto)]

use refusals::Refusal;
use room::Packet;
use scheduler_state::Scheduler;
use units::{Instant, Ticks};

// What a call answers, and the scheduler from there on.
#[derive(Clone, Copy)]
pub struct Answered<A> {
    pub answer: Result<A, Refusal>,
    pub scheduler: Scheduler,
}

pub type Opened = Answered<()>;

pub type Arrived = Answered<Admitted>;

// Where nothing was due there is no start.
pub type Advanced = Answered<Option<Start>>;

// An admission: the packet's number and, if it is unmarked, its extra delay.
#[derive(Clone, Copy)]
pub enum Admitted {
    Unmarked { number: u32, extra: Ticks },
    Marked { number: u32 },
}

// A start: the packet's number, the instant, its extra delay then (0 if marked), how many packets were dropped, and the packet.
#[derive(Clone, Copy)]
pub struct Start {
    pub number: u32,
    pub at: Instant,
    pub extra: Ticks,
    pub dropped: u32,
    pub packet: Packet,
}
