// The scheduler for one line: `open`, `arrive`, `advance`, over a scheduler by value and a waiting room that the caller lends. It passes on the types of
// its answers and of the room. The two are no one struct: the caller lends the room, and `FromOpening`, which every call asks of both, is document 01's
// premise and the theorems'.
#![tactic(auto)]

ghost use Rattle.scheduler.specs.Machine.{FromOpening};
ghost use Rattle.scheduler.specs.Promises.{Opens, Arrives, Advances};

pub use refusals::Refusal;
pub use room::{Packet, Room};
pub use scheduler_answers::{Admitted, Advanced, Arrived, Opened, Start};
use scheduler_state::Scheduler;
use units::{Instant, Settings, Ticks};

// A scheduler for these settings; where they are refused, one with every setting at its least.
pub fn open(settings: Settings) -> Opened
    ensures { Opens settings result }
{
    let answer = units::judge_settings(settings);
    let in_force = match answer {
        Ok(()) => settings,
        Err(_) => Settings {
            alpha: Ticks(1),
            ticks_per_byte: 1,
        },
    };
    Opened {
        answer,
        scheduler: Scheduler::fresh(in_force),
    }
}

// A packet arrives: it is put into the room, or refused.
pub fn arrive(scheduler: Scheduler, packet: Packet, room: &mut Room) -> Arrived
    requires { FromOpening scheduler room.old }
    ensures { Arrives scheduler room.old packet result room.new }
{
    let rank = scheduler.tallies.gone();
    let head = room.packet_at(rank);
    let judged = scheduler_refusals::judge_arrival(
        scheduler,
        head.arrival,
        packet.marking,
        packet.length,
        packet.arrival,
    );
    if let Err(refusal) = judged {
        return Arrived {
            answer: Err(refusal),
            scheduler,
        };
    }
    scheduler_admission::admit(scheduler, packet, room)
}

// The clock moves on to `at`, and one decision is taken if one is due by then.
pub fn advance(scheduler: Scheduler, at: Instant, room: &Room) -> Advanced
    requires { FromOpening scheduler room.now }
    ensures { Advances scheduler room.now at result }
{
    if let Err(refusal) = scheduler_refusals::judge_advance(scheduler.clock, at) {
        return Advanced {
            answer: Err(refusal),
            scheduler,
        };
    }
    if !scheduler.tallies.waits() {
        return Advanced {
            answer: Ok(None),
            scheduler: scheduler.idle(at),
        };
    }
    let rank = scheduler.tallies.gone();
    let head = room.packet_at(rank);
    let due = scheduler_refusals::due(scheduler.line, head.arrival);
    if at < due {
        return Advanced {
            answer: Ok(None),
            scheduler: scheduler.idle(at),
        };
    }
    scheduler_decision::decide(scheduler, head, due, at, room)
}
