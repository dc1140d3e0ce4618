// An admission: a packet that no test refuses is put into the room, counted and answered. The functions serve the crate `scheduler` only.
#![tactic(auto)]

ghost use Rattle.std.specs.Prelude.{◌≡◌, ◌≤◌, ◌<◌};
ghost use Rattle.units.specs.Limits.{admissions_most};
ghost use Rattle.units.specs.declared.Marking.TheVariants.{Unmarked};
ghost use Rattle.scheduler_state.specs.Counts.{waiting_of};
ghost use Rattle.scheduler_state.specs.Bounds.{times_most, Small};
ghost use Rattle.scheduler_admission.specs.Admitted.{joined_of, admitted_unmarked, admitted_marked};
ghost use Rattle.scheduler_admission.specs.Admit.{admit_unmarked, admit_marked, admit_of, admit_entry, admit_room};
ghost use Rattle.scheduler_admission.specs.Bounds.{Admits};

use room::{Packet, Room};
use scheduler_answers::{Admitted, Arrived};
use scheduler_state::{Extra, Scheduler};
use units::{Instant, Marking, Ticks};

// One more unmarked packet waits.
fn joined(scheduler: Scheduler, time: Ticks, own: Ticks) -> Extra
    requires { Small scheduler × (time.0 ≤ times_most) }
    ensures { result ≡ joined_of scheduler.extra (waiting_of Unmarked scheduler.tallies) time own }
{
    let mut extra = scheduler.extra;
    extra.sum = Ticks(extra.sum.0 + time.0);
    if scheduler.tallies.waiting(Marking::Unmarked) == 0 {
        extra.first = own;
    }
    extra.last = own;
    extra
}

// A marked packet is admitted at this instant. Here and below a pair by marking stays two functions: what they count, delay and promise differs.
pub fn admitted_marked(scheduler: Scheduler, at: Instant) -> Scheduler
    requires { scheduler.tallies.admitted.marked < admissions_most }
    ensures { result ≡ admitted_marked scheduler at }
{
    let mut next = scheduler;
    next.tallies.admitted.marked += 1;
    next.clock = at;
    next
}

// An unmarked packet is admitted, with its transmission time and its own extra delay.
pub fn admitted_unmarked(scheduler: Scheduler, time: Ticks, own: Ticks, at: Instant) -> Scheduler
    requires { Small scheduler × (scheduler.tallies.admitted.unmarked < admissions_most) × (time.0 ≤ times_most) }
    ensures { result ≡ admitted_unmarked scheduler time own at }
{
    let mut next = scheduler;
    next.tallies.admitted.unmarked += 1;
    next.extra = joined(scheduler, time, own);
    next.clock = at;
    next
}

// An unmarked packet is admitted: it is entered in the difference queue. `Admits`, asked here and below, is of a scheduler and a packet together, which no
// struct holds.
fn admit_unmarked(scheduler: Scheduler, packet: Packet, room: &mut Room) -> Arrived
    requires { Admits scheduler packet }
    ensures value { result ≡ admit_unmarked scheduler packet }
    ensures left { room.new ≡ admit_entry scheduler room.old packet }
{
    let number = scheduler.tallies.admissions() + 1;
    let waiting = scheduler.tallies.waiting(Marking::Unmarked);
    let own = scheduler.own_delay(waiting, packet.arrival);
    let less = scheduler.difference(own);
    room.enter(scheduler.tallies.admitted.unmarked, number, less);
    let time = units::transmission_time(scheduler.settings, packet.length);
    Arrived {
        answer: Ok(Admitted::Unmarked { number, extra: own }),
        scheduler: admitted_unmarked(scheduler, time, own, packet.arrival),
    }
}

// A marked packet is admitted.
fn admit_marked(scheduler: Scheduler, packet: Packet) -> Arrived
    requires { Admits scheduler packet }
    ensures { result ≡ admit_marked scheduler packet }
{
    let number = scheduler.tallies.admissions() + 1;
    Arrived {
        answer: Ok(Admitted::Marked { number }),
        scheduler: admitted_marked(scheduler, packet.arrival),
    }
}

// Puts a packet that no test refuses into the room.
pub fn admit(scheduler: Scheduler, packet: Packet, room: &mut Room) -> Arrived
    requires { Admits scheduler packet }
    ensures value { result ≡ admit_of scheduler packet }
    ensures left { room.new ≡ admit_room scheduler room.old packet }
{
    let rank = scheduler.tallies.admissions();
    room.put(packet, rank);
    match packet.marking {
        Marking::Unmarked => admit_unmarked(scheduler, packet, room),
        Marking::Marked => admit_marked(scheduler, packet),
    }
}
