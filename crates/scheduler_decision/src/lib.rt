// The decision that is due: which packet starts, how many are dropped, and what that makes of the scheduler's numbers. The functions serve the
// crate `scheduler` only.
#![tactic(auto)]

ghost use Rattle.std.specs.Prelude.{◌≡◌, ◌+◌, ◌≤◌, ◌<◌};
ghost use Rattle.units.specs.Limits.{instant_most, admissions_most};
ghost use Rattle.units.specs.declared.Marking.TheVariants.{Unmarked};
ghost use Rattle.scheduler_state.specs.Counts.{waiting_of, Counted};
ghost use Rattle.scheduler_state.specs.Bounds.{times_most, Small};
ghost use Rattle.scheduler_answers.specs.Packets.{time_of};
ghost use Rattle.scheduler_decision.specs.Started.{delayed_of, passed_of, started_marked, started_unmarked};
ghost use Rattle.scheduler_decision.specs.Decide.{sent_of, start_head, start_first, decide_of};
ghost use Rattle.scheduler_decision.specs.Bounds.{HeadStarts, FirstStarts, Decides};

use room::{Packet, Room};
use scheduler_answers::{Advanced, Start};
use scheduler_state::{Extra, Line, Scheduler};
use units::{Instant, Marking, Ticks};

// A marked packet started: every waiting unmarked packet is that much later.
fn delayed(scheduler: Scheduler, time: Ticks) -> Extra
    requires { Small scheduler × (time.0 ≤ times_most) }
    ensures { result ≡ delayed_of scheduler.extra (waiting_of Unmarked scheduler.tallies) time }
{
    let mut extra = scheduler.extra;
    if scheduler.tallies.waiting(Marking::Unmarked) != 0 {
        extra.first = Ticks(extra.first.0 + time.0);
        extra.last = Ticks(extra.last.0 + time.0);
    }
    extra
}

// The first of the waiting unmarked packets started.
fn passed(scheduler: Scheduler, time: Ticks, difference: Ticks) -> Extra
    requires { Counted scheduler.tallies }
    ensures { result ≡ passed_of scheduler.extra (waiting_of Unmarked scheduler.tallies) time difference }
{
    let mut extra = scheduler.extra;
    extra.sum = Ticks(extra.sum.0.saturating_sub(time.0));
    if 1 < scheduler.tallies.waiting(Marking::Unmarked) {
        extra.first = Ticks(extra.first.0.saturating_sub(difference.0));
    }
    extra
}

// A marked packet starts at the due instant; the clock is at `at`. Here and below a pair by marking stays two functions: what they count, delay and
// promise differs. And `due` and `at` stay two arguments: a struct of both would be taken apart where each is used, once.
pub fn started_marked(scheduler: Scheduler, due: Instant, time: Ticks, at: Instant) -> Scheduler
    requires { Small scheduler × (scheduler.tallies.started.marked < admissions_most) × (due.0 ≤ instant_most) × (time.0 ≤ times_most) }
    ensures { result ≡ started_marked scheduler due time at }
{
    let mut next = scheduler;
    next.tallies.started.marked += 1;
    next.line = Line {
        free: Instant(due.0 + time.0),
        last: Marking::Marked,
    };
    next.extra = delayed(scheduler, time);
    next.clock = at;
    next
}

// The first waiting unmarked packet starts at the due instant, with so many dropped ahead of it; the clock is at `at`.
pub fn started_unmarked(
    scheduler: Scheduler,
    due: Instant,
    time: Ticks,
    difference: Ticks,
    dropped: u32,
    at: Instant,
) -> Scheduler
    requires { Small scheduler × (scheduler.tallies.started.unmarked < admissions_most) × (scheduler.tallies.dropped + dropped ≤ admissions_most) × (due.0 ≤ instant_most) × (time.0 ≤ times_most) }
    ensures { result ≡ started_unmarked scheduler due time difference dropped at }
{
    let mut next = scheduler;
    next.tallies.started.unmarked += 1;
    next.tallies.dropped += dropped;
    next.line = Line {
        free: Instant(due.0 + time.0),
        last: Marking::Unmarked,
    };
    next.extra = passed(scheduler, time, difference);
    next.clock = at;
    next
}

// Whether the packet at the head is marked and fits.
fn sent(scheduler: Scheduler, head: Packet) -> bool
    requires { Small scheduler × ((time_of scheduler head).0 ≤ times_most) }
    ensures { result ≡ sent_of scheduler head }
{
    let waiting = scheduler.tallies.waiting(Marking::Unmarked);
    let time = units::transmission_time(scheduler.settings, head.length);
    head.marking == Marking::Marked && scheduler.fits(waiting, time)
}

// The marked packet at the head starts.
fn start_head(scheduler: Scheduler, head: Packet, due: Instant, at: Instant) -> Advanced
    requires { HeadStarts scheduler head due }
    ensures { result ≡ start_head scheduler head due at }
{
    let number = scheduler.tallies.gone() + 1;
    let time = units::transmission_time(scheduler.settings, head.length);
    let start = Start {
        number,
        at: due,
        extra: Ticks(0),
        dropped: 0,
        packet: head,
    };
    Advanced {
        answer: Ok(Some(start)),
        scheduler: started_marked(scheduler, due, time, at),
    }
}

// The first waiting unmarked packet starts, and those ahead of it are dropped: its number tells how many, so none of them is visited.
fn start_first(scheduler: Scheduler, due: Instant, at: Instant, room: &Room) -> Advanced
    requires { FirstStarts scheduler room.now due }
    ensures { result ≡ start_first scheduler room.now due at }
{
    let turn = scheduler.tallies.started.unmarked;
    let number = room.number_of(turn);
    let packet = room.packet_at(number - 1);
    let dropped = number - 1 - scheduler.tallies.gone();
    let time = units::transmission_time(scheduler.settings, packet.length);
    let less = room.difference_of(turn + 1);
    let extra = scheduler.extra.first;
    let start = Start {
        number,
        at: due,
        extra,
        dropped,
        packet,
    };
    Advanced {
        answer: Ok(Some(start)),
        scheduler: started_unmarked(scheduler, due, time, less, dropped, at),
    }
}

// The decision dated at the due instant; `head` is the packet at the head.
pub fn decide(
    scheduler: Scheduler,
    head: Packet,
    due: Instant,
    at: Instant,
    room: &Room,
) -> Advanced
    requires { Decides scheduler room.now head due }
    ensures { result ≡ decide_of scheduler room.now head due at }
{
    if sent(scheduler, head) {
        return start_head(scheduler, head, due, at);
    }
    start_first(scheduler, due, at, room)
}
