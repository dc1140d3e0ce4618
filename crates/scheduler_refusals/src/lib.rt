// Whether a call is accepted: the due instant, and the refusals of an arrival and of an advance. The functions serve the crate
// `scheduler` only.
#![tactic(auto)]

ghost use Rattle.std.specs.Prelude.{◌≡◌};
ghost use Rattle.refusals.specs.First.{first_refusal, answer_by};
ghost use Rattle.rules.specs.Terms.{terms_of};
ghost use Rattle.rules.specs.Step.{outlasts};
ghost use Rattle.scheduler_state.specs.Counts.{Counted};
ghost use Rattle.scheduler_refusals.specs.Due.{due_of, overdue_of};
ghost use Rattle.scheduler_refusals.specs.Refusals.{arrival_tests, advance_tests};

use refusals::Refusal;
use scheduler_state::{Line, Scheduler};
use units::{Bytes, Instant, Marking, Settings};

// 64 packets of each marking wait at most, and there are 4,294,967,295 admissions since opening at most: the limits of document 01's table, apart from
// the sizes of the room and the width of a tally.
pub const WAITING_MOST: u32 = 64;

pub const ADMISSIONS_MOST: u32 = 4_294_967_295;

// The instant of the decision; `arrival` is that of the packet at the head.
pub fn due(line: Line, arrival: Instant) -> Instant
    ensures { result ≡ due_of line arrival }
{
    line.free.max(arrival)
}

// Whether a decision is due strictly before this instant.
fn overdue(scheduler: Scheduler, arrival: Instant, at: Instant) -> bool
    requires { Counted scheduler.tallies }
    ensures { result ≡ overdue_of scheduler arrival at }
{
    scheduler.tallies.waits() && due(scheduler.line, arrival) < at
}

// Whether a marked packet's transmission time is above alpha.
fn too_long(settings: Settings, marking: Marking, length: Bytes) -> bool
    ensures { result ≡ outlasts (terms_of settings) marking length.0 }
{
    marking == Marking::Marked && settings.alpha < units::transmission_time(settings, length)
}

// Judges an advance. An arrival's instant is judged the same way.
pub fn judge_advance(clock: Instant, at: Instant) -> Result<(), Refusal>
    ensures { result ≡ answer_by (first_refusal (advance_tests clock at)) tt }
{
    if !units::instant_in_range(at) {
        return Err(Refusal::Instant);
    }
    if at < clock {
        return Err(Refusal::BeforeClock);
    }
    Ok(())
}

// Judges an arrival; `arrival` is that of the packet at the head, if one waits.
pub fn judge_arrival(
    scheduler: Scheduler,
    arrival: Instant,
    marking: Marking,
    length: Bytes,
    at: Instant,
) -> Result<(), Refusal>
    requires { Counted scheduler.tallies }
    ensures { result ≡ answer_by (first_refusal (arrival_tests scheduler arrival marking length at)) tt }
{
    if !units::length_in_range(length) {
        return Err(Refusal::Length);
    }
    judge_advance(scheduler.clock, at)?;
    if too_long(scheduler.settings, marking, length) {
        return Err(Refusal::AboveAlpha);
    }
    if overdue(scheduler, arrival, at) {
        return Err(Refusal::Overdue);
    }
    if WAITING_MOST <= scheduler.tallies.waiting(marking) {
        return Err(Refusal::RoomFull);
    }
    if ADMISSIONS_MOST <= scheduler.tallies.admissions() {
        return Err(Refusal::NumbersUsed);
    }
    Ok(())
}
