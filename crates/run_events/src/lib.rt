// Events played on the scheduler, and the text of a trace told to a lent area; for the crate `run`. The waiting room is in its frame.
#![tactic(auto)]

ghost use Rattle.std.specs.Prelude.{◌≡◌, ◌+◌, ◌*◌, ◌/◌, ◌^◌, ◌≤◌, ◌<◌, length};
ghost use Rattle.scheduler.specs.Machine.{FromOpening};
ghost use Rattle.text_lines.specs.Told.{Told};
ghost use Rattle.run_events.specs.Calls.{call_of, coming_call};
ghost use Rattle.run_events.specs.Plays.{Plays};
ghost use Rattle.run_events.specs.Trace.{trace_text};
ghost use Rattle.run_events.specs.Tells.{Tells};

use block_header::{blocks_for, count_in};
use block_image::event_in;
use block_record::Event;
use room::{Packet, Room};
use scheduler::{advance, arrive, open};
use scheduler_state::Scheduler;
use text_answers::{tell_admission, tell_advance, tell_tallies};
use text_digits::Area;
use units::{Instant, Marking, Settings};

// An event as the call that it is.
#[derive(Clone, Copy)]
pub enum Coming {
    Arrival(Packet),
    Advance(Instant),
}

impl From<Event> for Coming {
    ghost from_gives = { λ event coming. coming_call coming ≡ call_of event };

    fn from(event: Event) -> Coming {
        match event {
            Event::Unmarked { at, length, place } => Coming::Arrival(Packet {
                marking: Marking::Unmarked,
                length,
                place,
                arrival: at,
            }),
            Event::Marked { at, length, place } => Coming::Arrival(Packet {
                marking: Marking::Marked,
                length,
                place,
                arrival: at,
            }),
            Event::Advance { at } => Coming::Advance(at),
        }
    }
}

// Plays one event, and tells its line.
fn play(event: Event, scheduler: Scheduler, room: &mut Room, area: &mut Area) -> Scheduler
    requires { FromOpening scheduler room.old × (area.old.at < 2 ^ 32) }
    ensures { Plays area.old area.new scheduler room.old (call_of event) result room.new }
{
    match Coming::from(event) {
        Coming::Arrival(packet) => {
            let arrived = arrive(scheduler, packet, room);
            tell_admission(area, arrived.answer);
            arrived.scheduler
        },
        Coming::Advance(at) => {
            let advanced = advance(scheduler, at, room);
            tell_advance(area, advanced.answer);
            advanced.scheduler
        },
    }
}

// Tells the lines of the first events to the area, from its start, block by block: what stands in an inner loop the compiler takes for hot, and
// makes one body of it, though the calls for C hosts use the scheduler too.
fn tell_events(
    image: &[u8],
    events: usize,
    scheduler: Scheduler,
    area: &mut Area,
    room: &mut Room,
) -> Scheduler
    requires from_opening { FromOpening scheduler room.old }
    requires events_bound { (events ≤ 31 * (length image.now / 512)) × (events ≤ 1984) }
    requires from_start { area.old.at ≡ 0 }
    ensures { Tells image.now events scheduler room.old area.old area.new result }
{
    let mut then = scheduler;
    for block in 0..blocks_for(events) {
        for i in 0..count_in(events, block) {
            let event = event_in(image, block, i);
            let played = play(event, then, room, area);
            then = played.copied();
        }
    }
    then
}

// Tells the text of a trace to the area, and returns its length. The waiting room is in its frame.
pub fn tell_trace(image: &[u8], settings: Settings, events: usize, answer: &mut [u8]) -> usize
    requires { (events ≤ 31 * (length image.now / 512)) × (events ≤ 1984) }
    ensures { Told answer.old 0 (trace_text image.now settings events) answer.new result }
{
    let mut room = room::empty();
    let opened = open(settings);
    let mut area = Area { out: answer, at: 0 };
    let then = tell_events(image, events, opened.scheduler, &mut area, &mut room);
    tell_tallies(&mut area, then.tallies);
    area.at
}
