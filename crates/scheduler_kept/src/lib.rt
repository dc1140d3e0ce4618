// The scheduler in words of the room, for a host that holds one block of words for both. The functions serve the crate `bilgethrum` only.
#![tactic(auto)]

ghost use Rattle.std.specs.Prelude.{◌≡◌};
ghost use Rattle.room.specs.Room.{with_kept};
ghost use Rattle.scheduler_kept.specs.Words.{scheduler_words, scheduler_in};

use room::Room;
use scheduler_state::{Each, Extra, Line, Scheduler, Tallies};
use units::{Instant, Marking, Settings, Ticks};

// Keeps the scheduler in the room, its numbers in their order; those of 64 bits take two words.
pub fn keep(scheduler: Scheduler, room: &mut Room)
    ensures { room.new ≡ with_kept room.old 0 (scheduler_words scheduler) }
{
    let Scheduler {
        settings,
        clock,
        line,
        extra,
        tallies,
    } = scheduler;
    room.keep_long(settings.alpha.0, 0);
    room.keep(u32::from(settings.ticks_per_byte), 2);
    room.keep_long(clock.0, 3);
    room.keep_long(line.free.0, 5);
    room.keep(u32::from(line.last), 7);
    room.keep_long(extra.sum.0, 8);
    room.keep_long(extra.first.0, 10);
    room.keep_long(extra.last.0, 12);
    room.keep(tallies.admitted.unmarked, 14);
    room.keep(tallies.admitted.marked, 15);
    room.keep(tallies.started.unmarked, 16);
    room.keep(tallies.started.marked, 17);
    room.keep(tallies.dropped, 18);
}

// Gives back the scheduler that is kept in the room.
pub fn scheduler_in(room: &Room) -> Scheduler
    ensures { result ≡ scheduler_in room.now }
{
    Scheduler {
        settings: Settings {
            alpha: Ticks(room.kept_long(0)),
            // 16 bits are kept there, and more never.
            ticks_per_byte: (room.kept(2) % 65536) as u16,
        },
        clock: Instant(room.kept_long(3)),
        line: Line {
            free: Instant(room.kept_long(5)),
            last: Marking::from(room.kept(7)),
        },
        extra: Extra {
            sum: Ticks(room.kept_long(8)),
            first: Ticks(room.kept_long(10)),
            last: Ticks(room.kept_long(12)),
        },
        tallies: Tallies {
            admitted: Each {
                unmarked: room.kept(14),
                marked: room.kept(15),
            },
            started: Each {
                unmarked: room.kept(16),
                marked: room.kept(17),
            },
            dropped: room.kept(18),
        },
    }
}
