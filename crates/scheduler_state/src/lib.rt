// The scheduler's own numbers: the counts that follow from its tallies, and the extra delays. The functions serve the crates above only.
#![tactic(auto)]

ghost use Rattle.std.specs.Prelude.{◌≡◌, ◌+◌, ◌-◌, ◌≤◌};
ghost use Rattle.units.specs.Limits.{alpha_most, instant_most};
ghost use Rattle.scheduler_state.specs.Counts.{admissions_of, gone_of, waiting_of, waits_of, Counted};
ghost use Rattle.scheduler_state.specs.Parts.{fresh_of, idle_at};
ghost use Rattle.scheduler_state.specs.Bounds.{times_most};
ghost use Rattle.scheduler_state.specs.Delays.{follows_of, own_of, fits_of};

use units::{Instant, Marking, Settings, Ticks};

// When the line falls free, and the marking of what started last.
#[derive(Clone, Copy)]
pub struct Line {
    pub free: Instant,
    pub last: Marking,
}

// All waiting unmarked transmission times; the extra delay of the first and of the last unmarked packet, waiting or, where none waits, as it
// started.
#[derive(Clone, Copy, Default)]
pub struct Extra {
    pub sum: Ticks,
    pub first: Ticks,
    pub last: Ticks,
}

// A count for each marking.
#[derive(Clone, Copy, Default)]
pub struct Each {
    pub unmarked: u32,
    pub marked: u32,
}

// The five tallies, from which every other count follows.
#[derive(Clone, Copy, Default)]
pub struct Tallies {
    pub admitted: Each,
    pub started: Each,
    pub dropped: u32,
}

// The scheduler, small and by value; the packets stand in the room. `Small`, which the arithmetic above asks of it, is no invariant of the type, for the
// reason that `Counted` is none of its tallies.
#[derive(Clone, Copy)]
pub struct Scheduler {
    pub settings: Settings,
    pub clock: Instant,
    pub line: Line,
    pub extra: Extra,
    pub tallies: Tallies,
}

// `Counted`, which these ask, is no invariant of the type: a host's room may hold any words where its tallies are kept, and `scheduler_in` and
// `bilgethrum_tally` read them as they stand.
// They borrow the tallies, since a copy of 20 bytes is made of overlapping pieces, which a loop over calls would keep in memory.
impl Tallies {
    // How many packets were admitted.
    pub fn admissions(&self) -> u32
        requires { Counted self.now }
        ensures { result ≡ admissions_of self.now }
    {
        self.admitted.unmarked + self.admitted.marked
    }

    // How many packets started or were dropped.
    pub fn gone(&self) -> u32
        requires { Counted self.now }
        ensures { result ≡ gone_of self.now }
    {
        self.started.unmarked + self.started.marked + self.dropped
    }

    // How many packets of a marking wait.
    pub fn waiting(&self, marking: Marking) -> u32
        requires { Counted self.now }
        ensures { result ≡ waiting_of marking self.now }
    {
        match marking {
            Marking::Unmarked => self.admitted.unmarked - self.started.unmarked,
            Marking::Marked => self.admitted.marked - (self.started.marked + self.dropped),
        }
    }

    // Whether a packet waits.
    pub fn waits(&self) -> bool
        requires { Counted self.now }
        ensures { result ≡ waits_of self.now }
    {
        self.gone() != self.admissions()
    }
}

impl Scheduler {
    // A scheduler on which nothing has happened.
    pub fn fresh(settings: Settings) -> Scheduler
        ensures { result ≡ fresh_of settings }
    {
        Scheduler {
            settings,
            clock: Instant(0),
            line: Line {
                free: Instant(0),
                last: Marking::Marked,
            },
            extra: Extra::default(),
            tallies: Tallies::default(),
        }
    }

    // Nothing is due at this instant.
    pub fn idle(self, at: Instant) -> Scheduler
        ensures { result ≡ idle_at self at }
    {
        let mut next = self;
        next.clock = at;
        next
    }

    // Whether a new unmarked packet has a predecessor: one waits, or is on the line and ends after this instant.
    fn follows(&self, waiting: u32, at: Instant) -> bool
        ensures { result ≡ follows_of self.now.line waiting at }
    {
        waiting != 0 || (self.line.last == Marking::Unmarked && at < self.line.free)
    }

    // The extra delay of a new unmarked packet, where so many wait.
    pub fn own_delay(&self, waiting: u32, at: Instant) -> Ticks
        requires { (self.now.line.free.0 ≤ instant_most + times_most) × (self.now.extra.sum.0 ≤ times_most) }
        ensures { result ≡ own_of self.now.line self.now.extra waiting at }
    {
        let rest = self.line.free.0.saturating_sub(at.0);
        let ahead = Ticks(rest + self.extra.sum.0);
        if self.follows(waiting, at) {
            return self.extra.last.min(ahead);
        }
        ahead
    }

    // By how much it is less than its predecessor's, where one waits.
    pub fn difference(&self, own: Ticks) -> Ticks
        ensures { result.0 ≡ self.now.extra.last.0 - own.0 }
    {
        Ticks(self.extra.last.0.saturating_sub(own.0))
    }

    // Whether a marked packet of this transmission time may start before the first of so many waiting unmarked ones. That a transmission time is at most
    // `times_most` is asked here and above, and is no invariant of `Ticks`: alpha and extra delays are ticks too, and settings may hold any numbers.
    pub fn fits(&self, waiting: u32, time: Ticks) -> bool
        requires { (self.now.extra.first.0 ≤ alpha_most) × (time.0 ≤ times_most) }
        ensures { result ≡ fits_of self.now.settings self.now.extra waiting time }
    {
        waiting == 0 || Ticks(self.extra.first.0 + time.0) <= self.settings.alpha
    }

    // The same scheduler, the parts beside unused bytes copied number by number. A copy of the whole, as `Clone` makes, moves those bytes too, and the
    // compiler keeps them in memory: in a loop each turn then waits for the copy before.
    pub fn copied(self) -> Scheduler
        ensures { result ≡ self }
    {
        Scheduler {
            settings: Settings {
                alpha: Ticks(self.settings.alpha.0),
                ticks_per_byte: self.settings.ticks_per_byte,
            },
            clock: self.clock,
            line: Line {
                free: Instant(self.line.free.0),
                last: self.line.last,
            },
            extra: self.extra,
            tallies: Tallies {
                admitted: self.tallies.admitted,
                started: self.tallies.started,
                dropped: self.tallies.dropped,
            },
        }
    }
}
