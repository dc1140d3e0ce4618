// What a C host hands over and is handed, to and from the types of the calls: the structs of numbers that include/bilgethrum.h declares. They serve
// the crate `bilgethrum` only.
#![tactic(auto)]

ghost use Rattle.std.specs.Prelude.{◌≡◌};
ghost use Rattle.scheduler_answers.specs.Values.{opening_number};
ghost use Rattle.bilgethrum_values.specs.Host.{settings_from, packet_from, host_settings, host_packet, host_arrival, host_decision, host_tallies, host_reading, host_writing, host_marking};

use block_image::{ImageRefusal, Trace};
use refusals::Refusal;
use room::Packet;
use scheduler_answers::{Admitted, Start};
use scheduler_state::Tallies;
use units::{Bytes, Instant, Marking, Settings, Ticks};

#[repr(C)]
#[derive(Clone, Copy, Default)]
pub struct HostSettings {
    pub alpha: u64,
    pub ticks_per_byte: u32,
}

// Ticks per byte beyond 16 bits count as the most of 16 bits, which is out of range too.
impl From<HostSettings> for Settings {
    ghost from_gives = { λ asked settings. settings ≡ settings_from asked };

    fn from(asked: HostSettings) -> Settings {
        Settings {
            alpha: Ticks(asked.alpha),
            ticks_per_byte: u16::try_from(asked.ticks_per_byte).unwrap_or(u16::MAX),
        }
    }
}

impl From<Settings> for HostSettings {
    ghost from_gives = { λ settings given. given ≡ host_settings settings };

    fn from(settings: Settings) -> HostSettings {
        HostSettings {
            alpha: settings.alpha.0,
            ticks_per_byte: u32::from(settings.ticks_per_byte),
        }
    }
}

#[repr(C)]
#[derive(Clone, Copy, Default)]
pub struct HostPacket {
    pub arrival: u64,
    pub length: u32,
    pub place: u32,
    pub marked: u32,
}

impl From<HostPacket> for Packet {
    ghost from_gives = { λ given packet. packet ≡ packet_from given };

    fn from(given: HostPacket) -> Packet {
        Packet {
            marking: Marking::from(given.marked),
            length: Bytes(given.length),
            place: given.place,
            arrival: Instant(given.arrival),
        }
    }
}

impl From<Packet> for HostPacket {
    ghost from_gives = { λ packet given. given ≡ host_packet packet };

    fn from(packet: Packet) -> HostPacket {
        HostPacket {
            arrival: packet.arrival.0,
            length: packet.length.0,
            place: packet.place,
            marked: u32::from(packet.marking),
        }
    }
}

// The number of a judgement, 0 if nothing is refused. No From: both types are foreign here.
pub fn refusal_of(judgement: Result<(), Refusal>) -> u32
    ensures { result ≡ opening_number judgement }
{
    match judgement {
        Ok(()) => 0,
        Err(refusal) => u32::from(refusal),
    }
}

// Below, a number that an answer has no use for is 0.
#[repr(C)]
#[derive(Clone, Copy, Default)]
pub struct HostArrival {
    pub refusal: u32,
    pub number: u32,
    pub extra: u64,
}

impl From<Result<Admitted, Refusal>> for HostArrival {
    ghost from_gives = { λ answer given. given ≡ host_arrival answer };

    fn from(answer: Result<Admitted, Refusal>) -> HostArrival {
        let none = HostArrival::default();
        match answer {
            Ok(Admitted::Unmarked { number, extra }) => HostArrival {
                number,
                extra: extra.0,
                ..none
            },
            Ok(Admitted::Marked { number }) => HostArrival { number, ..none },
            Err(refusal) => HostArrival {
                refusal: u32::from(refusal),
                ..none
            },
        }
    }
}

#[repr(C)]
#[derive(Clone, Copy, Default)]
pub struct HostDecision {
    pub refusal: u32,
    pub number: u32,
    pub start: u64,
    pub extra: u64,
    pub dropped: u32,
    pub packet: HostPacket,
}

impl From<Result<Option<Start>, Refusal>> for HostDecision {
    ghost from_gives = { λ answer given. given ≡ host_decision answer };

    fn from(answer: Result<Option<Start>, Refusal>) -> HostDecision {
        let none = HostDecision::default();
        match answer {
            Ok(Some(start)) => HostDecision {
                refusal: 0,
                number: start.number,
                start: start.at.0,
                extra: start.extra.0,
                dropped: start.dropped,
                packet: HostPacket::from(start.packet),
            },
            Ok(None) => none,
            Err(refusal) => HostDecision {
                refusal: u32::from(refusal),
                ..none
            },
        }
    }
}

#[repr(C)]
#[derive(Clone, Copy)]
pub struct HostTallies {
    pub unmarked_admitted: u32,
    pub marked_admitted: u32,
    pub unmarked_started: u32,
    pub marked_started: u32,
    pub marked_dropped: u32,
}

impl From<Tallies> for HostTallies {
    ghost from_gives = { λ tallies given. given ≡ host_tallies tallies };

    fn from(tallies: Tallies) -> HostTallies {
        HostTallies {
            unmarked_admitted: tallies.admitted.unmarked,
            marked_admitted: tallies.admitted.marked,
            unmarked_started: tallies.started.unmarked,
            marked_started: tallies.started.marked,
            marked_dropped: tallies.dropped,
        }
    }
}

#[repr(C)]
#[derive(Clone, Copy, Default)]
pub struct HostReading {
    pub refusal: u32,
    pub block: u32,
    pub record: u32,
    pub events: usize,
    pub settings: HostSettings,
}

impl From<Result<Trace, ImageRefusal>> for HostReading {
    ghost from_gives = { λ answer given. given ≡ host_reading answer };

    fn from(answer: Result<Trace, ImageRefusal>) -> HostReading {
        let none = HostReading::default();
        match answer {
            Ok(trace) => HostReading {
                events: trace.events,
                settings: HostSettings::from(trace.settings),
                ..none
            },
            Err(refused) => HostReading {
                refusal: u32::from(refused.refusal),
                block: refused.block,
                record: refused.record,
                ..none
            },
        }
    }
}

#[repr(C)]
#[derive(Clone, Copy)]
pub struct HostWriting {
    pub refusal: u32,
    pub bytes: usize,
}

impl From<Result<usize, Refusal>> for HostWriting {
    ghost from_gives = { λ answer given. given ≡ host_writing answer };

    fn from(answer: Result<usize, Refusal>) -> HostWriting {
        match answer {
            Ok(bytes) => HostWriting { refusal: 0, bytes },
            Err(refusal) => HostWriting {
                refusal: u32::from(refusal),
                bytes: 0,
            },
        }
    }
}

#[repr(C)]
#[derive(Clone, Copy)]
pub struct HostMarking {
    pub refusal: u32,
    pub marked: u32,
}

impl From<Result<Marking, Refusal>> for HostMarking {
    ghost from_gives = { λ answer given. given ≡ host_marking answer };

    fn from(answer: Result<Marking, Refusal>) -> HostMarking {
        match answer {
            Ok(marking) => HostMarking {
                refusal: 0,
                marked: u32::from(marking),
            },
            Err(refusal) => HostMarking {
                refusal: u32::from(refusal),
                marked: 0,
            },
        }
    }
}
