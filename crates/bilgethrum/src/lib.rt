// Every public call for C hosts, as include/bilgethrum.h declares it. A host's line is a room in which its scheduler is kept.
#![tactic(auto)]

ghost use Rattle.std.specs.Prelude.{◌≡◌};
ghost use Rattle.scheduler_state.specs.Pick.{pick};
ghost use Rattle.payload.specs.Part.{view_refusal};
ghost use Rattle.payload.specs.View.{area_of};
ghost use Rattle.block_columns.specs.Columns.{columns};
ghost use Rattle.run.specs.Text.{text_of};
ghost use Rattle.run.specs.Ran.{Answers};
ghost use Rattle.marker.specs.Calls.{call_of};
ghost use Rattle.marker.specs.Machine.{FromOpening};
ghost use Rattle.bilgethrum_values.specs.Host.{packet_from};
ghost use Rattle.bilgethrum.specs.Promises.{OnLine, keeping, HostOpens, HostArrives, HostAdvances, tallied, HostReads, HostWrites};
ghost use Rattle.bilgethrum.specs.Markers.{HostOpensMarker, HostMarks};

use bilgethrum_values::{
    HostArrival, HostDecision, HostMarking, HostPacket, HostReading, HostSettings, HostTallies,
    HostWriting, refusal_of,
};
use block_columns::Columns;
use marker::Marker;
use marker_flows::Flows;
use room::{Packet, Room};
use scheduler_kept::scheduler_in;
use scheduler_state::Scheduler;
use units::{Bytes, Instant, Marking, Settings};

// Keeps the scheduler in the line's words if the call was accepted; else no word is changed.
fn keep_accepted(accepted: bool, scheduler: Scheduler, line: &mut Room)
    ensures { line.new ≡ pick accepted (keeping scheduler line.old) line.old }
{
    if accepted {
        scheduler_kept::keep(scheduler, line);
    }
}

// Opens a line, whatever stood in its words.
#[unsafe(no_mangle)]
pub extern "C" fn bilgethrum_open(line: &mut Room, settings: HostSettings) -> u32
    ensures { HostOpens settings line.old result line.new }
{
    let opened = scheduler::open(Settings::from(settings));
    scheduler_kept::keep(opened.scheduler, line);
    refusal_of(opened.answer)
}

// A packet arrives. A refusal changes no word.
#[unsafe(no_mangle)]
pub extern "C" fn bilgethrum_arrive(line: &mut Room, packet: HostPacket) -> HostArrival
    requires { OnLine line.old }
    ensures { HostArrives line.old packet result line.new }
{
    let scheduler = scheduler_in(line);
    let arrived = scheduler::arrive(scheduler, Packet::from(packet), line);
    keep_accepted(arrived.answer.is_ok(), arrived.scheduler, line);
    HostArrival::from(arrived.answer)
}

// The clock moves on to `at`, and one decision is taken if one is due by then. A refusal changes no word.
#[unsafe(no_mangle)]
pub extern "C" fn bilgethrum_advance(line: &mut Room, at: u64) -> HostDecision
    requires { OnLine line.old }
    ensures { HostAdvances line.old at result line.new }
{
    let scheduler = scheduler_in(line);
    let advanced = scheduler::advance(scheduler, Instant(at), line);
    keep_accepted(advanced.answer.is_ok(), advanced.scheduler, line);
    HostDecision::from(advanced.answer)
}

// The five tallies.
#[unsafe(no_mangle)]
pub extern "C" fn bilgethrum_tally(line: &Room) -> HostTallies
    ensures { result ≡ tallied line.now }
{
    let scheduler = scheduler_in(line);
    HostTallies::from(scheduler.tallies)
}

// Opens a marker, whatever stood in its words.
#[unsafe(no_mangle)]
pub extern "C" fn bilgethrum_open_marker(marker: &mut Marker, flows: Flows) -> u32
    ensures { HostOpensMarker flows marker.old result marker.new }
{
    refusal_of(marker::open(flows, marker))
}

// A packet at the door is left unmarked or marked. A refusal changes no word.
#[unsafe(no_mangle)]
pub extern "C" fn bilgethrum_mark(
    marker: &mut Marker,
    flow: u32,
    length: u32,
    at: u64,
) -> HostMarking
    requires { FromOpening marker.old }
    ensures { HostMarks marker.old (call_of flow length at) result marker.new }
{
    let answer = marker::mark(flow, Bytes(length), Instant(at), marker);
    HostMarking::from(answer)
}

// Reads an image into the columns. A refusal changes no entry.
#[unsafe(no_mangle)]
pub extern "C" fn bilgethrum_read(
    image: &[u8],
    kinds: &mut [u8],
    lengths: &mut [u32],
    places: &mut [u32],
    instants: &mut [u64],
) -> HostReading
    ensures { HostReads image.now (columns kinds.old lengths.old places.old instants.old) result (columns kinds.new lengths.new places.new instants.new) }
{
    HostReading::from(block_reader::read(image, kinds, lengths, places, instants))
}

// Writes the events of the columns as an image. A refusal changes no byte.
#[unsafe(no_mangle)]
pub extern "C" fn bilgethrum_write(
    settings: HostSettings,
    kinds: &[u8],
    lengths: &[u32],
    places: &[u32],
    instants: &[u64],
    image: &mut [u8],
) -> HostWriting
    ensures { HostWrites settings (columns kinds.now lengths.now places.now instants.now) image.old result image.new }
{
    let columns = Columns {
        kinds,
        lengths,
        places,
        instants,
    };
    HostWriting::from(block_writer::write(Settings::from(settings), columns, image))
}

// The number of a packet's view, 0 if it is not refused.
#[unsafe(no_mangle)]
pub extern "C" fn bilgethrum_view_refusal<'a>(
    unmarked: &'a [u8],
    marked: &'a [u8],
    packet: HostPacket,
) -> u32
    ensures { result ≡ view_refusal (area_of (packet_from packet).marking unmarked.now marked.now) packet.length packet.place }
{
    refusal_of(payload::judge_view(
        unmarked,
        marked,
        Marking::from(packet.marked),
        Bytes(packet.length),
        packet.place,
    ))
}

// The whole run: the text of an image, at the start of the area. Returns the text's length, or -32 where the area is shorter than that;
// then nothing is written.
#[unsafe(no_mangle)]
pub extern "C" fn bilgethrum_run(image: &[u8], answer: &mut [u8]) -> i64
    ensures { Answers (text_of image.now) answer.old answer.new result }
{
    run::whole_run(image, answer)
}
