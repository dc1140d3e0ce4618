// The marker at the door: `open` and `mark`, over words that the caller lends. A packet is left unmarked exactly if its flow's bucket holds its
// whole length. It passes on the types of an opening's flows.
#![tactic(auto)]

ghost use Rattle.std.specs.Prelude.{◌≡◌, ◌≤◌, ◌<◌, length};
ghost use Rattle.refusals.specs.First.{answer_by};
ghost use Rattle.marker_flows.specs.Flows.{flows_most};
ghost use Rattle.marker.specs.Words.{Empty, full_words, holding};
ghost use Rattle.marker.specs.Lookable.{Lookable};
ghost use Rattle.marker.specs.Calls.{laid_all, call_of, refusal_in, level_in};
ghost use Rattle.marker.specs.Machine.{FromOpening};
ghost use Rattle.marker.specs.Promises.{Opens, Marks};

use marker_bucket::MILLION;
use marker_flows::FLOWS_MOST;
pub use marker_flows::{Flow, Flows};
use refusals::Refusal;
use units::{Bytes, Instant, Marking, Ticks};

// A flow's words: its rate, its depth, what its bucket held when it was last looked at, and when that was. Depth and content are in millionths of a
// byte. A C host lends these words and those of the marker as they are.
#[repr(C)]
#[derive(Clone, Copy, Default)]
pub struct FlowWords {
    pub rate: u64,
    pub top: u64,
    pub held: u64,
    pub looked: u64,
}

// The instant of the last accepted call, how many flows were opened, and the words of each.
#[repr(C)]
#[derive(Clone, Copy)]
pub struct Marker {
    pub clock: u64,
    pub count: u64,
    pub flows: [FlowWords; FLOWS_MOST],
}

// Words to lend; whatever stands in them counts for nothing.
pub fn empty() -> Marker
    ensures { Empty result }
{
    Marker {
        clock: 0,
        count: 0,
        flows: [FlowWords::default(); FLOWS_MOST],
    }
}

// A flow's words, with a full bucket.
fn full(flow: Flow) -> FlowWords
    ensures { result ≡ full_words flow }
{
    let top = MILLION * (flow.depth as u64);
    FlowWords {
        rate: flow.rate as u64,
        top,
        held: top,
        looked: 0,
    }
}

// The words of these flows. Those of flows that are not opened stay as they were, and no call reads them.
fn lay(flows: &[Flow], marker: &mut Marker)
    requires { length flows.now ≤ flows_most }
    ensures { marker.new ≡ laid_all marker.old flows.now }
{
    marker.clock = 0;
    marker.count = flows.len() as u64;
    for (f, flow) in flows.iter().enumerate() {
        marker.flows[f] = full(*flow);
    }
}

// A marker for these flows; where they are refused, one for a flow with rate and depth at their least.
pub fn open(asked: Flows, marker: &mut Marker) -> Result<(), Refusal>
    ensures { Opens asked marker.old result marker.new }
{
    if let Err(refusal) = marker_flows::judge_flows(asked) {
        lay(&[Flow { rate: 1, depth: 1 }], marker);
        return Err(refusal);
    }
    lay(asked.asked(), marker);
    Ok(())
}

// Judges a packet. The scheduler judges its calls' instants in the same way, but the two families have no crate in common above `units`.
fn judge_packet(flow: u32, length: Bytes, at: Instant, marker: &Marker) -> Result<(), Refusal>
    ensures { result ≡ answer_by (refusal_in marker.now (call_of flow length.0 at.0)) tt }
{
    if marker.count <= flow as u64 {
        return Err(Refusal::Flow);
    }
    if !units::length_in_range(length) {
        return Err(Refusal::Length);
    }
    if !units::instant_in_range(at) {
        return Err(Refusal::Instant);
    }
    if at.0 < marker.clock {
        return Err(Refusal::BeforeClock);
    }
    Ok(())
}

// What a flow's bucket holds at this instant.
fn level_at(f: usize, at: Instant, marker: &Marker) -> u64
    requires { Lookable marker.now f at.0 }
    ensures { result ≡ level_in marker.now f at.0 }
{
    let words = marker.flows[f];
    marker_bucket::fill(
        words.top,
        words.held,
        words.rate,
        Ticks(at.0 - words.looked),
    )
}

// A packet was accepted: its flow's bucket was looked at, and holds so much since.
#[tactic(auto, unfolding(crate::specs::Words::holding))]
fn hold(f: usize, held: u64, at: Instant, marker: &mut Marker)
    requires { f < flows_most }
    ensures { marker.new ≡ holding marker.old f held at.0 }
{
    marker.clock = at.0;
    marker.flows[f] = FlowWords {
        held,
        looked: at.0,
        ..marker.flows[f]
    };
}

// A packet at the door: it is left unmarked and paid for, it is marked and nothing is taken, or it is refused and nothing is stored.
// Flow, length and instant come one by one, as a C host and README's give them.
pub fn mark(flow: u32, length: Bytes, at: Instant, marker: &mut Marker) -> Result<Marking, Refusal>
    requires { FromOpening marker.old }
    ensures { Marks marker.old (call_of flow length.0 at.0) result marker.new }
{
    judge_packet(flow, length, at, marker)?;
    let f = flow as usize;
    let level = level_at(f, at, marker);
    let price = MILLION * (length.0 as u64);
    if price <= level {
        hold(f, level - price, at, marker);
        return Ok(Marking::Unmarked);
    }
    hold(f, level, at, marker);
    Ok(Marking::Marked)
}
