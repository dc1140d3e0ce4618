// The flows at the door: a rate and a depth for each, their limits, and the refusals of an opening.
#![tactic(auto)]

ghost use Rattle.std.specs.Prelude.{◌≡◌, ◌≤◌};
ghost use Rattle.std.specs.List.{list_any};
ghost use Rattle.refusals.specs.First.{first_refusal, answer_by};
ghost use Rattle.marker_flows.specs.Flows.{flows_most, flows_of, rate_out, depth_out, open_tests};

use refusals::Refusal;

// The limits of the request. Each stands once more in specs/Flows.antt, and no function is proved unless both agree.
pub const FLOWS_MOST: usize = 8;

pub const RATE_MOST: u32 = 10_000_000;

pub const DEPTH_MOST: u32 = 65_535;

// What fills a flow's bucket, in bytes per 1,000,000 ticks, and what it holds at most, in bytes. A C host hands both structs over as they are,
// so that a count stands beside the array.
#[repr(C)]
#[derive(Clone, Copy)]
pub struct Flow {
    pub rate: u32,
    pub depth: u32,
}

// What an opening asks for: the first `count` of these flows. One array, so that there is a depth for every rate.
#[repr(C)]
#[derive(Clone, Copy)]
pub struct Flows {
    pub count: u32,
    pub each: [Flow; FLOWS_MOST],
}

impl Flows {
    // The flows asked for.
    #[tactic(auto, using(crate::proofs::Asked::flows_taken))]
    pub fn asked(&self) -> &[Flow]
        requires { self.now.count ≤ flows_most }
        ensures { result.now ≡ flows_of self.now }
    {
        &self.each[..self.count as usize]
    }
}

// Whether a rate of these flows is out of range.
fn any_rate_out(flows: &[Flow]) -> bool
    ensures { result ≡ list_any rate_out flows.now }
{
    flows
        .iter()
        .any(|flow| !(1..=RATE_MOST).contains(&flow.rate))
}

// Whether a depth of these flows is out of range.
fn any_depth_out(flows: &[Flow]) -> bool
    ensures { result ≡ list_any depth_out flows.now }
{
    flows
        .iter()
        .any(|flow| !(1..=DEPTH_MOST).contains(&flow.depth))
}

// Judges an opening: a rate out of range goes before any depth.
#[tactic(auto, using(crate::proofs::Asked::flows_counted))]
pub fn judge_flows(asked: Flows) -> Result<(), Refusal>
    ensures { result ≡ answer_by (first_refusal (open_tests (flows_of asked))) tt }
{
    if !(1..=FLOWS_MOST).contains(&(asked.count as usize)) {
        return Err(Refusal::Flow);
    }
    let flows = asked.asked();
    if any_rate_out(flows) {
        return Err(Refusal::Rate);
    }
    if any_depth_out(flows) {
        return Err(Refusal::Depth);
    }
    Ok(())
}
