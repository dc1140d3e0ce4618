// How a bucket fills, with no number wider than 64 bits though rate times span reaches 10^22. The function serves the crate `marker` only.
#![tactic(auto)]

ghost use Rattle.std.specs.Prelude.{◌≡◌};
ghost use Rattle.marker_rules.specs.Bucket.{filled_to};
ghost use Rattle.marker_bucket.specs.Fillable.{Fillable};

use marker_flows::DEPTH_MOST;
use units::Ticks;

// A bucket's content is counted in millionths of a byte, so that each tick fills in a whole number of them.
pub const MILLION: u64 = 1_000_000;

// The most that a bucket holds, in millionths of a byte. At the least rate, 1, so many ticks fill it from nothing.
const TOP_MOST: u64 = MILLION * (DEPTH_MOST as u64);

// What a bucket holds after a span. A span above TOP_MOST fills any bucket at any rate; with a shorter one the product stays below 10^18. So no
// division is needed to see whether it would wrap. Tried: saturating_mul and saturating_add need no test, but took 1.33 times as long.
pub fn fill(top: u64, held: u64, rate: u64, span: Ticks) -> u64
    requires { Fillable top held rate }
    ensures { result ≡ filled_to top held rate span.0 }
{
    if TOP_MOST < span.0 {
        return top;
    }
    top.min(held + rate * span.0)
}
