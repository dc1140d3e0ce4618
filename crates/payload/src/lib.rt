// The payload view: `view` and `judge_view` are public calls; the marking names the area where a payload lies.
#![tactic(auto)]

ghost use Rattle.std.specs.Prelude.{◌≡◌};
ghost use Rattle.refusals.specs.First.{first_refusal, answer_by};
ghost use Rattle.payload.specs.Part.{view_tests, Viewed};
ghost use Rattle.payload.specs.View.{area_of};

use refusals::Refusal;
use units::{Bytes, Marking, length_in_range};

// Judges a view of one area.
fn judge_part(area: &[u8], length: Bytes, place: u32) -> Result<(), Refusal>
    ensures { result ≡ answer_by (first_refusal (view_tests area.now length.0 place)) tt }
{
    if !length_in_range(length) {
        return Err(Refusal::Length);
    }
    if (area.len() as u64) < (place as u64) + (length.0 as u64) {
        return Err(Refusal::OutsideArea);
    }
    Ok(())
}

// That part of the area itself, or an empty part.
fn part(area: &[u8], length: Bytes, place: u32) -> &[u8]
    ensures { Viewed area.entry length.0 place result }
{
    if judge_part(area, length, place).is_err() {
        return &area[..0];
    }
    let from = place as usize;
    let to = from + (length.0 as usize);
    &area[from..to]
}

// The area that the marking names.
fn area<'a>(unmarked: &'a [u8], marked: &'a [u8], marking: Marking) -> &'a [u8]
    ensures { result ≡ area_of marking unmarked.entry marked.entry }
{
    match marking {
        Marking::Unmarked => unmarked,
        Marking::Marked => marked,
    }
}

// The payload itself: that part of the area that the marking names, or an empty part. One function over two lent areas, as document 01 has it.
pub fn view<'a>(
    unmarked: &'a [u8],
    marked: &'a [u8],
    marking: Marking,
    length: Bytes,
    place: u32,
) -> &'a [u8]
    ensures { Viewed (area_of marking unmarked.entry marked.entry) length.0 place result }
{
    part(area(unmarked, marked, marking), length, place)
}

// Judges the same view: what it is refused for.
pub fn judge_view<'a>(
    unmarked: &'a [u8],
    marked: &'a [u8],
    marking: Marking,
    length: Bytes,
    place: u32,
) -> Result<(), Refusal>
    ensures { result ≡ answer_by (first_refusal (view_tests (area_of marking unmarked.now marked.now) length.0 place)) tt }
{
    judge_part(area(unmarked, marked, marking), length, place)
}
