// Answers as lines: the letter and the numbers that document 01 prints for each, told to a lent area; pub functions serve the whole run.
// No Display: where an area is too short the rest of a line is measured, as `Tells` says, and std's formatting promises no such thing.
#![tactic(auto)]

ghost use Rattle.std.specs.Prelude.{[], ◌∷◌, ◌^◌, ◌<◌};
ghost use Rattle.refusals.specs.Numbers.{number};
ghost use Rattle.text.specs.Text.{values_text};
ghost use Rattle.text_lines.specs.Told.{Tells};
ghost use Rattle.scheduler_answers.specs.Values.{admission_values, decision_values, advance_values, tally_values};

use refusals::Refusal;
use scheduler_answers::{Admitted, Start};
use scheduler_state::Tallies;
use text_digits::Area;
use text_lines::tell_line;

// R c: a refusal.
fn tell_refused(area: &mut Area, refusal: Refusal)
    requires { area.old.at < 2 ^ 32 }
    ensures { Tells area.old (values_text (82 ∷ number refusal ∷ [])) area.new }
{
    tell_line(area, b'R', &[refusal as u64])
}

// A n e or M n: an admission.
pub fn tell_admission(area: &mut Area, answer: Result<Admitted, Refusal>)
    requires { area.old.at < 2 ^ 32 }
    ensures { Tells area.old (values_text (admission_values answer)) area.new }
{
    match answer {
        Ok(Admitted::Unmarked { number, extra }) => {
            tell_line(area, b'A', &[number as u64, extra.0])
        },
        Ok(Admitted::Marked { number }) => tell_line(area, b'M', &[number as u64]),
        Err(refusal) => tell_refused(area, refusal),
    }
}

// S n t e k: a start; N otherwise.
fn tell_decision(area: &mut Area, answer: Option<Start>)
    requires { area.old.at < 2 ^ 32 }
    ensures { Tells area.old (values_text (decision_values answer)) area.new }
{
    let Some(start) = answer else {
        return tell_line(area, b'N', &[]);
    };
    tell_line(
        area,
        b'S',
        &[
            start.number as u64,
            start.at.0,
            start.extra.0,
            start.dropped as u64,
        ],
    )
}

// The line of an advance.
pub fn tell_advance(area: &mut Area, answer: Result<Option<Start>, Refusal>)
    requires { area.old.at < 2 ^ 32 }
    ensures { Tells area.old (values_text (advance_values answer)) area.new }
{
    match answer {
        Ok(decision) => tell_decision(area, decision),
        Err(refusal) => tell_refused(area, refusal),
    }
}

// T and the five tallies.
pub fn tell_tallies(area: &mut Area, t: Tallies)
    requires { area.old.at < 2 ^ 32 }
    ensures { Tells area.old (values_text (tally_values t)) area.new }
{
    tell_line(
        area,
        b'T',
        &[
            t.admitted.unmarked as u64,
            t.admitted.marked as u64,
            t.started.unmarked as u64,
            t.started.marked as u64,
            t.dropped as u64,
        ],
    )
}

// X c b r: a refused image.
pub fn tell_refused_image(area: &mut Area, refusal: Refusal, block: u32, index: u32)
    requires { area.old.at < 2 ^ 32 }
    ensures { Tells area.old (values_text (88 ∷ number refusal ∷ block ∷ index ∷ [])) area.new }
{
    tell_line(area, b'X', &[refusal as u64, block as u64, index as u64])
}
