// The whole run on bytes, image in and text out: `tell` and, for C hosts, `whole_run` are public calls.
#![tactic(auto)]

ghost use Rattle.std.specs.Prelude.{◌≡◌, ◌≤◌};
ghost use Rattle.block_image.specs.Image.{judged};
ghost use Rattle.text_lines.specs.Told.{Told};
ghost use Rattle.run.specs.Text.{text_of};
ghost use Rattle.run.specs.Most.{text_most, most_of};
ghost use Rattle.run.specs.Ran.{Answers, Tells};

use block::BLOCK;
use block_header::RECORDS_MOST;
use block_image::{BLOCKS_MOST, ImageRefusal, Trace, judge_image};
use refusals::Refusal;
use run_events::tell_trace;
use text_answers::tell_refused_image;
use text_digits::Area;

// No image is longer.
pub const IMAGE_MOST: usize = BLOCKS_MOST * BLOCK;

// No event's line is longer than this, nor the tally line than that.
const LINE_MOST: usize = 35;

const TALLY_MOST: usize = 27;

// No text is longer.
pub const TEXT_MOST: usize = LINE_MOST * BLOCKS_MOST * RECORDS_MOST + TALLY_MOST;

// No text of an image that is judged so is longer. A refused image's line is no longer than a tally line.
fn most_of(judgement: Result<Trace, ImageRefusal>) -> usize
    requires { most_of judgement ≤ text_most }
    ensures { result ≡ most_of judgement }
{
    match judgement {
        Ok(trace) => LINE_MOST * trace.events + TALLY_MOST,
        Err(_) => TALLY_MOST,
    }
}

// Tells the text of an image that is judged so.
fn tell_judged(image: &[u8], judgement: Result<Trace, ImageRefusal>, answer: &mut [u8]) -> usize
    requires { judgement ≡ judged image.now }
    ensures { Told answer.old 0 (text_of image.now) answer.new result }
{
    match judgement {
        Ok(trace) => tell_trace(image, trace.settings, trace.events, answer),
        Err(x) => {
            let mut area = Area { out: answer, at: 0 };
            tell_refused_image(&mut area, x.refusal, x.block, x.record);
            area.at
        },
    }
}

// Tells the text of an image at the start of the area, and returns the text's length; where the area is shorter than that, nothing is
// written. An area that is large enough for any text of so many events spares the measuring.
pub fn tell(image: &[u8], answer: &mut [u8]) -> Result<usize, Refusal>
    ensures { Tells (text_of image.now) answer.old answer.new result }
{
    let judgement = judge_image(image);
    if answer.len() < most_of(judgement) {
        let mut none = [0u8; 1];
        if answer.len() < tell_judged(image, judgement, &mut none) {
            return Err(Refusal::AnswerShort);
        }
    }
    Ok(tell_judged(image, judgement, answer))
}

// The same for C hosts: the text's length, or -32 where the area is shorter than that.
pub fn whole_run(image: &[u8], answer: &mut [u8]) -> i64
    ensures { Answers (text_of image.now) answer.old answer.new result }
{
    match tell(image, answer) {
        Ok(length) => length as i64,
        Err(refusal) => -(refusal as i64),
    }
}
