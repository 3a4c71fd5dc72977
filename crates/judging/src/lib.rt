// A line after the hull, judged by the table's order: a refusal, or the frame that it holds.
#![tactic(auto)]

ghost use Rattle.std.specs.Prelude.{◌≡◌, ◌≤◌, ◌<◌, length};
ghost use Rattle.std.proofs.lemmas.List.Edits.{sets};
ghost use Rattle.hexadecimal.specs.Hex.{bytes_of};
ghost use Rattle.casefile.specs.Layout.{takes};
ghost use Rattle.casefile.specs.Answer.{judged};
ghost use Rattle.casefile.specs.Judging.{frame_judged};
ghost use Rattle.casefile.specs.Kept.{place_width};
ghost use Rattle.casefile.specs.Told.{frame_told};

use casefile::{Fault, Frame, PLACE_WIDTH, Progress};
use records::Hull;
use rowlines::readers::frame_length;

mod ends; // the end
mod row; // a row

// Whether a frame of a kind is a row that a hull takes: a passenger ship's are of kind 07 alone.
#[tactic(auto, unfolding(casefile::specs::Layout::takes))]
fn is_taken(hull: u64, kind: u64) -> bool
    ensures { result ≡ takes hull kind }
{
    if hull == 6 {
        return kind == 7;
    }
    (kind == 2) | (kind == 3) | (kind == 5)
}

// A frame after the hull: 02, 03, 05 and 07 are rows, refused where the hull does not take them, and 0f is the end.
#[tactic(auto, using(casefile::proofs::RowKinds::of_taken, rowlines::proofs::CodeFrames::wrong_length, rowlines::proofs::CodeFrames::results_go_in, crate::proofs::CodeJudging::frame_wrong, crate::proofs::CodeJudging::frame_row, crate::proofs::CodeJudging::frame_end, crate::proofs::CodeJudging::frame_not_taken, crate::proofs::CodeJudging::frame_other))]
fn judge_frame(frame: &[u8], h: Hull, p: Progress) -> Result<Frame, Fault>
    requires { 0 < length frame.now }
    ensures { frame_told result ≡ frame_judged h p frame.now }
{
    let kind = fields::byte_at(frame, 0);
    if frame.len() != frame_length(kind) {
        return Err(Fault::WrongFrame);
    }
    match kind {
        2 | 3 | 5 | 7 => {
            if !is_taken(h.kind, kind) {
                return Err(Fault::WrongFrame);
            }
            row::judge_row(kind, &frame[1..], h, p)
        }
        15 => ends::judge_end(&frame[1..], h, p),
        _ => Err(Fault::WrongFrame),
    }
}

// A line after the hull h and what the lines before it left. What it writes goes to the front of the place that is lent, as many bytes as go in.
#[tactic(auto, using(frames::proofs::CodeDecoding::badly_written_lem, frames::proofs::CodeDecoding::front_decoded, frames::proofs::CodeDecoding::front_long, frames::proofs::CodeDecoding::some_bytes, crate::proofs::CodeJudging::line_after_end, crate::proofs::CodeJudging::line_not_closed, crate::proofs::CodeJudging::line_no_digits, crate::proofs::CodeJudging::line_decoded))]
pub fn judge_line(
    text: &[u8],
    closed: bool,
    h: Hull,
    p: Progress,
    place: &mut [u8],
) -> Result<Frame, Fault>
    requires { place_width ≤ length place.old }
    ensures frame { frame_told result ≡ judged h p (record { text = text.now; closed = closed }) }
    ensures kept { place.new ≡ sets place.old 0 (bytes_of text.now) }
{
    let written = frames::decode_text(text, place);
    if p.ended {
        return Err(Fault::NoEnd);
    }
    if !closed {
        return Err(Fault::BadlyWritten);
    }
    let Some(n) = written else {
        return Err(Fault::BadlyWritten);
    };
    if PLACE_WIDTH < n {
        return Err(Fault::WrongFrame);
    }
    judge_frame(&place[..n], h, p)
}
