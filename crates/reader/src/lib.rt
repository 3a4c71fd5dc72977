// The lines after the hull in turn, and the entry: any bytes whatever are refused, or counted and their rows kept.
#![tactic(auto)]

ghost use Rattle.std.specs.Prelude.{◌≡◌, ◌+◌, ◌*◌, ◌≤◌, length, drop};
ghost use Rattle.lines.specs.Lines.{lines};
ghost use Rattle.casefile.specs.Limits.{most_rows};
ghost use Rattle.casefile.specs.Reading.{inside, start, read_from, reading};
ghost use Rattle.casefile.specs.Answer.{judgement_of};
ghost use Rattle.casefile.specs.Judging.{stepped, judgement_at};
ghost use Rattle.casefile.specs.Kept.{place_width, Keeps};
ghost use Rattle.casefile.specs.Told.{frame_told, step_told, judgement_told};

use casefile::{Accepted, Fault, Frame, LONGEST_INPUT, PLACE_WIDTH, Progress, Refused};
use lines::iter::Lines;
use records::Hull;

// What a line's frame adds to what is known, or the refusal with the line's number.
fn step(judged: Result<Frame, Fault>, p: Progress, line: u64) -> Result<Progress, Refused>
    requires { p.rows ≤ most_rows }
    ensures { step_told result ≡ stepped (frame_told judged) p line }
{
    match judged {
        Ok(Frame::Row(last)) => Ok(Progress {
            rows: p.rows + 1,
            last,
            ended: false,
        }),
        Ok(Frame::End(_)) => Ok(Progress {
            rows: p.rows,
            last: p.last,
            ended: true,
        }),
        Err(fault) => Err(Refused { fault, line }),
    }
}

// No row is read yet.
fn at_start() -> Progress
    ensures { result ≡ start }
{
    Progress::default()
}

// The lines from a place on: none where that is past the end.
fn lines_from(input: &[u8], from: usize) -> Lines
    ensures { lines result.rest.now ≡ lines (drop from input.now) }
{
    match input.get(from..) {
        Some(rest) => Lines { rest },
        None => Lines { rest: &[] },
    }
}

// The lines from a place on, the first of which has the number that is given: the last step, or the first refusal. Each row is kept.
fn run(input: &[u8], h: Hull, from: usize, first: u64, kept: &mut [u8]) -> Result<Progress, Refused>
    requires { (first ≤ 4294967296) × (place_width * most_rows + place_width ≤ length kept.old) }
    ensures step { judgement_at h (step_told result) ≡ judgement_of (read_from (inside h start) first (lines (drop from input.now))) }
    ensures rows { Keeps (read_from (inside h start) first (lines (drop from input.now))) kept.new }
{
    let mut p = at_start();
    let mut number = first;
    for line in lines_from(input, from) {
        let place = p.rows as usize * PLACE_WIDTH;
        let after = place + PLACE_WIDTH;
        let frame = judging::judge_line(line.text, line.closed, h, p, &mut kept[place..after]);
        // `let .. else`, where `?` would do: the scope names this form for this place.
        let stepped = step(frame, p, number);
        let Ok(next) = stepped else {
            return stepped;
        };
        p = next;
        number += 1;
    }
    if p.ended {
        return Ok(p);
    }
    Err(Refused {
        fault: Fault::NoEnd,
        line: number,
    })
}

// The rows and the end of a file whose hull is known, from a place on.
#[tactic(auto, using(std::proofs::lemmas::Result::err_from_is_err_and))]
pub fn judge_rows(
    input: &[u8],
    h: Hull,
    from: usize,
    first: u64,
    kept: &mut [u8],
) -> Result<Accepted, Refused>
    requires { (first ≤ 4294967296) × (place_width * most_rows + place_width ≤ length kept.old) }
    ensures judgement { judgement_told result ≡ judgement_of (read_from (inside h start) first (lines (drop from input.now))) }
    ensures rows { Keeps (read_from (inside h start) first (lines (drop from input.now))) kept.new }
{
    let p = run(input, h, from, first, kept)?;
    Ok(Accepted {
        rows: p.rows,
        hull: h,
    })
}

// Any bytes whatever: a refusal, or the row count and the hull, with the rows kept in the buffer that is lent.
pub fn judge(input: &[u8], kept: &mut [u8]) -> Result<Accepted, Refused>
    requires { place_width * most_rows + place_width ≤ length kept.old }
    ensures judgement { judgement_told result ≡ judgement_of (reading input.now) }
    ensures rows { Keeps (reading input.now) kept.new }
{
    let n = input.len();
    if LONGEST_INPUT < n {
        return Err(Refused {
            fault: Fault::TooLong,
            line: 0,
        });
    }
    if n == 0 {
        return Err(Refused {
            fault: Fault::NoEnd,
            line: 1,
        });
    }
    let end = lines::line_end(input, 0);
    let closed = end < n;
    match hulls::judge_first(&input[..end], closed) {
        Ok(h) => judge_rows(input, h, end + 1, 2, kept),
        Err(fault) => Err(Refused { fault, line: 1 }),
    }
}
