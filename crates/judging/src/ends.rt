// The end, judged after the rows before it by the table's order: refusals 6 and 9.
ghost use Rattle.std.specs.Prelude.{◌≡◌};
ghost use Rattle.fields.specs.Fields.{word_at};
ghost use Rattle.casefile.specs.Table.{first_holds, end_checks};
ghost use Rattle.casefile.specs.Judging.{end_judged};
ghost use Rattle.casefile.specs.Told.{checks_told, frame_told};

use casefile::{Fault, Frame, Progress};
use records::Hull;

// With the count that it gives: refused by the first check that holds.
#[tactic(auto, using(crate::proofs::CodeJudging::end_miscounts))]
fn check_end(h: Hull, p: Progress, count: u64) -> Result<(), Fault>
    ensures { checks_told result ≡ first_holds (end_checks h p count) }
{
    let last = p.last;
    if count != p.rows {
        return Err(Fault::Count);
    }
    if order::ends_open(h, last) {
        return Err(Fault::LeftOpen);
    }
    Ok(())
}

// The number of that check, 0 where none holds.
pub fn end_number(h: Hull, p: Progress, count: u64) -> u64
    ensures { result ≡ first_holds (end_checks h p count) }
{
    match check_end(h, p, count) {
        Ok(()) => 0,
        Err(fault) => u64::from(fault),
    }
}

// From the fields of its frame.
#[tactic(auto, using(std::proofs::lemmas::Result::err_from_is_err_and, casefile::proofs::Told::some_number, crate::proofs::CodeJudging::end_wrong, crate::proofs::CodeJudging::end_right))]
pub fn judge_end(f: &[u8], h: Hull, p: Progress) -> Result<Frame, Fault>
    ensures { frame_told result ≡ end_judged h p (word_at f.now 0) }
{
    let count = fields::word_at(f, 0);
    check_end(h, p, count)?;
    Ok(Frame::End(count))
}
