// A row, judged after the rows before it by the table's order: refusals 6, 7, 8 and 9.
ghost use Rattle.std.specs.Prelude.{◌≡◌, ◌+◌, ◌*◌, ◌≤◌, length};
ghost use Rattle.casefile.specs.Layout.{result_length, result_count, flooding_length, flooding_count, head_of, results_of};
ghost use Rattle.casefile.specs.Limits.{results_fit};
ghost use Rattle.casefile.specs.Judging.{row_number, row_judged};
ghost use Rattle.casefile.specs.Told.{checks_told, frame_told};

use casefile::{Fault, Frame, Progress};
use records::{Hull, RowHead};
use rowlines::readers;

// Whether the results of a row of a kind fit, from the fields of its frame: a set, of kind 05 a second, and of kind 07 what it tells besides.
#[tactic(auto, using(rowlines::proofs::CodeReaders::part_long, crate::proofs::CodeJudging::first_goes_in, crate::proofs::CodeJudging::second_goes_in, crate::proofs::CodeJudging::floodings_go_in, crate::proofs::CodeJudging::one_set_fits, crate::proofs::CodeJudging::two_sets_fit, crate::proofs::CodeJudging::set_and_floodings_fit))]
fn results_fit(kind: u64, f: &[u8]) -> bool
    requires { 6 + result_count kind * result_length kind + flooding_count kind * flooding_length ≤ length f.now }
    ensures { result ≡ results_fit (results_of kind f.now) }
{
    let first = limits::set_fits(readers::set(kind, &f[6..]));
    if kind == 5 {
        return first & limits::set_fits(readers::set(kind, &f[30..]));
    }
    if kind == 7 {
        return first & limits::floodings_fit(readers::floodings(&f[30..]));
    }
    first
}

// A row by its head, and by whether its results fit, after the rows before it: refused by the first check that holds.
#[tactic(auto, using(crate::proofs::CodeJudging::both_fit, crate::proofs::CodeJudging::row_too_many, crate::proofs::CodeJudging::row_outside, crate::proofs::CodeJudging::row_disordered))]
fn check_row(h: Hull, p: Progress, head: RowHead, fit: bool) -> Result<(), Fault>
    ensures { checks_told result ≡ row_number h p head fit }
{
    let last = p.last;
    if 500 <= p.rows {
        return Err(Fault::Count);
    }
    if !(limits::head_fits(h, head) & fit) {
        return Err(Fault::Limits);
    }
    if order::out_of_order(h, last, head) {
        return Err(Fault::OutOfOrder);
    }
    if order::leaves_open(h, last, head) {
        return Err(Fault::LeftOpen);
    }
    Ok(())
}

// A row of a kind, from the fields of its frame.
#[tactic(auto, using(std::proofs::lemmas::Result::err_from_is_err_and, casefile::proofs::Told::some_number, crate::proofs::CodeJudging::row_wrong, crate::proofs::CodeJudging::row_right))]
pub fn judge_row(kind: u64, f: &[u8], h: Hull, p: Progress) -> Result<Frame, Fault>
    requires { 6 + result_count kind * result_length kind + flooding_count kind * flooding_length ≤ length f.now }
    ensures { frame_told result ≡ row_judged h p (record { head = head_of kind f.now; results = results_of kind f.now }) }
{
    let head = readers::head(kind, f);
    let fit = results_fit(kind, f);
    check_row(h, p, head, fit)?;
    Ok(Frame::Row(head))
}
