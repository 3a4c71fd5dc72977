// Line 1: the hull that it gives, or a refusal.
#![tactic(auto)]

ghost use Rattle.std.specs.Prelude.{◌≡◌};
ghost use Rattle.casefile.specs.Layout.{hull_of};
ghost use Rattle.casefile.specs.Answer.{first_judged};
ghost use Rattle.casefile.specs.Judging.{hull_number, hull_judged};
ghost use Rattle.casefile.specs.Told.{checks_told, first_told};

use casefile::Fault;
use records::Hull;

mod readers; // the hull's record from fields

// A hull on its record, with the bytes of its frame: refused by the first check that holds.
#[tactic(auto, using(crate::proofs::CodeOpening::sizes_wrong, crate::proofs::CodeOpening::persons_wrong, crate::proofs::CodeOpening::zones_wrong, crate::proofs::CodeOpening::length_wrong, crate::proofs::CodeOpening::hull_right, crate::proofs::CodeOpening::few_zones))]
fn check_hull(h: Hull, n: usize) -> Result<(), Fault>
    ensures { checks_told result ≡ hull_number h n }
{
    let m = h.zones;
    if !limits::sizes_fit(h) {
        return Err(Fault::Sizes);
    }
    if !limits::persons_fit(h) {
        return Err(Fault::PersonsBand);
    }
    if !limits::zones_fit(h) {
        return Err(Fault::Zones);
    }
    if n != readers::hull_length(h.kind, m) {
        return Err(Fault::Zones);
    }
    Ok(())
}

// The hull of a kind from the fields of its frame, which has n bytes.
#[tactic(auto, using(std::proofs::lemmas::Result::err_from_is_err_and, casefile::proofs::Told::some_number, crate::proofs::CodeOpening::hull_refused, crate::proofs::CodeOpening::hull_given))]
fn judge_hull(kind: u64, f: &[u8], n: usize) -> Result<Hull, Fault>
    ensures { first_told result ≡ hull_judged (hull_of kind f.now) n }
{
    let h = readers::hull(kind, f);
    check_hull(h, n)?;
    Ok(h)
}

// Line 1: its hull. However long the line is, 55 bytes hold all that a hull record has.
#[tactic(auto, using(frames::proofs::CodeDecoding::badly_written_lem, frames::proofs::CodeDecoding::stored, crate::proofs::CodeOpening::first_not_closed, crate::proofs::CodeOpening::first_no_digits, crate::proofs::CodeOpening::first_short, crate::proofs::CodeOpening::first_other, crate::proofs::CodeOpening::kind_stored))]
pub fn judge_first(text: &[u8], closed: bool) -> Result<Hull, Fault>
    ensures { first_told result ≡ first_judged (record { text = text.now; closed = closed }) }
{
    if !closed {
        return Err(Fault::BadlyWritten);
    }
    let mut bytes = [0u8; 55];
    let Some(n) = frames::decode_text(text, &mut bytes) else {
        return Err(Fault::BadlyWritten);
    };
    let kind = fields::byte_at(&bytes, 0);
    if n < readers::hull_length(kind, 1) {
        return Err(Fault::WrongFrame);
    }
    match kind {
        1 | 6 => judge_hull(kind, &bytes[1..], n),
        _ => Err(Fault::WrongFrame),
    }
}
