// What a host is told as numbers: twenty for each row of a file; and by its hull R with the mark of a partial index, and each group's share.
#![tactic(auto)]

ghost use Rattle.std.specs.Prelude.{◌≡◌, [], ◌∷◌, ◌++◌, ◌+◌, ◌*◌, ◌≤◌, length, drop};
ghost use Rattle.std.proofs.lemmas.List.Edits.{sets};
ghost use Rattle.heights.specs.Height.{row_vs};
ghost use Rattle.indices.specs.Index.{Share, Weights, RowWeights, adds_of};
ghost use Rattle.casefile.specs.Kept.{kept_rows};
ghost use Rattle.rows.specs.Standing.{nowhere};
ghost use Rattle.listing.specs.Rows.{six_numbers, row_numbers, numbers_from};

use hull::put_ends;
use printing::mark_byte;
use records::{Ends, Hull, Survival};
use rows::Running;
use rows::kept_rows::KeptRows;
use rows::row::begin;

pub mod hull; // what the hull alone decides

// A row's six numbers at one draught, by its share, its v and its survival there.
#[tactic(auto, using(crate::proofs::InNumbers::six_told, crate::proofs::InNumbers::copied), unfolding(crate::specs::Rows::six_numbers))]
fn put_draught(share: Ends, v: u64, s: Survival, out: &mut [u64], at: usize)
    requires { Share share × Weights v s × (at + 6 ≤ length out.old) }
    ensures { out.new ≡ sets out.old at (six_numbers v s (adds_of share v s.bottom s.top)) }
{
    let adds = sums::adds(share, v, s);
    out[at..at + 6].copy_from_slice(&[
        v,
        s.bottom,
        s.top,
        mark_byte(s.marks),
        adds.lower,
        adds.upper,
    ]);
}

// Its twenty, by its share, its v and its survival at each draught.
fn put_row(share: Ends, vs: [u64; 3], ss: [Survival; 3], out: &mut [u64], at: usize)
    requires { Share share × RowWeights vs ss × (at + 20 ≤ length out.old) }
    ensures { out.new ≡ sets out.old at (row_numbers share vs ss) }
{
    put_ends(share, out, at);
    for (j, &s) in ss.iter().enumerate() {
        put_draught(share, vs[j], s, out, at + 2 + 6 * j);
    }
}

// Those of the row that was entered last, at these draughts.
#[tactic(auto, using(crate::proofs::InNumbers::row_put_with))]
fn put_entered(s: Running, draughts: [u64; 3], out: &mut [u64], at: usize)
    requires { Share s.part.share × RowWeights (row_vs s.standing.below s.standing.head.height draughts) s.survivals × (at + 20 ≤ length out.old) }
    ensures { out.new ≡ sets out.old at (row_numbers s.part.share (row_vs s.standing.below s.standing.head.height draughts) s.survivals) }
{
    let standing = s.standing;
    let vs = heights::row_factors(standing.below, standing.head.height, draughts);
    put_row(s.part.share, vs, s.survivals, out, at);
}

// Twenty numbers a row.
pub fn list(rows: &KeptRows, out: &mut [u64])
    requires { 20 * rows.now.count ≤ length out.old }
    ensures { out.new ≡ numbers_from rows.now.kept.ship.hull nowhere (kept_rows rows.now.count rows.now.kept.bytes.now 0) ++ drop (20 * rows.now.count) out.old }
{
    let mut s = begin();
    for i in 0..rows.count {
        s = rows.kept.enter(s, i);
        put_entered(s, rows.kept.draughts, out, 20 * i);
    }
}
