// The rows of a file in turn: each one's line in a report, and the sums of what they add.
ghost use Rattle.std.specs.Prelude.{◌≡◌, ◌+◌, ◌*◌, ◌^◌, ◌≤◌, length};
ghost use Rattle.digits.specs.Splice.{splice};
ghost use Rattle.printing.specs.Printed.{row_lines};
ghost use Rattle.indices.specs.Index.{partials, Within};
ghost use Rattle.casefile.specs.Kept.{kept_rows};
ghost use Rattle.rows.specs.Standing.{nowhere};
ghost use Rattle.rows.specs.Work.{adds_from, lines_from};

use super::kept_rows::KeptRows;
use super::row::begin;
use printing::put_row;
use records::Ends;

// A line of 25 bytes a row, from a place on.
pub fn print(rows: &KeptRows, out: &mut [u8], from: usize) -> [Ends; 3]
    requires { from + 25 * rows.now.count ≤ length out.old }
    ensures { (result ≡ partials (adds_from rows.now.kept.ship.hull nowhere (kept_rows rows.now.count rows.now.kept.bytes.now 0))) × Within (500 * 10 ^ 9) result × (out.new ≡ splice from (row_lines (lines_from rows.now.kept.ship.hull nowhere (kept_rows rows.now.count rows.now.kept.bytes.now 0))) out.old) }
{
    let mut s = begin();
    for i in 0..rows.count {
        s = rows.kept.enter(s, i);
        put_row(s.part.share, s.survivals, out, from + 25 * i);
    }
    s.sums
}
