// The rows of a file in turn: each one's share on the sheet, and the sums of what they add.
ghost use Rattle.std.specs.Prelude.{◌≡◌, ◌++◌, ◌*◌, ◌^◌, ◌≤◌, length, drop};
ghost use Rattle.indices.specs.Index.{partials, Within};
ghost use Rattle.casefile.specs.Kept.{kept_rows};
ghost use Rattle.rows.specs.Standing.{nowhere};
ghost use Rattle.rows.specs.Work.{shares_from, adds_from, numbers};

use super::kept_rows::KeptRows;
use super::row::begin;
use records::Ends;

// Two numbers a row on the sheet. This walk, the one in `report_lines` and the one in `listing` differ in what they leave of each row: a closure for that
// is no plainer, since a proof knows nothing of what a closure wrote into a slice that it borrowed.
pub fn fill(rows: &KeptRows, sheet: &mut [u64]) -> [Ends; 3]
    requires { 2 * rows.now.count ≤ length sheet.old }
    ensures { (result ≡ partials (adds_from rows.now.kept.ship.hull nowhere (kept_rows rows.now.count rows.now.kept.bytes.now 0))) × Within (500 * 10 ^ 9) result × (sheet.new ≡ numbers (shares_from rows.now.kept.ship.hull nowhere (kept_rows rows.now.count rows.now.kept.bytes.now 0)) ++ drop (2 * rows.now.count) sheet.old) }
{
    let mut s = begin();
    for i in 0..rows.count {
        s = rows.kept.enter(s, i);
        let k = 2 * i;
        sheet[k] = s.part.share.lower;
        sheet[k + 1] = s.part.share.upper;
    }
    s.sums
}
