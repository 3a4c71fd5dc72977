// A row after those before it: where it stands, its share, its survivals, and what it adds.
ghost use Rattle.std.specs.Prelude.{◌≡◌, ◌+◌, ◌*◌, ◌^◌, ◌≤◌, length, false};
ghost use Rattle.indices.specs.Index.{Given, Within};
ghost use Rattle.rows.specs.Standing.{stands};
ghost use Rattle.casefile.specs.Kept.{place_width, kept_row};
ghost use Rattle.casefile.specs.Order.{same_layer};
ghost use Rattle.chances.specs.Share.{Few};
ghost use Rattle.rows.specs.Work.{sums_at, part_at};
ghost use Rattle.rows.specs.Running.{Stood, begun, entered};

use super::kept_rows::Kept;
use super::survivals::survivals_of;
use super::{Part, Running, Standing};
use chances::{Sums, row_ends};
use groups::subdivision::Subdivision;
use records::RowHead;
use rowlines::kept::row_at;

// Where a row stands after one that stood at y.
fn next(y: Standing, r: RowHead) -> Standing
    ensures { result ≡ stands y r }
{
    let last = y.head;
    if (r.first, r.count) == (last.first, last.count) {
        if r.depth == last.depth {
            return Standing {
                head: r,
                before: y.before,
                below: last.height,
            };
        }
        return Standing {
            head: r,
            before: last.depth,
            below: 0,
        };
    }
    Standing {
        head: r,
        before: 0,
        below: 0,
    }
}

// The part of a row that stands at z in another layer than the one before it, which stood at y: what the group came to down to the layer before is
// known, or nothing where there is none.
fn next_part(ship: &Subdivision, y: Standing, group: Sums, z: Standing) -> Part
    requires { Stood ship.now.hull z × (group ≡ sums_at ship.now.hull y) × Few group × (z ≡ stands y z.head) × (same_layer y.head z.head ≡ false) }
    ensures { (result ≡ part_at ship.now.hull z) × Few result.group }
{
    let row = z.head;
    let now = ship.sums_at(row.first as usize, row.count as usize, row.depth);
    if z.before == 0 {
        return Part {
            group: now,
            share: row_ends(Sums::default(), now),
        };
    }
    Part {
        group: now,
        share: row_ends(group, now),
    }
}

// The part of the row that stands at z: that of the row before it where both are in one layer.
fn part_after(ship: &Subdivision, y: Standing, part: Part, z: Standing) -> Part
    requires { Stood ship.now.hull z × (part ≡ part_at ship.now.hull y) × Few part.group × (z ≡ stands y z.head) }
    ensures { (result ≡ part_at ship.now.hull z) × Few result.group }
{
    let last = y.head;
    let row = z.head;
    if (row.first, row.count, row.depth) == (last.first, last.count, last.depth) {
        return part;
    }
    let group = part.group;
    next_part(ship, y, group, z)
}

// Before the first row.
pub fn begin() -> Running
    ensures { result ≡ begun }
{
    Running::default()
}

impl<'a> Kept<'a> {
    // One row more: the one that is kept at place i.
    pub fn enter(&self, s: Running, i: usize) -> Running
        requires { (place_width * i + place_width ≤ length self.now.bytes.now) × Stood self.now.ship.hull (stands s.standing (kept_row self.now.bytes.now i).head) × Given (kept_row self.now.bytes.now i).results × (s.part ≡ part_at self.now.ship.hull s.standing) × Few s.part.group × Within (2 ^ 61) s.sums }
        ensures { (result ≡ entered self.now.ship.hull s (kept_row self.now.bytes.now i).head (kept_row self.now.bytes.now i).results) × Few result.part.group }
    {
        let row = row_at(self.bytes, i);
        let head = row.head();
        let standing = next(s.standing, head);
        let part = part_after(&self.ship, s.standing, s.part, standing);
        let survivals = survivals_of(&row);
        let adds = sums::row(
            part.share,
            standing.below,
            head.height,
            self.draughts,
            survivals,
        );
        let sums = sums::sum(s.sums, adds);
        Running {
            standing,
            part,
            survivals,
            sums,
        }
    }
}
