// The workings of any bytes that are accepted, as numbers for a host: twenty a row; R with the mark of a partial index; each group's share.
#![tactic(auto)]

ghost use Rattle.std.specs.Prelude.{◌≡◌, ◌++◌, ◌+◌, ◌*◌, ◌≤◌, length, drop};
ghost use Rattle.printing.specs.Written.{written_in};
ghost use Rattle.casefile.specs.Kept.{place_width, kept_rows};
ghost use Rattle.casefile.specs.Reading.{reading};
ghost use Rattle.casefile.specs.Valid.{Valid};
ghost use Rattle.spans.specs.Hull.{Hulled};
ghost use Rattle.rows.specs.Standing.{nowhere};
ghost use Rattle.listing.specs.Hull.{group_numbers};
ghost use Rattle.listing.specs.Rows.{numbers_from};
ghost use Rattle.answers.specs.Report.{rows_in, required_in, groups_in};
ghost use Rattle.index.specs.Kept.{kept_case};
ghost use Rattle.workings.specs.Told.{told_in};

use casefile::{Accepted, KEPT};
use groups::subdivision::Subdivision;
use records::Hull;
use rows::kept_rows;
use spans::TABLE;

// A valid case, by its file and its rows as they are kept, with room for twenty numbers a row.
fn put_rows(kept: &[u8], file: Accepted, out: &mut [u64])
    requires { Valid (kept_case kept.now file.hull file.rows) × (place_width * file.rows ≤ length kept.now) × (20 * file.rows ≤ length out.old) }
    ensures { out.new ≡ numbers_from file.hull nowhere (kept_rows file.rows kept.now 0) ++ drop (20 * file.rows) out.old }
{
    let mut t = [0u64; TABLE];
    spans::fill_table(file.hull, &mut t);
    let ship = Subdivision {
        hull: file.hull,
        table: &t,
    };
    listing::list(&kept_rows::of(ship, kept, file.rows as usize), out);
}

// Twenty numbers a row, in front of what is lent, and how many that is: none where the bytes are refused or there is too little room.
pub fn rows(input: &[u8], out: &mut [u64]) -> Option<usize>
    ensures { (result ≡ told_in (reading input.now) (rows_in (reading input.now)) out.old) × (out.new ≡ written_in (rows_in (reading input.now)) out.old) }
{
    let mut kept = [0u8; KEPT];
    let Ok(file) = reader::judge(input, &mut kept) else {
        return None;
    };
    let n = 20 * (file.rows as usize);
    if out.len() < n {
        return None;
    }
    put_rows(&kept, file, out);
    Some(n)
}

// R and the mark, numerator and denominator of each, in front of what is lent, and how many numbers that is: none where the bytes are refused or there is
// too little room.
pub fn required(input: &[u8], out: &mut [u64]) -> Option<usize>
    ensures { (result ≡ told_in (reading input.now) (required_in (reading input.now)) out.old) × (out.new ≡ written_in (required_in (reading input.now)) out.old) }
{
    let mut kept = [0u8; KEPT];
    let Ok(file) = reader::judge(input, &mut kept) else {
        return None;
    };
    if out.len() < 4 {
        return None;
    }
    let h = file.hull;
    listing::hull::put_required(h, out);
    Some(4)
}

// A hull's groups, with room for two numbers each.
fn put_groups(h: Hull, out: &mut [u64])
    requires { Hulled h × (h.zones * (h.zones + 1) ≤ length out.old) }
    ensures { out.new ≡ group_numbers h ++ drop (h.zones * (h.zones + 1)) out.old }
{
    let mut t = [0u64; TABLE];
    spans::fill_table(h, &mut t);
    listing::hull::put_groups(&Subdivision { hull: h, table: &t }, out);
}

// The ends of each group's share, in front of what is lent, and how many numbers that is: none where the bytes are refused or there is too little room.
pub fn groups(input: &[u8], out: &mut [u64]) -> Option<usize>
    ensures { (result ≡ told_in (reading input.now) (groups_in (reading input.now)) out.old) × (out.new ≡ written_in (groups_in (reading input.now)) out.old) }
{
    let mut kept = [0u8; KEPT];
    let Ok(file) = reader::judge(input, &mut kept) else {
        return None;
    };
    let h = file.hull;
    let n = h.zones * (h.zones + 1);
    if out.len() < n {
        return None;
    }
    put_groups(h, out);
    Some(n)
}
