// The ends of rows' shares, from a hull and rows that a host gives as numbers: the span table is made once, and no file is read.
ghost use Rattle.std.specs.Prelude.{◌≡◌, ◌&&◌, ◌+◌, ◌*◌, ◌≤◌, leb, length};
ghost use Rattle.std.proofs.lemmas.List.Edits.{sets};
ghost use Rattle.laws.specs.Lists.{tabulate};
ghost use Rattle.casefile.specs.Limits.{head_fits};
ghost use Rattle.probes.specs.Shares.{number, hull_in, hull_fits, head_with, share_in, share_at, shares_from, rows_told};

use groups::subdivision::Subdivision;
use records::{Ends, Hull, RowHead};
use spans::TABLE;
use std::array;

fn number_at(ns: &[u64], k: usize) -> u64
    ensures { result ≡ number ns.now k }
{
    ns.get(k).copied().unwrap_or(0)
}

fn places_in(ns: &[u64]) -> [u64; 21]
    ensures { result ≡ tabulate (λ k. number ns.now (6 + k)) 21 }
{
    array::from_fn(|k| number_at(ns, 6 + k))
}

#[tactic(auto, unfolding(crate::specs::Shares::hull_in))]
fn hull_in(ns: &[u64]) -> Hull
    ensures { result ≡ hull_in ns.now }
{
    let places = places_in(ns);
    Hull {
        kind: number_at(ns, 0),
        length: number_at(ns, 1),
        breadth: number_at(ns, 2),
        deepest: number_at(ns, 3),
        light: number_at(ns, 4),
        lifeboats: 0,
        excess: 0,
        rule: 0,
        zones: number_at(ns, 5) as usize,
        places,
    }
}

fn hull_fits(h: Hull) -> bool
    ensures { result ≡ hull_fits h }
{
    limits::sizes_fit(h) & limits::zones_fit(h)
}

// Whether the hull has a row of that group in the layer from b1 to b2.
fn row_fits(h: Hull, a: u64, n: u64, b1: u64, b2: u64) -> bool
    ensures { result ≡ (head_fits h (head_with a n b2) && leb b1 b2) }
{
    let head = RowHead {
        kind: 3,
        first: a,
        count: n,
        depth: b2,
        height: 1,
    };
    limits::head_fits(h, head) & (b1 <= b2)
}

#[tactic(auto, using(crate::proofs::Told::no_row, crate::proofs::Told::has_share, crate::proofs::Told::row_asked))]
fn share_in(ship: &Subdivision, a: u64, n: u64, b1: u64, b2: u64) -> Ends
    ensures { result ≡ share_in ship.now.hull a n b1 b2 }
{
    if row_fits(ship.hull, a, n, b1, b2) {
        ship.share_ends(a as usize, n as usize, b1, b2)
    } else {
        Ends::default()
    }
}

// The share of the row whose four numbers stand at a place.
#[tactic(auto, unfolding(crate::specs::Shares::share_at))]
fn share_at(ship: &Subdivision, rows: &[u64], at: usize) -> Ends
    requires { at + 4 ≤ length rows.now }
    ensures { result ≡ share_at ship.now.hull rows.now at }
{
    share_in(ship, rows[at], rows[at + 1], rows[at + 2], rows[at + 3])
}

// So many rows in turn, two numbers of each.
#[tactic(auto, using(crate::proofs::Told::none_told, crate::proofs::Told::all_told))]
fn put_shares(ship: &Subdivision, rows: &[u64], count: usize, out: &mut [u64])
    requires { (4 * count ≤ length rows.now) × (2 * count ≤ length out.old) }
    ensures { out.new ≡ sets out.old 0 (shares_from ship.now.hull rows.now 0 count) }
{
    for i in 0..count {
        let e = share_at(ship, rows, 4 * i);
        let k = 2 * i;
        out[k] = e.lower;
        out[k + 1] = e.upper;
    }
}

// The share ends of rows, each by a, n, the penetration before and its own; how many rows that is, none where the hull does not fit.
#[tactic(auto, using(crate::proofs::Told::none_asked, crate::proofs::Told::room, crate::proofs::Told::rows_asked))]
#[unsafe(no_mangle)]
pub extern "C" fn probe_shares(hull: &[u64], rows: &[u64], out: &mut [u64]) -> usize
    ensures count { result ≡ rows_told (hull_in hull.now) rows.now out.old }
    ensures shares { out.new ≡ sets out.old 0 (shares_from (hull_in hull.now) rows.now 0 result) }
{
    let h = hull_in(hull);
    if !hull_fits(h) {
        return 0;
    }
    let count = (rows.len() / 4).min(out.len() / 2);
    let mut t = [0u64; TABLE];
    spans::fill_table(h, &mut t);
    let ship = Subdivision { hull: h, table: &t };
    put_shares(&ship, rows, count, out);
    count
}
