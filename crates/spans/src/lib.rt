// The chance of damage within a span, p and P in billionths rounded both ways, and the table of all spans of a hull's zones.
#![tactic(auto)]

ghost use Rattle.std.specs.Prelude.{◌≡◌, ◌+◌, ◌-◌, ◌≤◌, length, replicate};
ghost use Rattle.std.proofs.lemmas.List.Edits.{sets};
ghost use Rattle.solas.specs.Span.{one, touch, p, PAt};
ghost use Rattle.bands.specs.Bands.{Chance};
ghost use Rattle.spans.specs.Rounded.{ends_of};
ghost use Rattle.spans.specs.Span.{touches, span_ends};
ghost use Rattle.spans.specs.Hull.{Hulled};
ghost use Rattle.spans.specs.Table.{numbers_of, table_of, span_in};

use bands::{Ratio, inner};
use division::billionths;
use records::{Ends, Hull};

// How many numbers a table has: four for each of the 210 spans that 20 zones have. Numbers, and no array of structs: `fill_table` fills any 840 that are lent.
pub const TABLE: usize = 840;

// The ends of p and of P of one span.
#[derive(Clone, Copy)]
pub struct SpanEnds {
    pub inner: Ends,
    pub chance: Ends,
}

// How many ends of the ship the span from aft to fwd touches, by their places.
#[tactic(auto, unfolding(solas::specs::Span::touch))]
pub fn ends_touched(l: u64, aft: u64, fwd: u64) -> u64
    ensures { result ≡ touches (touch l aft fwd) }
{
    u64::from(aft == 0) + u64::from(fwd == l)
}

// P of a span at one end: (p + x/L)/2.
#[tactic(auto, using(crate::proofs::Span::one_end_proper, crate::proofs::Span::part_at_most, crate::proofs::Span::one_end_ends))]
fn at_one_end(l: u64, x: u64, r: Ratio) -> Ends
    requires { (1 ≤ l) × (x ≤ l) × Chance (p l x) l r }
    ensures { result ≡ ends_of (PAt one l x) }
{
    billionths(r.num + x * r.cm, 2 * r.den)
}

// p and P of the span from aft to fwd.
fn span_ends(l: u64, aft: u64, fwd: u64) -> SpanEnds
    requires { (1 ≤ l) × (l ≤ 19800) × (aft ≤ fwd) × (fwd ≤ l) }
    ensures { result ≡ span_ends l aft fwd }
{
    let x = fwd - aft;
    let r = inner(l, x);
    let p = billionths(r.num, r.den);
    let chance = match ends_touched(l, aft, fwd) {
        0 => p,
        2 => Ends {
            lower: 1_000_000_000,
            upper: 1_000_000_000,
        },
        _ => at_one_end(l, x, r),
    };
    SpanEnds { inner: p, chance }
}

// A span's four numbers, from a place of the table on.
#[tactic(auto, using(crate::proofs::Filling::part_set))]
fn put_span(s: SpanEnds, t: &mut [u64], k: usize)
    requires { k + 4 ≤ length t.old }
    ensures { t.new ≡ sets t.old k (numbers_of s) }
{
    let numbers = [s.inner.lower, s.inner.upper, s.chance.lower, s.chance.upper];
    t[k..k + 4].copy_from_slice(&numbers);
}

// Zeros from a place of the table on.
#[tactic(auto, using(crate::proofs::Filling::part_cleared))]
fn clear(t: &mut [u64], from: usize)
    requires { (from ≤ 840) × (length t.old ≡ 840) }
    ensures { t.new ≡ sets t.old from (replicate (840 - from) 0) }
{
    t[from..TABLE].fill(0);
}

// The ends of p and P of every span of a hull's zones, worked out once: by their last zone, and then by their first. The span from zone i to zone j,
// counted from 0, stands at the place k; behind the last are zeros.
#[tactic(auto, using(crate::proofs::Filling::none_begun, crate::proofs::Filling::next_begun))]
pub fn fill_table(h: Hull, t: &mut [u64])
    requires { Hulled h × (length t.old ≡ 840) }
    ensures { t.new ≡ table_of h }
{
    let mut k: usize = 0;
    for j in 0..h.zones {
        for i in 0..=j {
            let s = span_ends(h.length, h.places[i], h.places[j + 1]);
            put_span(s, t, k);
            k += 4;
        }
    }
    clear(t, k);
}

// p and P of the zones from a to e, read from the table.
#[tactic(auto, using(crate::proofs::Table::place_few), unfolding(crate::specs::Table::span_in))]
pub fn span_of(t: &[u64], a: usize, e: usize) -> SpanEnds
    requires { (1 ≤ a) × (a ≤ e) × (e ≤ 20) × (length t.now ≡ 840) }
    ensures { result ≡ span_in t.now a e }
{
    let k = 2 * (e - 1) * e + 4 * (a - 1);
    SpanEnds {
        inner: Ends {
            lower: t[k],
            upper: t[k + 1],
        },
        chance: Ends {
            lower: t[k + 2],
            upper: t[k + 3],
        },
    }
}
