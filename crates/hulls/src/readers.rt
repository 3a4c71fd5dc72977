// The hull's record from the fields of its frame: the part of its bytes after the kind byte.
ghost use Rattle.std.specs.Prelude.{◌≡◌, ◌+◌, ◌*◌, ◌≤◌, ◌<◌};
ghost use Rattle.fields.specs.Fields.{word_at};
ghost use Rattle.casefile.specs.Layout.{persons_length, hull_length, place_of, places_of, hull_of};

use records::Hull;
use std::array;

// The bytes of a passenger ship's persons and of the rule by which they count.
fn persons_length(kind: u64) -> usize
    ensures value { result ≡ persons_length kind }
    ensures few { result ≤ 5 }
{
    if kind == 6 { 5 } else { 0 }
}

// The bytes of a hull of m zones.
pub fn hull_length(kind: u64, m: usize) -> usize
    requires { m ≤ 20 }
    ensures { result ≡ hull_length kind m }
{
    8 + persons_length(kind) + 2 * m
}

// One of the 21 places, where the first inner bulkhead stands two after a place of the fields: 0, an inner bulkhead, Ls at the zone count, or 0 after it.
#[tactic(auto, unfolding(casefile::specs::Layout::place_of))]
fn place(f: &[u8], from: usize, m: usize, ls: u64, k: usize) -> u64
    requires { (k < 21) × (from ≤ 12) }
    ensures { result ≡ place_of (λ i. word_at f.now (from + 2 * i)) m ls k }
{
    if k == 0 {
        return 0;
    }
    if k < m {
        return fields::word_at(f, from + 2 * k);
    }
    if k == m {
        return ls;
    }
    0
}

fn places(f: &[u8], from: usize, m: usize, ls: u64) -> [u64; 21]
    requires { from ≤ 12 }
    ensures { result ≡ places_of (λ i. word_at f.now (from + 2 * i)) m ls }
{
    array::from_fn(|k| place(f, from, m, ls, k))
}

// The hull of a kind, whatever its numbers are: limits are judged on the record. A cargo ship has no persons, and no choice of a rule.
#[tactic(auto, unfolding(casefile::specs::Layout::hull_of))]
pub fn hull(kind: u64, f: &[u8]) -> Hull
    ensures { result ≡ hull_of kind f.now }
{
    let more = persons_length(kind);
    let length = fields::word_at(f, 0);
    let (lifeboats, excess, rule) = if kind == 6 {
        (
            fields::word_at(f, 8),
            fields::word_at(f, 10),
            fields::byte_at(f, 12),
        )
    } else {
        (0, 0, 0)
    };
    let zones = fields::byte_at(f, 8 + more) as usize;
    Hull {
        kind,
        length,
        breadth: fields::word_at(f, 2),
        deepest: fields::word_at(f, 4),
        light: fields::word_at(f, 6),
        lifeboats,
        excess,
        rule,
        zones,
        places: places(f, 7 + more, zones, length),
    }
}
