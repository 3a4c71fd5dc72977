// Document 01's limits on records, and document 02's of an opening and of passenger ships: of a hull (refusals 4, 13 and 5) and of a row (refusal 7).
#![tactic(auto)]

ghost use Rattle.std.specs.Prelude.{◌≡◌, ◌&&◌, ◌+◌, ◌-◌, ◌%◌, ◌≤◌, leb, eqb};
ghost use Rattle.casefile.specs.Limits.{between, shortest_ship, narrowest_ship, sizes_fit, persons_fit, rising_to, zones_fit, head_fits, opening_fits, finding_fits, findings_fit, flooding_fits, floodings_fit};

use records::{Finding, Flooding, Hull, RowHead};

#[tactic(auto, using(crate::proofs::CodeLimits::within))]
fn is_between(low: u64, high: u64, x: u64) -> bool
    ensures { result ≡ between low high x }
{
    (low..=high).contains(&x)
}

// Whether the draughts differ by a multiple of 5; where the light one is above the deepest, the difference is taken as 0.
fn differ_by_fifths(deepest: u64, light: u64) -> bool
    ensures { result ≡ eqb ((deepest - light) % 5) 0 }
{
    deepest.saturating_sub(light) % 5 == 0
}

// The least length of a ship of a kind.
fn shortest(kind: u64) -> u64
    ensures { result ≡ shortest_ship kind }
{
    if kind == 6 { 2000 } else { 8000 }
}

// Its least breadth.
fn narrowest(kind: u64) -> u64
    ensures { result ≡ narrowest_ship kind }
{
    if kind == 6 { 400 } else { 1000 }
}

// Refusal 4 is given where this does not hold.
#[tactic(auto, unfolding(casefile::specs::Limits::sizes_fit))]
pub fn sizes_fit(h: Hull) -> bool
    ensures { result ≡ sizes_fit h }
{
    is_between(shortest(h.kind), 19800, h.length)
        & ((h.breadth % 2 == 0) & is_between(narrowest(h.kind), 6000, h.breadth))
        & is_between(1000, 30000, h.deepest)
        & (is_between(500, h.deepest, h.light) & differ_by_fifths(h.deepest, h.light))
        & ((h.lifeboats <= 10000) & (h.excess <= 10000) & (h.rule <= 1))
}

// Refusal 13 is given where this does not hold. A sum that would not fit is above the band too.
#[tactic(auto, using(crate::proofs::CodeLimits::persons_capped), unfolding(casefile::specs::Limits::persons_fit))]
pub fn persons_fit(h: Hull) -> bool
    ensures { result ≡ persons_fit h }
{
    !((h.rule == 1) & is_between(1351, 6000, h.lifeboats.saturating_add(h.excess)))
}

fn is_rising(places: [u64; 21], m: usize) -> bool
    requires { m ≤ 20 }
    ensures { result ≡ rising_to places m }
{
    places[..=m].is_sorted_by(|&before, &place| before < place)
}

// Refusal 5 is given where this does not hold.
#[tactic(auto, using(crate::proofs::CodeLimits::within, crate::proofs::CodeLimits::zones_outside, crate::proofs::CodeLimits::zones_by_places))]
pub fn zones_fit(h: Hull) -> bool
    ensures { result ≡ zones_fit h }
{
    let m = h.zones;
    let places = h.places;
    if !(1..=20).contains(&m) {
        return false;
    }
    (places[0] == 0) & (places[m] == h.length) & is_rising(places, m)
}

// Whether the zones from the first on are among those of the ship: nothing wraps, whatever the numbers.
fn group_fits(first: u64, count: u64, zones: usize) -> bool
    ensures { result ≡ (leb 1 first && leb 1 count && leb (first + count - 1) zones) }
{
    if (first < 1) | (count < 1) {
        return false;
    }
    let Some(last) = first.checked_add(count - 1) else {
        return false;
    };
    last <= zones as u64
}

// Refusal 7 is given where this does not hold of a row's head, or `set_fits` not of a set of its results, or `floodings_fit` not of what else it tells.
#[tactic(auto, unfolding(casefile::specs::Limits::head_fits))]
pub fn head_fits(h: Hull, r: RowHead) -> bool
    ensures { result ≡ head_fits h r }
{
    group_fits(r.first, r.count, h.zones)
        & is_between(1, h.breadth / 2, r.depth)
        & is_between(1, 60000, r.height)
}

#[tactic(auto, using(crate::proofs::CodeLimits::opening_within))]
fn opening_fits(o: i64) -> bool
    ensures { result ≡ opening_fits o }
{
    (-30000..=30000).contains(&o)
}

#[tactic(auto, unfolding(casefile::specs::Limits::finding_fits))]
fn finding_fits(r: Finding) -> bool
    ensures { result ≡ finding_fits r }
{
    (r.lever <= 5000)
        & (r.range <= 9000)
        & (r.heel <= 9000)
        & opening_fits(r.opening)
        & (r.given <= 10000)
}

// A set of results, one at each draught. All three are tested, so that it takes no jump.
pub fn set_fits(results: [Finding; 3]) -> bool
    ensures { result ≡ findings_fit results }
{
    let [deepest, partial, light] = results.map(finding_fits);
    deepest & partial & light
}

#[tactic(auto, unfolding(casefile::specs::Limits::flooding_fits))]
fn flooding_fits(w: Flooding) -> bool
    ensures { result ≡ flooding_fits w }
{
    is_between(1, 300000, w.displacement)
        & is_between(1, 2000000, w.moment)
        & ((w.lever <= 5000) & (w.range <= 9000) & (w.heel <= 9000))
        & (w.roro <= 1)
}

// What a passenger ship's row tells besides, at each draught, likewise.
pub fn floodings_fit(floodings: [Flooding; 3]) -> bool
    ensures { result ≡ floodings_fit floodings }
{
    let [deepest, partial, light] = floodings.map(flooding_fits);
    deepest & partial & light
}
