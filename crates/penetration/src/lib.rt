// Damage down to a penetration: the ends of G and Q of a span at a layer, in billionths rounded both ways.
#![tactic(auto)]

ghost use Rattle.std.specs.Prelude.{◌≡◌, ◌*◌, ◌^◌, ◌≤◌, ◌<◌, leb};
ghost use Rattle.spans.specs.Rounded.{Probable};
ghost use Rattle.penetration.specs.Figures.{plus, minus};
ghost use Rattle.penetration.specs.Penetration.{GEnds, mixed};
ghost use Rattle.penetration.specs.Reached.{Reached};

use layers::Layer;
use numbers::{ceiling_near, halves, portion};
use records::Ends;
use spans::ends_touched;

// One figure less another, whose opposite end is subtracted.
#[tactic(auto, unfolding(crate::specs::Figures::minus))]
fn less(f: Ends, g: Ends) -> Ends
    ensures { result ≡ minus f g }
{
    Ends {
        lower: f.lower.saturating_sub(g.upper),
        upper: f.upper.saturating_sub(g.lower),
    }
}

// Two figures together, of at most one: `sums::plus` adds such as are larger, and asks otherwise.
#[tactic(auto, unfolding(crate::specs::Figures::plus))]
pub fn with(f: Ends, g: Ends) -> Ends
    requires { Probable f × Probable g }
    ensures { result ≡ plus f g }
{
    Ends {
        lower: f.lower + g.lower,
        upper: f.upper + g.upper,
    }
}

// Whether the span is too short for the penetration to cut its damage lengths: 15Bx <= bL.
fn is_short(l: u64, breadth: u64, x: u64, b: u64) -> bool
    requires { (l ≤ 19800) × (breadth ≤ 6000) × (x ≤ l) × (b ≤ breadth) }
    ensures { result ≡ leb (15 * breadth * x) (b * l) }
{
    15 * breadth * x <= b * l
}

// G of the span from aft to fwd, whose p has the ends p, at the layer y: by how many ends of the ship it touches, and whether it is short.
// Numbers side by side: `Reached` says what holds of them, and the one caller has them from a hull, from its places and from its table.
#[tactic(auto, using(spans::proofs::Span::both_touched, crate::proofs::Reached::g_of_ship, crate::proofs::Reached::g1_fits, crate::proofs::Reached::p_fits, crate::proofs::Reached::part_fits))]
pub fn g_ends(l: u64, breadth: u64, aft: u64, fwd: u64, p: Ends, y: Layer) -> Ends
    requires { Reached l breadth aft fwd p y }
    ensures { result ≡ GEnds l breadth aft fwd y.depth }
{
    let x = fwd - aft;
    let touched = ends_touched(l, aft, fwd);
    if touched == 2 {
        return y.g1;
    }
    let part = portion(x, y.g1, l);
    match (touched, is_short(l, breadth, x, y.depth)) {
        (0, true) => p,
        (0, false) => less(part, y.g3),
        (_, true) => halves(with(p, part)),
        (_, false) => less(part, y.half),
    }
}

// Q from P and G, with C = c/d exact.
#[tactic(auto, unfolding(crate::specs::Penetration::mixed))]
pub fn q_ends(c: u64, d: u64, p: Ends, g: Ends) -> Ends
    requires { (0 < d) × (c ≤ d) × (d ≤ 10 ^ 9) × Probable p × Probable g }
    ensures { result ≡ mixed c d p g }
{
    let other = d - c;
    let lower = (p.lower * c + g.lower * other) / d;
    Ends {
        lower,
        upper: ceiling_near(lower, p.upper * c + g.upper * other, d),
    }
}
