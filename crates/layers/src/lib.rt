// A layer: what depends on its penetration alone, C, exact, and the ends of G1, G3 and G3/2, in billionths rounded both ways.
#![tactic(auto)]

ghost use Rattle.std.specs.Prelude.{◌≡◌, ◌*◌, ◌≤◌};
ghost use Rattle.layers.specs.Layer.{G1Ends, G3Ends, layer_of};

use numbers::{both_ways, halves};
use records::Ends;

// What depends on the penetration alone: C is c/d, then the ends of G1, of G3 and of G3/2.
#[derive(Clone, Copy)]
pub struct Layer {
    pub depth: u64,
    pub c: u64,
    pub d: u64,
    pub g1: Ends,
    pub g3: Ends,
    pub half: Ends,
}

// The bounds of the next two stand as they do in `at_depth`, whose clause the crates above cite.
// 10⁹(5,500bB - 1,089b²)/(7,500B²), with the factor 2,500 cancelled.
#[tactic(auto, using(crate::proofs::Depth::G1_ends))]
fn g1_ends(breadth: u64, b: u64) -> Ends
    requires { (1 ≤ breadth) × (breadth ≤ 6000) × (2 * b ≤ breadth) }
    ensures { result ≡ G1Ends breadth b }
{
    both_ways(
        4_400_000 * b * (500 * breadth - 99 * b),
        3 * breadth * breadth,
    )
}

// 10⁹(1,375b²B - 363b³)/(56,250B³), with the factor 6,250 cancelled.
#[tactic(auto, using(crate::proofs::Depth::G3_ends))]
fn g3_ends(breadth: u64, b: u64) -> Ends
    requires { (1 ≤ breadth) × (breadth ≤ 6000) × (2 * b ≤ breadth) }
    ensures { result ≡ G3Ends breadth b }
{
    both_ways(
        1_760_000 * b * b * (125 * breadth - 33 * b),
        9 * breadth * breadth * breadth,
    )
}

// What a layer takes at the penetration b, worked out once.
#[tactic(auto, using(crate::proofs::Depth::layer_is))]
pub fn at_depth(breadth: u64, b: u64) -> Layer
    requires { (1 ≤ breadth) × (breadth ≤ 6000) × (2 * b ≤ breadth) }
    ensures { result ≡ layer_of breadth b }
{
    let g3 = g3_ends(breadth, b);
    Layer {
        depth: b,
        c: 16 * b * breadth - 12 * b * b,
        d: 5 * breadth * breadth,
        g1: g1_ends(breadth, b),
        g3,
        half: halves(g3),
    }
}
