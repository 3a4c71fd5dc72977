// The indices in code: what a row adds at the three draughts, the partial indices as sums of that, and the attained index.
#![tactic(auto)]

ghost use Rattle.std.specs.Prelude.{◌≡◌, ◌+◌, ◌*◌, ◌^◌, ◌≤◌};
ghost use Rattle.heights.specs.Height.{row_vs};
ghost use Rattle.indices.specs.Index.{Share, Weights, RowWeights, Small, Within, adds_of, row_adds, ends_plus, plus, weighed, attained_of};

use heights::row_factors;
use numbers::ceiling;
use records::{Ends, Survival};
use std::array;

// 916,500ths times ten-thousandths.
const SCALE: u64 = 916_500 * 10_000;

// Share times v times s, which are each at most one.
fn product(share: u64, v: u64, s: u64) -> u64
    requires { (share ≤ 10 ^ 9) × (v ≤ 916500) × (s ≤ 10 ^ 4) }
    ensures { result ≡ share * v * s }
{
    share * v * s
}

// What a row adds at one draught: with the bottom at the lower end, and the top at the upper.
#[tactic(auto, unfolding(indices::specs::Index::adds_of))]
pub fn adds(share: Ends, v: u64, s: Survival) -> Ends
    requires { Share share × Weights v s }
    ensures { result ≡ adds_of share v s.bottom s.top }
{
    let lower = product(share.lower, v, s.bottom) / SCALE;
    let upper = ceiling(product(share.upper, v, s.top), SCALE);
    Ends { lower, upper }
}

// What a row adds at the three draughts, by its share, its v and its survival at each.
fn row_adds(share: Ends, vs: [u64; 3], ss: [Survival; 3]) -> [Ends; 3]
    requires { Share share × RowWeights vs ss }
    ensures { result ≡ row_adds share vs ss }
{
    array::from_fn(|j| adds(share, vs[j], ss[j]))
}

// The same from the row's height and the row below it in its layer.
pub fn row(share: Ends, below: u64, height: u64, draughts: [u64; 3], ss: [Survival; 3]) -> [Ends; 3]
    requires { Share share × RowWeights (row_vs below height draughts) ss }
    ensures { result ≡ row_adds share (row_vs below height draughts) ss }
{
    let vs = row_factors(below, height, draughts);
    row_adds(share, vs, ss)
}

// The ends of a sum, from those of what is added.
fn plus(a: Ends, b: Ends) -> Ends
    requires { Small (2 ^ 62) a × Small (2 ^ 62) b }
    ensures { result ≡ ends_plus a b }
{
    Ends {
        lower: a.lower + b.lower,
        upper: a.upper + b.upper,
    }
}

// Partial indices are sums: what was added so far, and one row more.
pub fn sum(a: [Ends; 3], b: [Ends; 3]) -> [Ends; 3]
    requires { Within (2 ^ 62) a × Within (2 ^ 62) b }
    ensures { result ≡ plus a b }
{
    array::from_fn(|j| plus(a[j], b[j]))
}

// Five times the weighted mean: two fifths go to the deepest and to the middle draught, one to the light one.
fn weighted(deepest: u64, partial: u64, light: u64) -> u64
    requires { (deepest ≤ 2 ^ 60) × (partial ≤ 2 ^ 60) × (light ≤ 2 ^ 60) }
    ensures { result ≡ 2 * deepest + 2 * partial + light }
{
    2 * deepest + 2 * partial + light
}

// A from the partial indices.
#[tactic(auto, unfolding(indices::specs::Index::attained_of))]
pub fn attained(partials: [Ends; 3]) -> Ends
    requires { Within (2 ^ 60) partials }
    ensures { result ≡ attained_of partials }
{
    let [deepest, partial, light] = partials;
    let lower = weighted(deepest.lower, partial.lower, light.lower) / 5;
    let upper = ceiling(weighted(deepest.upper, partial.upper, light.upper), 5);
    Ends { lower, upper }
}
