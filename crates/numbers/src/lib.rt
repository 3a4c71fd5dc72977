// Machine numbers: quotients rounded up and both ways, portions, and halves.
#![tactic(auto)]

ghost use Rattle.std.specs.Prelude.{◌≡◌, cond, ◌*◌, ◌^◌, ◌≤◌, ◌<◌, nat_lt, sum, map};
ghost use Rattle.std.specs.List.{range_with_len};
ghost use Rattle.laws.specs.Rounding.{ceil};
ghost use Rattle.numbers.specs.Figures.{both_ways, portion_of, halves_of};

use records::Ends;

// The largest divisor that 64 bits hold four times.
const FOUR_TIMES: u64 = u64::MAX / 4;

// n/d rounded up.
#[tactic(auto, using(crate::proofs::Quotients::rounded_up))]
pub fn ceiling(n: u64, d: u64) -> u64
    requires { 0 < d }
    ensures { result ≡ ceil n d }
{
    n.div_ceil(d)
}

// How many of the multiples 0, d, 2d and 3d lie below n.
fn multiples_below(n: u64, d: u64) -> u64
    requires small { 4 * d < 2 ^ 64 }
    requires fits { sum (map (λ k. cond (nat_lt (k * d) n) 1 0) (range_with_len 0 4)) < 2 ^ 64 }
    ensures { result ≡ sum (map (λ k. cond (nat_lt (k * d) n) 1 0) (range_with_len 0 4)) }
{
    (0..4).map(|k| u64::from(k * d < n)).sum()
}

// n/d rounded up, from a number that is as a rule not above it, and near: it takes a division only where that number is not so.
#[tactic(auto, using(crate::proofs::Quotients::rounded_up))]
pub fn ceiling_near(low: u64, n: u64, d: u64) -> u64
    requires { (0 < d) × (low * d < 2 ^ 64) }
    ensures { result ≡ ceil n d }
{
    let base = low * d;
    if n < base || FOUR_TIMES < d || 4 * d < n - base {
        return n.div_ceil(d);
    }
    low + multiples_below(n - base, d)
}

// n/d rounded down and up, by one division.
#[tactic(auto, using(crate::proofs::Quotients::rounded_up), unfolding(crate::specs::Figures::both_ways))]
pub fn both_ways(n: u64, d: u64) -> Ends
    requires { 0 < d }
    ensures { result ≡ both_ways n d }
{
    Ends {
        lower: n / d,
        upper: n.div_ceil(d),
    }
}

// The part x/l of a figure, each end rounded outwards.
#[tactic(auto, unfolding(crate::specs::Figures::portion_of))]
pub fn portion(x: u64, g: Ends, l: u64) -> Ends
    requires { (0 < l) × (x ≤ 10 ^ 6) × (g.lower ≤ 10 ^ 12) × (g.upper ≤ 10 ^ 12) }
    ensures { result ≡ portion_of x g l }
{
    let lower = x * g.lower / l;
    Ends {
        lower,
        upper: ceiling_near(lower, x * g.upper, l),
    }
}

// Half of a figure, each end rounded outwards.
#[tactic(auto, using(crate::proofs::Quotients::rounded_up), unfolding(crate::specs::Figures::halves_of))]
pub fn halves(g: Ends) -> Ends
    ensures { result ≡ halves_of g }
{
    Ends {
        lower: g.lower / 2,
        upper: g.upper.div_ceil(2),
    }
}
