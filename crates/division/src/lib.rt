// Long division in 64 bits: a fraction in billionths, rounded both ways, however wide its divisor.
#![tactic(auto)]

ghost use Rattle.std.specs.Prelude.{◌≡◌, ◌*◌, ◌%◌, ◌^◌, ◌<◌};
ghost use Rattle.numbers.specs.Figures.{billionths_of};
ghost use Rattle.division.specs.Division.{Proper, Division};

mod quotient;

use quotient::Quotient;
use records::Ends;

// The largest divisors that take 10⁹ in one step, in two of 10⁵ and 10⁴, and in three of 10³.
const ONE_STEP: u64 = u64::MAX / 1_000_000_000;

const TWO_STEPS: u64 = u64::MAX / 100_000;

const THREE_STEPS: u64 = u64::MAX / 1_000;

// 10⁹ is 40·40·40·25·25·25: the fewest steps for the widest divisors.
fn in_six_steps(n: u64, d: u64) -> Quotient
    requires { Proper n d }
    ensures { Division (10 ^ 9 * n) d result }
{
    Quotient::of(40 * n, d)
        .times(40)
        .times(40)
        .times(25)
        .times(25)
        .times(25)
}

// 10⁹ over so many hundreds, as the divisors of the middle band are, is 10⁷ over as many ones: steps of 4,000 and 2,500.
fn by_hundreds(n: u64, d: u64) -> Quotient
    requires { Proper n d × (d % 100 ≡ 0) }
    ensures { Division (10 ^ 9 * n) d result }
{
    Quotient::of(n, d / 100)
        .times(4_000)
        .times(2_500)
        .hundreds()
}

// The narrower the divisor, the fewer steps.
fn billionfold(n: u64, d: u64) -> Quotient
    requires { Proper n d }
    ensures { Division (10 ^ 9 * n) d result }
{
    if d <= ONE_STEP {
        Quotient::of(1_000_000_000 * n, d)
    } else if d <= TWO_STEPS {
        Quotient::of(100_000 * n, d).times(10_000)
    } else if d <= THREE_STEPS {
        Quotient::of(1_000 * n, d).times(1_000).times(1_000)
    } else if d % 100 == 0 {
        by_hundreds(n, d)
    } else {
        in_six_steps(n, d)
    }
}

// The fraction n/d in billionths, rounded both ways.
#[tactic(auto, unfolding(numbers::specs::Figures::both_ways, numbers::specs::Figures::billionths_of))]
pub fn billionths(n: u64, d: u64) -> Ends
    requires { Proper n d }
    ensures { result ≡ billionths_of n d }
{
    billionfold(n, d).rounded()
}
