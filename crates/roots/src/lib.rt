// Fourth roots of whole numbers, rounded down and rounded up: a guess by the leading bits, put right one by one.
#![tactic(auto)]

ghost use Rattle.std.specs.Prelude.{◌≡◌, ◌+◌, ◌^◌, ◌≤◌, ◌<◌};
ghost use Rattle.roots.specs.Root.{RootDown, RootUp};

// A guess takes the bits after the leading one in 2²⁰ths, and works in 2³⁰ths.
const PARTS: u64 = 1_048_576;

const ONE: u64 = 1_073_741_824;

// Some number near 2 to the power of r/4, in 2³⁰ths.
fn quarter(r: u64) -> u64
    ensures { result < 2 ^ 31 }
{
    match r {
        0 => ONE,
        1 => 1_276_901_417,
        2 => 1_518_500_250,
        _ => 1_805_811_301,
    }
}

// Some number near the fourth root of 1 and u 2²⁰ths, in 2³⁰ths: a curve of the fourth degree, in two halves that do not wait for each other.
fn curve(u: u64) -> u64
    requires { u < 2 ^ 20 }
    ensures { result < 2 ^ 31 }
{
    let square = u * u / PARTS;
    let line = 1_073_766_768 + u * 267_778_564 / PARTS;
    let bend = 94_994_528 - u * 39_968_789 / PARTS + square * 9_613_669 / PARTS;
    line - square * bend / PARTS
}

// Some number near the fourth root of n, by its leading bits. It decides how soon the root is found and never what is found, because
// `not_above` and `raised` put any number right.
fn guess(n: u64) -> u64
    ensures { result ≤ 10000 }
{
    let zeros = u64::from(n.leading_zeros());
    let top = 63_u64.saturating_sub(zeros);
    let u = (n >> top.saturating_sub(20)) % PARTS;
    let whole = curve(u) * quarter(top % 4) / ONE;
    let near = whole >> (60 + zeros) / 4;
    near.min(10_000)
}

// A number whose fourth power is not above n, from a guess downwards.
#[tactic(auto, using(crate::proofs::Root::positive, crate::proofs::Root::fits))]
fn not_above(from: u64, n: u64) -> u64
    requires { from ≤ 10000 }
    ensures { (result ^ 4 ≤ n) × (result ≤ 10000) }
{
    // No range to go over: as a rule the guess is the end.
    let mut s = from;
    while n < s.pow(4) {
        s -= 1;
    }
    s
}

// The root, from such a number upwards.
#[tactic(auto, using(crate::proofs::Root::fourth_at_most, crate::proofs::Root::down_between, crate::proofs::Root::fits))]
fn raised(from: u64, n: u64) -> u64
    requires { (from ^ 4 ≤ n) × (from ≤ 10000) × (n ≤ 10 ^ 16) }
    ensures { RootDown n result × (result ≤ 10000) }
{
    let mut s = from;
    while (s + 1).pow(4) <= n {
        s += 1;
    }
    s
}

// The fourth root rounded down.
pub fn root_down(n: u64) -> u64
    requires { n ≤ 10 ^ 16 }
    ensures { RootDown n result × (result ≤ 10000) }
{
    raised(not_above(guess(n), n), n)
}

// The fourth root rounded up, where s or the next number is: s is the root of n, or of the number before it, rounded down.
#[tactic(auto, using(crate::proofs::Root::up_exact, crate::proofs::Root::up_next, crate::proofs::Root::fits))]
pub fn root_up(s: u64, n: u64) -> u64
    requires { (s ≤ 10000) × (s ^ 4 ≤ n) × (n ≤ (s + 1) ^ 4) }
    ensures { RootUp n result }
{
    if s.pow(4) == n { s } else { s + 1 }
}
