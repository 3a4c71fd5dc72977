// Wide numbers, those below 2¹⁹²: six limbs of 32 bits in an array by value, the least limb first.
#![tactic(auto)]

ghost use Rattle.std.specs.Prelude.{◌≡◌, ◌+◌, ◌*◌, ◌^◌, ◌<◌, leb};
ghost use Rattle.wide.specs.Limbs.{value, limit, Limbs, Writes, Placed, Carried};

use std::array;

// One more than the largest limb.
const BASE: u64 = 1 << 32;

const LARGEST_LIMB: u64 = BASE - 1;

// A limb of a sum, and what is carried to the next.
#[derive(Clone, Copy)]
struct Place {
    limb: u64,
    carry: u64,
}

// The limbs of a sum, and what is carried out of the last.
#[derive(Clone, Copy)]
struct Sum {
    limbs: [u64; 6],
    carry: u64,
}

// The limb at one place of w·factor + more, where so much is carried in.
fn placed(limb: u64, factor: u64, more: u64, carry: u64) -> Place
    requires { (limb < 2 ^ 32) × (factor < 2 ^ 32) × (more < 2 ^ 32) × (carry < 2 ^ 32) }
    ensures { Placed (limb * factor + more + carry) result }
{
    let whole = limb * factor + more + carry;
    Place {
        limb: whole % BASE,
        carry: whole / BASE,
    }
}

// w·factor + more + carry for a factor of one limb, place by place: what is carried out of the last is told, and nothing is lost.
fn carried(w: [u64; 6], factor: u64, more: [u64; 6], carry: u64) -> Sum
    requires { Limbs w × (factor < 2 ^ 32) × Limbs more × (carry < 2 ^ 32) }
    ensures { Carried (value w * factor + value more + carry) result }
{
    let mut limbs = [0u64; 6];
    let mut carry = carry;
    for i in 0..6 {
        let p = placed(w[i], factor, more[i], carry);
        limbs[i] = p.limb;
        carry = p.carry;
    }
    Sum { limbs, carry }
}

// A number of 64 bits as limbs.
fn of_number(n: u64) -> [u64; 6]
    ensures { Writes result n }
{
    [n % BASE, n / BASE, 0, 0, 0, 0]
}

// A product with a number of two limbs: by the lower, and by the higher one place on. The limbs one place on by name: a copy of five into an array of
// six, for each of the two, would be no plainer.
fn times(w: [u64; 6], factor: u64) -> [u64; 6]
    requires { Limbs w × (value w * factor < limit) }
    ensures { Writes result (value w * factor) }
{
    let lower = carried(w, factor % BASE, of_number(0), 0);
    let l = lower.limbs;
    let more = [l[1], l[2], l[3], l[4], l[5], lower.carry];
    let higher = carried(w, factor / BASE, more, 0);
    let h = higher.limbs;
    [l[0], h[0], h[1], h[2], h[3], h[4]]
}

// A product of any three numbers of 64 bits.
pub fn product(a: u64, b: u64, c: u64) -> [u64; 6]
    ensures { Writes result (a * b * c) }
{
    times(times(of_number(a), b), c)
}

// What w is short of the largest wide number.
fn complement(w: [u64; 6]) -> [u64; 6]
    requires { Limbs w }
    ensures { Limbs result × (value result + value w + 1 ≡ limit) }
{
    array::from_fn(|i| LARGEST_LIMB - w[i])
}

// Whether a is not above b. Where it is above, a and what b is short of the largest wide number come to more than that number, and something is carried out.
pub fn at_most(a: [u64; 6], b: [u64; 6]) -> bool
    requires { Limbs a × Limbs b }
    ensures { result ≡ leb (value a) (value b) }
{
    carried(a, 1, complement(b), 0).carry == 0
}
