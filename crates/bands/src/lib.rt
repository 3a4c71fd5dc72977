// The chance p of damage within an inner span, exact: one fraction, by bands of the span's length.
#![tactic(auto)]

ghost use Rattle.std.specs.Prelude.{◌≡◌, ◌^◌, ◌≤◌};
ghost use Rattle.std.specs.Int.Signed.{mag};
ghost use Rattle.solas.specs.Span.{p};
ghost use Rattle.bands.specs.Bands.{band_of, above, beneath, counted, valued, quotient_of, Small, Within, Ready, Chance};

// Inner p by bands: the coefficients of L³, xL², x²L and x³, and the divisor, which stands with L³.
const BANDS: [[i64; 5]; 3] = [
    [0, 0, 550, -1_089, 100],
    [-1_000, 19_800, 32_670, -35_937, 29_700],
    [-20, 297, 0, 0, 297],
];

// What is added, and what is taken away.
#[derive(Clone, Copy)]
struct Sides {
    up: u64,
    down: u64,
}

// The fraction num/den; cm/den is the part of the ship that a centimetre is.
#[derive(Clone, Copy)]
pub struct Ratio {
    pub num: u64,
    pub den: u64,
    pub cm: u64,
}

#[tactic(auto, unfolding(crate::specs::Bands::band_of))]
fn band(l: u64, x: u64) -> usize
    requires { (l ≤ 19800) × (x ≤ 19800) }
    ensures { result ≡ band_of l x }
{
    if 33 * x <= 5 * l {
        0
    } else if 33 * x <= 10 * l {
        1
    } else {
        2
    }
}

// How far a coefficient is above 0.
fn over(k: i64) -> u64
    ensures { result ≡ above k }
{
    k.max(0).unsigned_abs()
}

// How far it is below 0.
fn under(k: i64) -> u64
    ensures { result ≡ beneath k }
{
    k.min(0).unsigned_abs()
}

impl Sides {
    // A coefficient times w goes to the side of its sign.
    #[tactic(auto, using(crate::proofs::Coefficient::above_term, crate::proofs::Coefficient::beneath_term), unfolding(crate::specs::Bands::counted))]
    fn count(self, k: i64, w: u64) -> Sides
        requires { (mag k ≤ 40000) × (w ≤ 10 ^ 13) × (self.up ≤ 10 ^ 19) × (self.down ≤ 10 ^ 19) }
        ensures { result ≡ counted self k w }
    {
        Sides {
            up: self.up + over(k) * w,
            down: self.down + under(k) * w,
        }
    }
}

// A row's four coefficients at four numbers.
#[tactic(auto, using(crate::proofs::Coefficient::none_counted))]
fn value(row: [i64; 5], w: [u64; 4]) -> Sides
    requires { Small row × Within w }
    ensures { result ≡ valued row w 4 }
{
    // By the index: over `row.iter().zip(&w)` it stayed open that the pair of a turn is the row's and w's next.
    let mut s = Sides { up: 0, down: 0 };
    for i in 0..4 {
        s = s.count(row[i], w[i]);
    }
    s
}

// A row's value over its divisor, where the numbers w are a scale times as large as 1/L, x/L, ..
#[tactic(auto, using(crate::proofs::Coefficient::read_back), unfolding(crate::specs::Bands::quotient_of))]
fn quotient(row: [i64; 5], w: [u64; 4], scale: u64, l: u64) -> Ratio
    requires { Ready row w scale l }
    ensures { result ≡ quotient_of row w scale l }
{
    let s = value(row, w);
    let cm = over(row[4]) * scale;
    Ratio {
        num: s.up - s.down,
        den: cm * l,
        cm,
    }
}

// The last band's row has the factor L² in each term: left out, the divisor is narrow.
#[tactic(auto, using(crate::proofs::Bands::band_below))]
pub fn inner(l: u64, x: u64) -> Ratio
    requires { (1 ≤ l) × (l ≤ 19800) × (x ≤ l) }
    ensures { Chance (p l x) l result }
{
    let k = band(l, x);
    let row = BANDS[k];
    if k == 2 {
        return quotient(row, [l, x, 0, 0], 1, l);
    }
    let l2 = l * l;
    let x2 = x * x;
    quotient(row, [l2 * l, l2 * x, l * x2, x2 * x], l2, l)
}
