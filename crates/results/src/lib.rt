// The survival of a row's results: s⁴ as one whole number, from it the bottom and the top in ten-thousandths, and the marks; nothing of it is left
// where an opening is immersed. Of two results at a draught the worse counts, by that number.
#![tactic(auto)]

ghost use Rattle.std.specs.Prelude.{◌≡◌, ◌++◌, ◌*◌, ◌/◌, ◌^◌, ◌≤◌};
ghost use Rattle.solas.specs.Survival.{k, immersed};
ghost use Rattle.records.specs.Results.{found};
ghost use Rattle.results.specs.Parts.{Parts, InParts, parts};
ghost use Rattle.survival.specs.Marks.{found_marks};
ghost use Rattle.survival.specs.Survival.{fourth_of, rounded_of, survival_of, worse_of, survivals_of};

use records::{Finding, Marks, Rounded, Survival};
use roots::{root_down, root_up};
use std::array;

// The caps of lever (mm) and range (hundredths of a degree), and the heels between which survival falls to nothing.
const LEVER: u64 = 120;

const RANGE: u64 = 1_600;

const UPRIGHT: u64 = 2_500;

const LOST: u64 = 3_000;

// What s⁴ is divided by: both caps, and the square of that fall.
const CAPS: u64 = LEVER * RANGE;

const FALL: u64 = (LOST - UPRIGHT) * (LOST - UPRIGHT);

// 168·10¹⁶, the 168ths of 10⁻¹⁶ that make one: whatever s⁴ is divided by, of either ship type, goes into it without a rest.
pub const PARTS: u64 = 1_680_000_000_000_000_000;

// k of a heel in hundredths of a degree, in parts so small that lever times range times k comes to 168ths of 10⁻¹⁶.
fn heel_factor(heel: u64) -> u64
    ensures { Parts (168 * 10 ^ 16 / (120 * 1600)) (k heel) result }
{
    match heel {
        ..=UPRIGHT => PARTS / CAPS,
        LOST.. => 0,
        _ => {
            let left = LOST - heel;
            left * left * (PARTS / (CAPS * FALL))
        }
    }
}

// Whether an opening at a height above the final waterline in millimetres is immersed: at 0 it is not yet.
pub fn is_immersed(opening: i64) -> bool
    ensures { result ≡ immersed opening }
{
    opening < 0
}

// s⁴ of what was found, exactly, in 168ths of 10⁻¹⁶: nothing where the opening is immersed.
fn fourth(f: Finding) -> u64
    ensures { InParts (fourth_of f) result }
{
    if is_immersed(f.opening) {
        return 0;
    }
    f.lever.min(LEVER) * f.range.min(RANGE) * heel_factor(f.heel)
}

// The fourth root of so many 168ths of 10⁻¹⁶ in ten-thousandths: the greatest not above it, the least not below. Nothing and one, which it often is, need
// no root.
#[tactic(auto, using(roots::proofs::RootValue::down_value, roots::proofs::RootValue::up_value, survival::proofs::Factors::same_rounded, crate::proofs::Parts::nothing_rounded, crate::proofs::Parts::one_rounded, crate::proofs::Parts::scaled_fits, crate::proofs::Parts::scaled_parts), unfolding(survival::specs::Survival::rounded_of, laws::specs::Rounding::ceil))]
pub fn rounded(n: u64) -> Rounded
    requires { n ≤ 168 * 10 ^ 16 }
    ensures { result ≡ rounded_of (parts n) }
{
    match n {
        0 => Rounded::default(),
        PARTS => Rounded {
            bottom: 10_000,
            top: 10_000,
        },
        _ => {
            let bottom = root_down(n / 168);
            let top = root_up(bottom, n.div_ceil(168));
            Rounded { bottom, top }
        }
    }
}

// What holds the survival of what was found down: lever and range below their caps, the heel above that from which k falls, an immersed opening.
#[tactic(auto, unfolding(survival::specs::Marks::found_marks))]
fn marks(f: Finding) -> Marks
    ensures { result ≡ found_marks f.lever f.range f.heel f.opening }
{
    Marks {
        lever: f.lever < LEVER,
        range: f.range < RANGE,
        heel: UPRIGHT < f.heel,
        opening: is_immersed(f.opening),
    }
}

// The survival of a result: of a row of kind 3 as it is given, with no mark; of another from what was found.
// A kind stays a number, here and below: `survival_of` tells of any number, and a type of the four kinds would ask more of a caller.
#[tactic(auto, using(survival::proofs::Factors::default_marks, survival::proofs::Factors::as_given, survival::proofs::Factors::as_found, crate::proofs::Parts::rounded_parts))]
pub fn survival(kind: u64, f: Finding) -> Survival
    ensures { result ≡ survival_of kind f }
{
    if kind == 3 {
        return Survival {
            bottom: f.given,
            top: f.given,
            marks: Marks::default(),
        };
    }
    let Rounded { bottom, top } = rounded(fourth(f));
    Survival {
        bottom,
        top,
        marks: marks(f),
    }
}

// The survivals of a cargo ship's three results, where its row has no second set.
pub fn survivals(kind: u64, fs: [Finding; 3]) -> [Survival; 3]
    requires { (kind ≡ 5 → ⊥) × (kind ≡ 7 → ⊥) }
    ensures { result ≡ survivals_of kind (found fs) }
{
    fs.map(|f| survival(kind, f))
}

// Of two results at one draught the survival of the worse, by the exact s⁴: the first's marks when they are equal.
#[tactic(auto, using(survival::proofs::Factors::as_found, crate::proofs::Parts::parts_below, crate::proofs::Parts::parts_strictly_below, crate::proofs::Parts::lesser_parts, crate::proofs::Parts::rounded_parts, survival::proofs::Worse::worse_first, survival::proofs::Worse::worse_second, survival::proofs::Worse::worse_exact))]
fn worse(f: Finding, g: Finding) -> Survival
    ensures { result ≡ survival_of 5 (worse_of f g) }
{
    let a = fourth(f);
    let b = fourth(g);
    let Rounded { bottom, top } = rounded(a.min(b));
    let marks = if a <= b { marks(f) } else { marks(g) };
    Survival { bottom, top, marks }
}

// The survivals of a row of kind 5, from its two sets of results: at each draught the lower.
pub fn worse_survivals(first: [Finding; 3], second: [Finding; 3]) -> [Survival; 3]
    ensures { result ≡ survivals_of 5 (found (first ++ second)) }
{
    array::from_fn(|j| worse(first[j], second[j]))
}
