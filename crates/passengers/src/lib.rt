// The survival of a passenger ship's results: the lesser of what an intermediate stage leaves and of what the final stage does with the moments, rounded
// down and up, and its marks; nothing of it is left where an opening is immersed.
#![tactic(auto)]

ghost use Rattle.std.specs.Prelude.{◌≡◌, ◌≤◌};
ghost use Rattle.laws.specs.Fraction.{lesser, ◌⊛◌};
ghost use Rattle.results.specs.Parts.{InParts};
ghost use Rattle.survival.specs.Survival.{root, ends, fourth_power, passenger_survival, survivals_of, Loaded};
ghost use Rattle.survival.specs.Passengers.{int_of, final_of, mom_of};
ghost use Rattle.passengers.specs.Numbers.{caps_of, fourth_in, Loads};

use moments::{FinalStage, held_down};
use records::{Finding, Flooding, Marks, Rounded, Survival};
use results::{PARTS, is_immersed, rounded};
use std::array;

// The heels in hundredths of a degree between which survival of the final stage falls to nothing; an intermediate stage is lost past the second.
const UPRIGHT: u64 = 700;

const LOST: u64 = 1_500;

// An intermediate stage's caps of lever (mm) and range (hundredths of a degree).
const STAGE_LEVER: u64 = 50;

const STAGE_RANGE: u64 = 700;

// The lever (mm) up to which no heeling moment is borne.
const LEVER_LOST: u64 = 40;

// What the ro-ro mark decides of the final stage: the caps of lever and range; what its s⁴ is divided by, in ten-thousands; and the 168ths of 10⁻¹⁶ of
// one part of that.
#[derive(Clone, Copy)]
struct Caps {
    lever: u64,
    range: u64,
    below: u64,
    parts: u64,
}

impl Caps {
    // Those of a case with that mark.
    #[tactic(auto, unfolding(crate::specs::Numbers::caps_of))]
    fn of(roro: u64) -> Caps
        ensures { result ≡ caps_of roro }
    {
        if roro == 1 {
            Caps {
                lever: 200,
                range: 2_000,
                below: 25_600_000,
                parts: 6_562_500,
            }
        } else {
            Caps {
                lever: 120,
                range: 1_600,
                below: 12_288_000,
                parts: 13_671_875,
            }
        }
    }

    // What the final stage's s⁴ is above the line.
    fn fourth(self, f: Finding) -> u64
        requires { (self.lever ≤ 200) × (self.range ≤ 2000) }
        ensures { result ≡ fourth_in self f.lever f.range f.heel }
    {
        let left = LOST.saturating_sub(f.heel).min(LOST - UPRIGHT);
        f.lever.min(self.lever) * f.range.min(self.range) * (left * left)
    }
}

// s⁴ of an intermediate stage in 168ths of 10⁻¹⁶: nothing where its heel exceeds 15 degrees.
fn intermediate(w: Flooding) -> u64
    ensures { InParts (int_of w) result }
{
    if w.heel > LOST {
        return 0;
    }
    w.lever.min(STAGE_LEVER) * w.range.min(STAGE_RANGE) * (PARTS / (STAGE_LEVER * STAGE_RANGE))
}

// The ends of the survival where no opening is immersed. Where the moments are borne in full, the lesser of two whole numbers is rounded; where they are
// not borne at all, nothing is left. Else s-final is rounded and held down, and the intermediate stage, which can only count where its s⁴ is below that of
// s-final, is rounded there alone.
fn dry(f: Finding, w: Flooding, caps: Caps) -> Rounded
    requires { Loaded f w × (caps ≡ caps_of w.roro) }
    ensures { result ≡ ends (root (lesser (int_of w) (final_of f w ⊛ fourth_power (mom_of f w)))) }
{
    let stage = intermediate(w);
    let fourth = caps.fourth(f);
    let last = fourth * caps.parts;
    let righting = f.lever.saturating_sub(LEVER_LOST) * w.displacement;
    if 1_000 * w.moment <= righting {
        return rounded(stage.min(last));
    }
    if righting == 0 {
        return Rounded::default();
    }
    let held = held_down(
        rounded(last),
        FinalStage {
            fourth,
            caps: caps.below,
            righting,
            heeling: w.moment,
        },
    );
    if last <= stage {
        return held;
    }
    let other = rounded(stage);
    Rounded {
        bottom: other.bottom.min(held.bottom),
        top: other.top.min(held.top),
    }
}

// The survival of a result, from what was found at the final stage and what its row tells besides.
#[tactic(auto, using(survival::proofs::Factors::same_rounded, survival::proofs::Passengers::as_passenger, survival::proofs::Passengers::passenger_lost, survival::proofs::Passengers::passenger_dry, crate::proofs::Numbers::caps_suit), unfolding(survival::specs::Marks::passenger_marks))]
pub fn passenger_survival(f: Finding, w: Flooding) -> Survival
    requires { Loaded f w }
    ensures { result ≡ passenger_survival f w }
{
    let caps = Caps::of(w.roro);
    let lost = is_immersed(f.opening);
    let marks = Marks {
        lever: f.lever < caps.lever,
        range: f.range < caps.range,
        heel: UPRIGHT < f.heel,
        opening: lost,
    };
    if lost {
        return Survival {
            marks,
            ..Survival::default()
        };
    }
    let Rounded { bottom, top } = dry(f, w, caps);
    Survival { bottom, top, marks }
}

// The survivals of a passenger ship's row at the three draughts.
pub fn passenger_survivals(finals: [Finding; 3], floodings: [Flooding; 3]) -> [Survival; 3]
    requires { Loads finals floodings }
    ensures { result ≡ survivals_of 7 (record { findings = finals; floodings = floodings }) }
{
    array::from_fn(|j| passenger_survival(finals[j], floodings[j]))
}
