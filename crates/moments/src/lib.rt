// s-final times s-mom in ten-thousandths, rounded both ways, for every s-mom from 0 to 1: by the ends of s-final where they settle it, and else by one
// comparison of wide numbers.
#![tactic(auto)]

ghost use Rattle.std.specs.Prelude.{◌*◌, ◌^◌, ◌≤◌, ◌<◌};
ghost use Rattle.wide.specs.Limbs.{Writes};
ghost use Rattle.moments.specs.Held.{Rooted, Held, Beside};

use records::Rounded;
use wide::{at_most, product};

// A final stage by its numbers: its s⁴ is fourth/(10⁴·caps), and s-mom is righting/(1,000·heeling), with righting the lever's millimetres above 40 times the
// displacement, and heeling the heeling moment.
#[derive(Clone, Copy)]
pub struct FinalStage {
    pub fourth: u64,
    pub caps: u64,
    pub righting: u64,
    pub heeling: u64,
}

impl FinalStage {
    // What stands above the line of s⁴ = fourth·righting⁴/(caps·heeling⁴), for s in ten-thousandths.
    fn numerator(self) -> [u64; 6]
        requires { self.righting < 2 ^ 32 }
        ensures { Writes result (self.fourth * self.righting ^ 4) }
    {
        let square = self.righting * self.righting;
        product(self.fourth, square, square)
    }

    // The fourth power of a whole number of ten-thousandths, times what stands below the line.
    fn times_denominator(self, s: u64) -> [u64; 6]
        requires { (s ≤ 10 ^ 4) × (self.caps ≤ 25600000) × (self.heeling ≤ 2000000) }
        ensures { Writes result (s ^ 4 * (self.caps * self.heeling ^ 4)) }
    {
        product(self.caps * s * self.heeling, self.heeling.pow(3), s.pow(3))
    }

    // The ends of a survival that lies between `low` and the next number but one, by a comparison with the number between them.
    fn compared(self, low: u64) -> Rounded
        requires { Beside low self }
        ensures { Rooted (self.fourth * self.righting ^ 4) (self.caps * self.heeling ^ 4) result.bottom result.top }
    {
        let middle = low + 1;
        let survival = self.numerator();
        let at_middle = self.times_denominator(middle);
        if !at_most(at_middle, survival) {
            return Rounded {
                bottom: low,
                top: middle,
            };
        }
        if at_most(survival, at_middle) {
            return Rounded {
                bottom: middle,
                top: middle,
            };
        }
        let bottom = middle;
        let top = middle + 1;
        Rounded { bottom, top }
    }
}

// s-final times s-mom, from the ends of s-final. Both ends times s-mom enclose it: where no whole number lies between them they settle it, and where one
// does, the survival is compared with that number.
#[tactic(auto, using(crate::proofs::Held::lower_small, crate::proofs::Held::final_ordered))]
pub fn held_down(ends: Rounded, stage: FinalStage) -> Rounded
    requires { Held ends stage }
    ensures { Rooted (stage.fourth * stage.righting ^ 4) (stage.caps * stage.heeling ^ 4) result.bottom result.top }
{
    let whole = 1_000 * stage.heeling;
    let least = ends.bottom * stage.righting;
    let low = least / whole;
    let more = least % whole + (ends.top - ends.bottom) * stage.righting;
    if more == 0 {
        return Rounded {
            bottom: low,
            top: low,
        };
    }
    if more <= whole {
        return Rounded {
            bottom: low,
            top: low + 1,
        };
    }
    stage.compared(low)
}
