// A number divided, with what is left, and the steps of long division.
ghost use Rattle.std.specs.Prelude.{◌≡◌, ◌+◌, ◌*◌, ◌^◌, ◌<◌};

use records::Ends;

// How often a divisor goes into a number, and what is left.
#[derive(Clone, Copy)]
pub(crate) struct Quotient {
    pub divisor: u64,
    pub whole: u64,
    pub rest: u64,
    ghost small: { rest < divisor },
}

impl Quotient {
    ghost use Rattle.numbers.specs.Figures.{both_ways};
    ghost use Rattle.division.specs.Division.{Division, Carries, dividend};

    // A number divided.
    pub(crate) fn of(n: u64, divisor: u64) -> Quotient
        requires { 0 < divisor }
        ensures { Division n divisor result }
    {
        Quotient {
            divisor,
            whole: n / divisor,
            rest: n % divisor,
        }
    }

    // A step of long division: the same number, taken `by` times, divided.
    pub(crate) fn times(self, by: u64) -> Quotient
        requires { Carries self by }
        ensures { Division (by * dividend self) self.divisor result }
    {
        let next = self.rest * by;
        Quotient {
            divisor: self.divisor,
            whole: self.whole * by + next / self.divisor,
            rest: next % self.divisor,
        }
    }

    // The same quotient, of so many hundreds by so many hundreds.
    pub(crate) fn hundreds(self) -> Quotient
        requires { 100 * self.divisor < 2 ^ 64 }
        ensures { Division (100 * dividend self) (100 * self.divisor) result }
    {
        Quotient {
            divisor: 100 * self.divisor,
            whole: self.whole,
            rest: 100 * self.rest,
        }
    }

    // Rounded down and up: the next number where something is left.
    #[tactic(auto, using(crate::proofs::Division::down, crate::proofs::Division::up), unfolding(numbers::specs::Figures::both_ways))]
    pub(crate) fn rounded(self) -> Ends
        requires { self.whole + 1 < 2 ^ 64 }
        ensures { result ≡ both_ways (dividend self) self.divisor }
    {
        Ends {
            lower: self.whole,
            upper: self.whole + u64::from(0 < self.rest),
        }
    }
}
