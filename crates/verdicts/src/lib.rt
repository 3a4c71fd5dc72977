// The required index of a cargo ship and of a passenger ship, the mark of each partial index, and the verdict from ends that reach them or do not.
#![tactic(auto)]

ghost use Rattle.std.specs.Prelude.{◌≡◌, ◌↔◌, ◌^◌, ◌≤◌, All, IsTrue};
ghost use Rattle.solas.specs.Index.{R, passenger_R, NoLogarithm, R2020};
ghost use Rattle.numbers.specs.Ratio.{Proper, ratio_of};
ghost use Rattle.verdicts.specs.Required.{Sized, required_of, mark_of};
ghost use Rattle.verdicts.specs.Verdict.{number_of, reaches, all_reach, verdict_of};

use records::{Ends, Hull, Ratio};

// What is said of a ship: all lower ends reach their marks; some upper end does not; or neither is settled.
#[derive(Clone, Copy, Debug, PartialEq, Eq)]
pub enum Compliance {
    Meets,
    Fails,
    Unsettled,
}

impl From<Compliance> for u64 {
    ghost from_gives = { λ v n. n ≡ number_of v };

    // Its number in document 01.
    fn from(v: Compliance) -> u64 {
        match v {
            Compliance::Meets => 1,
            Compliance::Fails => 2,
            Compliance::Unsettled => 3,
        }
    }
}

// What the indices of a ship are held to: A to `required`, each partial index to `mark`, both from 0 to 1 and of so few parts that ends can be compared with them.
#[derive(Clone, Copy)]
pub struct Standard {
    pub required: Ratio,
    pub mark: Ratio,
    pub ghost proper: { Proper (10 ^ 9) required × Proper (10 ^ 9) mark },
}

// What a whole comes to in billionths.
const WHOLE: u64 = 1_000_000_000;

// R of a cargo ship of so many centimetres.
fn required(length: u64) -> Ratio
    requires { length ≤ 10 ^ 6 }
    ensures { result ≡ ratio_of (R length) }
{
    let more = length + 2_400;
    if 10_000 < length {
        return Ratio {
            num: more,
            den: length + 15_200,
        };
    }
    let num = length * more;
    let den = num + 128_000_000;
    Ratio { num, den }
}

// R of a passenger ship of so many centimetres with so many persons counted, by the earlier rule.
fn passenger_required(length: u64, persons: u64) -> Ratio
    requires { (length ≤ 10 ^ 6) × (persons ≤ 10 ^ 6) }
    ensures { result ≡ ratio_of (passenger_R length persons) }
{
    let size = length + 250 * persons;
    Ratio {
        num: size + 1_022_500,
        den: size + 1_522_500,
    }
}

// R of a passenger ship with so many persons, by the rule of 2020, where that has no logarithm.
fn required_of_2020(persons: u64) -> Ratio
    requires { (persons ≤ 10 ^ 6) × NoLogarithm persons }
    ensures { result ≡ ratio_of (R2020 persons) }
{
    if persons < 400 {
        return Ratio {
            num: 722,
            den: 1000,
        };
    }
    if persons <= 1350 {
        return Ratio {
            num: 5000 * persons + 25_363_817,
            den: 37_900_000,
        };
    }
    Ratio {
        num: 769 * persons + 3_318_000,
        den: 800 * (persons + 5000),
    }
}

// What A of a ship must reach, by its hull: each passenger ship by its own rule.
pub fn required_of(h: Hull) -> Ratio
    requires { Sized h }
    ensures { result ≡ ratio_of (required_of h) }
{
    if h.kind != 6 {
        return required(h.length);
    }
    if h.rule == 1 {
        return required_of_2020(h.lifeboats + h.excess);
    }
    passenger_required(h.length, h.lifeboats + 2 * h.excess)
}

// What each of its partial indices must reach: half of R, of a passenger ship nine tenths.
pub fn mark_of(h: Hull) -> Ratio
    requires { Sized h }
    ensures { result ≡ ratio_of (mark_of h) }
{
    let whole = required_of(h);
    if h.kind != 6 {
        return Ratio {
            num: whole.num,
            den: whole.den * 2,
        };
    }
    Ratio {
        num: whole.num * 9,
        den: whole.den * 10,
    }
}

// Both, of a hull.
pub fn standard_of(h: Hull) -> Standard
    requires { Sized h }
    ensures { (result.required ≡ ratio_of (required_of h)) × (result.mark ≡ ratio_of (mark_of h)) }
{
    Standard {
        required: required_of(h),
        mark: mark_of(h),
    }
}

// An end in billionths is not below the mark. No product of an end from 10⁹ on is made: it reaches every mark.
fn end_reaches(end: u64, mark: Ratio) -> bool
    requires { Proper (10 ^ 9) mark }
    ensures { result ≡ reaches end mark }
{
    if WHOLE <= end {
        return true;
    }
    WHOLE * mark.num <= end * mark.den
}

// The end of A reaches R, and those of all partial indices reach their mark.
fn all_reach(index: u64, partials: [u64; 3], standard: Standard) -> bool
    ensures { IsTrue result ↔ (IsTrue (reaches index standard.required) × All (λ end. IsTrue (reaches end standard.mark)) partials) }
{
    end_reaches(index, standard.required)
        && partials.iter().all(|&end| end_reaches(end, standard.mark))
}

// Meets where all lower ends reach their marks, fails where some upper end does not, and else is unsettled.
pub fn verdict(index: Ends, partials: [Ends; 3], standard: Standard) -> Compliance
    ensures { number_of result ≡ verdict_of index partials standard.required standard.mark }
{
    let lower = partials.map(|e| e.lower);
    let upper = partials.map(|e| e.upper);
    if all_reach(index.lower, lower, standard) {
        return Compliance::Meets;
    }
    if !all_reach(index.upper, upper, standard) {
        return Compliance::Fails;
    }
    Compliance::Unsettled
}
