// A passenger ship's survival at a draught, from numbers that a host gives: nothing is told where lever, displacement or moment is outside the limits of a case file.
ghost use Rattle.std.specs.Prelude.{◌≡◌};
ghost use Rattle.printing.specs.Marks.{mark_byte};
ghost use Rattle.probes.specs.Passengers.{loads, survival_told, final_of, flooding_of};

use records::{Finding, Flooding, Survival};

// Whether lever, displacement and moment keep the limits of a case file.
#[tactic(auto, unfolding(crate::specs::Passengers::loads, casefile::specs::Limits::between))]
fn are_loads(f: Finding, w: Flooding) -> bool
    ensures { result ≡ loads f.lever w.displacement w.moment }
{
    f.lever <= 5_000
        && (1..=300_000).contains(&w.displacement)
        && (1..=2_000_000).contains(&w.moment)
}

// What is told of a result and its loads: zeros outside the limits.
#[tactic(auto, using(survival::proofs::Factors::default_survival, crate::proofs::Heeled::nothing_told, crate::proofs::Heeled::survival_told_lem, crate::proofs::Heeled::are_loaded))]
fn told(f: Finding, w: Flooding) -> Survival
    ensures { result ≡ survival_told f w }
{
    if are_loads(f, w) {
        passengers::passenger_survival(f, w)
    } else {
        Survival::default()
    }
}

// What was found at the final stage.
fn final_stage(lever: u64, range: u64, heel: u64, opening: i64) -> Finding
    ensures { result ≡ final_of lever range heel opening }
{
    Finding {
        lever,
        range,
        heel,
        opening,
        given: 0,
    }
}

// What a row tells besides.
fn flooding(
    displacement: u64,
    moment: u64,
    lever: u64,
    range: u64,
    heel: u64,
    roro: u64,
) -> Flooding
    ensures { result ≡ flooding_of displacement moment lever range heel roro }
{
    Flooding {
        displacement,
        moment,
        lever,
        range,
        heel,
        roro,
    }
}

// The bottom, from what was found at the final stage, the loads, and an intermediate stage.
#[unsafe(no_mangle)]
pub extern "C" fn probe_passenger_bottom(
    lever: u64,
    range: u64,
    heel: u64,
    opening: i64,
    displacement: u64,
    moment: u64,
    midlever: u64,
    midrange: u64,
    midheel: u64,
    roro: u64,
) -> u64
    ensures { result ≡ (survival_told (final_of lever range heel opening) (flooding_of displacement moment midlever midrange midheel roro)).bottom }
{
    let f = final_stage(lever, range, heel, opening);
    let w = flooding(displacement, moment, midlever, midrange, midheel, roro);
    told(f, w).bottom
}

// The top.
#[unsafe(no_mangle)]
pub extern "C" fn probe_passenger_top(
    lever: u64,
    range: u64,
    heel: u64,
    opening: i64,
    displacement: u64,
    moment: u64,
    midlever: u64,
    midrange: u64,
    midheel: u64,
    roro: u64,
) -> u64
    ensures { result ≡ (survival_told (final_of lever range heel opening) (flooding_of displacement moment midlever midrange midheel roro)).top }
{
    let f = final_stage(lever, range, heel, opening);
    let w = flooding(displacement, moment, midlever, midrange, midheel, roro);
    told(f, w).top
}

// The byte of the marks.
#[unsafe(no_mangle)]
pub extern "C" fn probe_passenger_marks(
    lever: u64,
    range: u64,
    heel: u64,
    opening: i64,
    displacement: u64,
    moment: u64,
    midlever: u64,
    midrange: u64,
    midheel: u64,
    roro: u64,
) -> u64
    ensures { result ≡ mark_byte (survival_told (final_of lever range heel opening) (flooding_of displacement moment midlever midrange midheel roro)).marks }
{
    let f = final_stage(lever, range, heel, opening);
    let w = flooding(displacement, moment, midlever, midrange, midheel, roro);
    printing::mark_byte(told(f, w).marks)
}
