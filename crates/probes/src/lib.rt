// Single figures of the other crates, for a host in C that tests and times them: a survival and its marks, a height, how an input is judged, rows'
// shares.
#![tactic(auto)]

ghost use Rattle.std.specs.Prelude.{◌≡◌};
ghost use Rattle.solas.specs.Height.{row_v};
ghost use Rattle.casefile.specs.Answer.{judgement_of};
ghost use Rattle.casefile.specs.Reading.{reading};
ghost use Rattle.casefile.specs.Told.{judgement_told};
ghost use Rattle.printing.specs.Marks.{mark_byte};
ghost use Rattle.survival.specs.Survival.{survival_of};

use casefile::{Accepted, KEPT, Refused};
use records::Finding;

pub mod ferry; // a passenger ship's survival
pub mod shares; // rows' shares by the one span table

// The bottom of a result's survival.
#[unsafe(no_mangle)]
pub extern "C" fn probe_bottom(
    kind: u64,
    lever: u64,
    range: u64,
    heel: u64,
    opening: i64,
    given: u64,
) -> u64
    ensures { result ≡ (survival_of kind (record { lever = lever; range = range; heel = heel; opening = opening; given = given })).bottom }
{
    let f = Finding {
        lever,
        range,
        heel,
        opening,
        given,
    };
    results::survival(kind, f).bottom
}

// Its top.
#[unsafe(no_mangle)]
pub extern "C" fn probe_top(
    kind: u64,
    lever: u64,
    range: u64,
    heel: u64,
    opening: i64,
    given: u64,
) -> u64
    ensures { result ≡ (survival_of kind (record { lever = lever; range = range; heel = heel; opening = opening; given = given })).top }
{
    let f = Finding {
        lever,
        range,
        heel,
        opening,
        given,
    };
    results::survival(kind, f).top
}

// The byte of its marks.
#[unsafe(no_mangle)]
pub extern "C" fn probe_marks(
    kind: u64,
    lever: u64,
    range: u64,
    heel: u64,
    opening: i64,
    given: u64,
) -> u64
    ensures { result ≡ mark_byte (survival_of kind (record { lever = lever; range = range; heel = heel; opening = opening; given = given })).marks }
{
    let f = Finding {
        lever,
        range,
        heel,
        opening,
        given,
    };
    printing::mark_byte(results::survival(kind, f).marks)
}

// A row's v at a draught, over the row below it.
#[unsafe(no_mangle)]
pub extern "C" fn probe_height(below: u64, height: u64, draught: u64) -> u64
    ensures { result ≡ row_v below height draught }
{
    heights::row_factor(below, height, draught)
}

// What is said of any bytes whatever; the rows that are kept on the way go no further.
fn judged(input: &[u8]) -> Result<Accepted, Refused>
    ensures { judgement_told result ≡ judgement_of (reading input.now) }
{
    let mut kept = [0u8; KEPT];
    reader::judge(input, &mut kept)
}

// The refusal's number of any bytes whatever, 0 where they are accepted.
#[unsafe(no_mangle)]
pub extern "C" fn probe_number(input: &[u8]) -> u64
    ensures { result ≡ (judgement_of (reading input.now)).number }
{
    match judged(input) {
        Ok(_) => 0,
        Err(refused) => u64::from(refused.fault),
    }
}

// Its line.
#[unsafe(no_mangle)]
pub extern "C" fn probe_line(input: &[u8]) -> u64
    ensures { result ≡ (judgement_of (reading input.now)).line }
{
    match judged(input) {
        Ok(_) => 0,
        Err(refused) => refused.line,
    }
}

// The row count of a file that is accepted.
#[unsafe(no_mangle)]
pub extern "C" fn probe_rows(input: &[u8]) -> u64
    ensures { result ≡ (judgement_of (reading input.now)).rows }
{
    match judged(input) {
        Ok(file) => file.rows,
        Err(_) => 0,
    }
}
