// The service: any bytes and any sheet. The file is judged first; only an accepted one with room on the sheet is worked out.
#![tactic(auto)]

ghost use Rattle.std.specs.Prelude.{◌≡◌, ◌++◌, ◌*◌, ◌^◌, ◌≤◌, length, drop};
ghost use Rattle.indices.specs.Index.{Within};
ghost use Rattle.verdicts.specs.Required.{Sized};
ghost use Rattle.casefile.specs.Kept.{place_width};
ghost use Rattle.casefile.specs.Reading.{reading};
ghost use Rattle.casefile.specs.Valid.{Valid};
ghost use Rattle.answers.specs.Answer.{figures, answer, shares, answered, sheet_after};
ghost use Rattle.index.specs.Kept.{kept_case};
ghost use Rattle.index.specs.Told.{answer_with, answer_told};

use casefile::{Accepted, Fault, KEPT, Refused};
use groups::subdivision::Subdivision;
use records::{Answer, Ends, Hull};
use rows::kept_rows;
use rows::kept_rows::KeptRows;
use rows::sheet::fill;
use spans::TABLE;
use verdicts::Compliance;

pub mod printed; // the printed answer

// What an accepted case comes to: whether the ship meets its marks, how many rows there are, A, and the partial indices.
#[derive(Clone, Copy)]
pub struct Figures {
    pub verdict: Compliance,
    pub rows: u64,
    pub attained: Ends,
    pub partials: [Ends; 3],
}

// An answer as one flat record, for a host: of a refusal its number and line, and zeros.
pub fn laid_out(answer: Result<Figures, Refused>) -> Answer
    ensures { result ≡ answer_told answer }
{
    match answer {
        Ok(f) => {
            let partials = f.partials;
            Answer {
                number: 0,
                line: 0,
                verdict: u64::from(f.verdict),
                rows: f.rows,
                attained: f.attained,
                partials,
            }
        }
        Err(r) => Answer {
            number: u64::from(r.fault),
            line: r.line,
            ..Answer::default()
        },
    }
}

// A and the verdict from the partial indices.
fn conclude(h: Hull, rows: u64, partials: [Ends; 3]) -> Figures
    requires { Sized h × Within (2 ^ 60) partials }
    ensures { answer_with result ≡ figures h rows partials }
{
    let attained = sums::attained(partials);
    let verdict = verdicts::verdict(attained, partials, verdicts::standard_of(h));
    Figures {
        verdict,
        rows,
        attained,
        partials,
    }
}

// The rows of a valid case, by its file and its rows as they are kept, over a table that is lent for its spans.
fn rows_of<'a>(kept: &'a [u8], file: Accepted, table: &'a mut [u64]) -> KeptRows<'a>
    requires { Valid (kept_case kept.now file.hull file.rows) × (place_width * file.rows ≤ length kept.now) × (length table.old ≡ 840) }
    ensures { (result.kept.ship.hull ≡ file.hull) × (result.kept.bytes.now ≡ kept.now) × (result.count ≡ file.rows) }
{
    spans::fill_table(file.hull, table);
    let ship = Subdivision {
        hull: file.hull,
        table,
    };
    kept_rows::of(ship, kept, file.rows as usize)
}

// A valid case, by its file and its rows as they are kept, with room for its shares.
fn complete(kept: &[u8], file: Accepted, sheet: &mut [u64]) -> Figures
    requires { Valid (kept_case kept.now file.hull file.rows) × (place_width * file.rows ≤ length kept.now) × (2 * file.rows ≤ length sheet.old) }
    ensures { (answer_with result ≡ answer (kept_case kept.now file.hull file.rows)) × (sheet.new ≡ shares (kept_case kept.now file.hull file.rows) ++ drop (2 * file.rows) sheet.old) }
{
    let mut t = [0u64; TABLE];
    let partials = fill(&rows_of(kept, file, &mut t), sheet);
    conclude(file.hull, file.rows, partials)
}

// Any bytes whatever: a refusal, which leaves the sheet as it is, or the answer, with each row's share on the sheet. There is room to
// keep 500 rows, and a line more.
pub fn answer(input: &[u8], sheet: &mut [u64]) -> Result<Figures, Refused>
    ensures { (answer_told result ≡ answered (reading input.now) (length sheet.old)) × (sheet.new ≡ sheet_after (reading input.now) sheet.old) }
{
    let mut kept = [0u8; KEPT];
    // No `?`: with it a call takes 47,615 bytes of stack, where the header has 47,500.
    let file = match reader::judge(input, &mut kept) {
        Ok(file) => file,
        Err(refused) => return Err(refused),
    };
    if ((sheet.len() / 2) as u64) < file.rows {
        return Err(Refused {
            fault: Fault::ShortSheet,
            line: 0,
        });
    }
    Ok(complete(&kept, file, sheet))
}
