// The service for a host in another language: the printed answer, its twelve figures, its rows, R with the mark of a partial index, or the shares of its
// zone groups, on numbers and lent slices alone, and the version.
#![tactic(auto)]

ghost use Rattle.std.specs.Prelude.{◌≡◌, length};
ghost use Rattle.casefile.specs.Reading.{reading};
ghost use Rattle.printing.specs.Written.{count_in, written_in};
ghost use Rattle.answers.specs.Report.{report, rows_in, required_in, groups_in};
ghost use Rattle.host.specs.Figures.{figure_count, figures_after, sheet_beside};
ghost use Rattle.host.specs.Version.{version};

// This version: the one place of it in code. The header, the shared object's name and the pkg-config file are held to it.
const MAJOR: u32 = 7;

const MINOR: u32 = 0;

const PATCH: u32 = 0;

const VERSION: u32 = 10_000 * MAJOR + 100 * MINOR + PATCH;

// The version as one number, so that a host can tell whether it has the library that it was written for.
#[tactic(auto, using(crate::proofs::Values::of_this))]
#[unsafe(no_mangle)]
pub extern "C" fn damindex_version() -> u32
    ensures { result ≡ version }
{
    VERSION
}

// The printed answer of any bytes, in front of the buffer, and how many bytes that is: none where there is too little room.
#[tactic(auto, using(printing::proofs::Written::counted))]
#[unsafe(no_mangle)]
pub extern "C" fn damindex_report(input: &[u8], out: &mut [u8]) -> usize
    ensures { (result ≡ count_in (report (reading input.now)) out.old) × (out.new ≡ written_in (report (reading input.now)) out.old) }
{
    index::printed::report(input, out).unwrap_or(0)
}

// The twelve figures of any bytes, in front of those lent, with each row's share on the sheet; or 0, and nothing is written, where fewer than
// twelve are lent.
#[unsafe(no_mangle)]
pub extern "C" fn damindex_figures(input: &[u8], sheet: &mut [u64], figures: &mut [u64]) -> usize
    ensures { (result ≡ figure_count figures.old) × (figures.new ≡ figures_after (reading input.now) (length sheet.old) figures.old) × (sheet.new ≡ sheet_beside figures.old (reading input.now) sheet.old) }
{
    if figures.len() < 12 {
        return 0;
    }
    let answer = index::laid_out(index::answer(input, sheet));
    figures::write_figures(answer, figures);
    12
}

// The rows of any bytes that are accepted, twenty numbers a row in front of those lent: the ends of the share, and at each draught v, the bottom, the top,
// the byte of the marks and the ends of what the row adds. How many numbers that is: none, and nothing is written, where the bytes are refused or there is
// too little room.
#[tactic(auto, using(workings::proofs::Told::rows_counted))]
#[unsafe(no_mangle)]
pub extern "C" fn damindex_rows(input: &[u8], rows: &mut [u64]) -> usize
    ensures { (result ≡ count_in (rows_in (reading input.now)) rows.old) × (rows.new ≡ written_in (rows_in (reading input.now)) rows.old) }
{
    workings::rows(input, rows).unwrap_or(0)
}

// R and the mark of a partial index of any bytes that are accepted, numerator and denominator of each in front of those lent. How many numbers that is: none,
// and nothing is written, where the bytes are refused or there is too little room.
#[tactic(auto, using(workings::proofs::Told::required_counted))]
#[unsafe(no_mangle)]
pub extern "C" fn damindex_required(input: &[u8], numbers: &mut [u64]) -> usize
    ensures { (result ≡ count_in (required_in (reading input.now)) numbers.old) × (numbers.new ≡ written_in (required_in (reading input.now)) numbers.old) }
{
    workings::required(input, numbers).unwrap_or(0)
}

// The share of each group of zones of any bytes that are accepted, down to half the breadth, lower end and upper end in front of those lent. How many numbers
// that is: none, and nothing is written, where the bytes are refused or there is too little room.
#[tactic(auto, using(workings::proofs::Told::groups_counted))]
#[unsafe(no_mangle)]
pub extern "C" fn damindex_groups(input: &[u8], numbers: &mut [u64]) -> usize
    ensures { (result ≡ count_in (groups_in (reading input.now)) numbers.old) × (numbers.new ≡ written_in (groups_in (reading input.now)) numbers.old) }
{
    workings::groups(input, numbers).unwrap_or(0)
}
