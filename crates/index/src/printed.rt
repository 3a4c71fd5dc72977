// The printed answer of any bytes: a refusal's line, or that of the figures and one for each row.
ghost use Rattle.std.specs.Prelude.{◌≡◌, ◌+◌, ◌*◌, ◌≤◌, length};
ghost use Rattle.digits.specs.Splice.{splice};
ghost use Rattle.printing.specs.Printed.{printed};
ghost use Rattle.printing.specs.Written.{length_in, written_in};
ghost use Rattle.casefile.specs.Kept.{place_width};
ghost use Rattle.casefile.specs.Reading.{accepted, reading};
ghost use Rattle.casefile.specs.Valid.{Valid};
ghost use Rattle.answers.specs.Answer.{answer};
ghost use Rattle.answers.specs.Report.{lines_in, report};
ghost use Rattle.index.specs.Kept.{kept_case};

use super::{conclude, laid_out, rows_of};
use casefile::{Accepted, KEPT};
use spans::TABLE;

// A valid case, by its file and its rows as they are kept, in a buffer with room for its lines: those of the rows as they are worked out, then that
// of the figures in front.
fn put_case(kept: &[u8], file: Accepted, out: &mut [u8])
    requires { Valid (kept_case kept.now file.hull file.rows) × (place_width * file.rows ≤ length kept.now) × (69 + 25 * file.rows ≤ length out.old) }
    ensures { out.new ≡ splice 0 (printed (answer (kept_case kept.now file.hull file.rows)) (lines_in (accepted (kept_case kept.now file.hull file.rows)))) out.old }
{
    let mut t = [0u64; TABLE];
    let partials = rows::report_lines::print(&rows_of(kept, file, &mut t), out, 69);
    let figures = conclude(file.hull, file.rows, partials);
    printing::put_figures(laid_out(Ok(figures)), out);
}

// The printed answer of any bytes, in front of the buffer, and how many bytes that is; or none, and the buffer as it was, where there is too little room.
pub fn report(input: &[u8], out: &mut [u8]) -> Option<usize>
    ensures { (result ≡ length_in (report (reading input.now)) out.old) × (out.new ≡ written_in (report (reading input.now)) out.old) }
{
    let mut kept = [0u8; KEPT];
    match reader::judge(input, &mut kept) {
        Err(refused) => printing::write_refusal(u64::from(refused.fault), refused.line, out),
        Ok(file) => {
            let n = 69 + 25 * (file.rows as usize);
            if out.len() < n {
                return None;
            }
            put_case(&kept, file, out);
            Some(n)
        }
    }
}
