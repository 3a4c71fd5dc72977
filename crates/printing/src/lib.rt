// The printed answer, written into a lent buffer line by line: a refusal, the figures, a row.
#![tactic(auto)]

ghost use Rattle.std.specs.Prelude.{cond, ◌≡◌, ◌+◌, ◌≤◌, length};
ghost use Rattle.hexadecimal.specs.Hex.{hex, line_of};
ghost use Rattle.digits.specs.Splice.{splice};
ghost use Rattle.printing.specs.Marks.{mark_byte, marks_field};
ghost use Rattle.printing.specs.Printed.{refusal_frame, figures_frame, row_frame};
ghost use Rattle.printing.specs.Written.{length_in, written_in};

use digits::{put_bytes, put_ends, put_feed, put_partials};
use records::{Answer, Ends, Marks, Survival};

// A refusal's line, in front.
fn put_refusal(number: u64, line: u64, out: &mut [u8])
    requires { 9 ≤ length out.old }
    ensures { out.new ≡ splice 0 (line_of (refusal_frame number line)) out.old }
{
    put_bytes::<1>(143, out, 0);
    put_bytes::<1>(number, out, 2);
    put_bytes::<2>(line, out, 4);
    put_feed(out, 8);
}

// Writes a refusal's line in front and returns its length; or leaves the buffer as it is and returns none, where it has too little room.
pub fn write_refusal(number: u64, line: u64, out: &mut [u8]) -> Option<usize>
    ensures { (result ≡ length_in (line_of (refusal_frame number line)) out.old) × (out.new ≡ written_in (line_of (refusal_frame number line)) out.old) }
{
    if out.len() < 9 {
        return None;
    }
    put_refusal(number, line, out);
    Some(9)
}

// The line of the verdict and the indices, in front.
pub fn put_figures(a: Answer, out: &mut [u8])
    requires { 69 ≤ length out.old }
    ensures { out.new ≡ splice 0 (line_of (figures_frame a)) out.old }
{
    put_bytes::<1>(129, out, 0);
    put_bytes::<1>(a.verdict, out, 2);
    put_ends(a.attained.lower, a.attained.upper, out, 4);
    put_partials(a.partials, out, 20);
    put_feed(out, 68);
}

// The marks as a byte.
pub fn mark_byte(m: Marks) -> u64
    ensures { result ≡ mark_byte m }
{
    u64::from(m.lever) + u64::from(m.range) * 2 + u64::from(m.heel) * 4 + u64::from(m.opening) * 8
}

// The marks at the three draughts.
fn put_marks(ss: [Survival; 3], out: &mut [u8], at: usize)
    requires { at + 6 ≤ length out.old }
    ensures { out.new ≡ splice at (hex (marks_field ss)) out.old }
{
    for (j, s) in ss.iter().enumerate() {
        put_bytes::<1>(mark_byte(s.marks), out, at + 2 * j);
    }
}

// The line of a row: its share and its marks.
pub fn put_row(share: Ends, ss: [Survival; 3], out: &mut [u8], at: usize)
    requires { at + 25 ≤ length out.old }
    ensures { out.new ≡ splice at (line_of (row_frame (record { share = share; survivals = ss }))) out.old }
{
    put_bytes::<1>(130, out, at);
    put_ends(share.lower, share.upper, out, at + 2);
    put_marks(ss, out, at + 18);
    put_feed(out, at + 24);
}
