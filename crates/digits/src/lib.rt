// Numbers written as digits at a place of a lent buffer: bytes, the ends of figures, and the line feed.
#![tactic(auto)]

ghost use Rattle.std.specs.Prelude.{◌≡◌, [], ◌∷◌, ◌+◌, ◌*◌, ◌≤◌, ◌<◌, length};
ghost use Rattle.laws.specs.Bytes.{bytes};
ghost use Rattle.hexadecimal.specs.Hex.{digit, hex};
ghost use Rattle.digits.specs.Splice.{splice};
ghost use Rattle.digits.specs.Fields.{ends_field, partials_field};

use records::Ends;

// The digit of a number below 16: from ten on they stand 39 further. Numbers all along, so that a digit takes no jump.
fn digit_of(n: u8) -> u8
    requires { n < 16 }
    ensures { result ≡ digit n }
{
    b'0' + n + n / 10 * 39
}

// The N low bytes of n, the high one first: two digits each.
pub fn put_bytes<const N: usize>(n: u64, out: &mut [u8], at: usize)
    requires { (N ≤ 8) × (at + 2 * N ≤ length out.old) }
    ensures { out.new ≡ splice at (hex (bytes N n)) out.old }
{
    for (i, &byte) in n.to_be_bytes()[8 - N..].iter().enumerate() {
        out[at + 2 * i] = digit_of(byte / 16);
        out[at + 2 * i + 1] = digit_of(byte % 16);
    }
}

// A figure's ends.
pub fn put_ends(lower: u64, upper: u64, out: &mut [u8], at: usize)
    requires { at + 16 ≤ length out.old }
    ensures { out.new ≡ splice at (hex (ends_field lower upper)) out.old }
{
    put_bytes::<4>(lower, out, at);
    put_bytes::<4>(upper, out, at + 8);
}

// The ends of the partial indices.
pub fn put_partials(t: [Ends; 3], out: &mut [u8], at: usize)
    requires { at + 48 ≤ length out.old }
    ensures { out.new ≡ splice at (hex (partials_field t)) out.old }
{
    for (j, e) in t.iter().enumerate() {
        put_ends(e.lower, e.upper, out, at + 16 * j);
    }
}

// A line feed.
pub fn put_feed(out: &mut [u8], at: usize)
    requires { at + 1 ≤ length out.old }
    ensures { out.new ≡ splice at (10 ∷ []) out.old }
{
    out[at] = b'\n';
}
