// What stands in a line of the case file: hexadecimal digits, decoded to bytes.
#![tactic(auto)]

ghost use Rattle.std.specs.Prelude.{◌≡◌, not, ◌+◌, ◌*◌, ◌≤◌, min, length, take, drop};
ghost use Rattle.std.proofs.lemmas.List.Edits.{sets};
ghost use Rattle.laws.specs.Lists.{tabulate};
ghost use Rattle.hexadecimal.specs.Hex.{digits_only, bytes_of};
ghost use Rattle.frames.specs.Decoding.{mark_at, other_below, written_of};

use hexadecimal::value_of;
use std::array;

// The values of the 32 bytes from a place on: in an array of their own, so that no store can touch them.
fn values(text: &[u8], at: usize) -> [u8; 32]
    requires { at + 32 ≤ length text.now }
    ensures { result ≡ tabulate (λ k. mark_at text.now (at + k)) 32 }
{
    array::from_fn(|k| value_of(text[at + k]))
}

// Whether one of 32 values is that of no digit.
fn some_other(v: [u8; 32]) -> bool
    ensures { result ≡ other_below v 32 }
{
    let mut bad = false;
    for value in v {
        bad |= value == 16;
    }
    bad
}

// Writes the bytes of the sixteen pairs from pair i on to their places, and says whether one of their digits is none.
fn decode_sixteen(text: &[u8], out: &mut [u8], i: usize) -> bool
    requires { (i * 2 + 32 ≤ length text.now) × (i + 16 ≤ length out.old) }
    ensures result { result ≡ not (digits_only (take 32 (drop (i * 2) text.now))) }
    ensures buffer { out.new ≡ sets out.old i (take 16 (drop i (bytes_of text.now))) }
{
    let v = values(text, i * 2);
    for k in 0..16 {
        let h = v[2 * k];
        let l = v[2 * k + 1];
        out[i + k] = h % 16 * 16 + l % 16;
    }
    some_other(v)
}

// Writes the bytes of the first m pairs to the front of the buffer, one by one, and says whether one of their digits is none.
fn decode_few(text: &[u8], out: &mut [u8], m: usize) -> bool
    requires { (m * 2 ≤ length text.now) × (m ≤ length out.old) }
    ensures result { result ≡ not (digits_only (take (m * 2) text.now)) }
    ensures buffer { out.new ≡ sets out.old 0 (take m (bytes_of text.now)) }
{
    let mut bad = false;
    for i in 0..m {
        let h = value_of(text[i * 2]);
        let l = value_of(text[i * 2 + 1]);
        bad |= h == 16;
        bad |= l == 16;
        out[i] = h % 16 * 16 + l % 16;
    }
    bad
}

// The same of however many pairs. Each turn does the same whatever the digits are, and sixteen pairs are a turn, so that the compiler takes them at
// once; the last sixteen end with the last pair, and those among them that were read before come out as they did. A `for` over `0..m.div_ceil(16)` was
// tried and is slower: 961 thousand instructions where this takes 873 on the file of 500 rows, 1,290 and 1,030 with second sets.
fn decode_pairs(text: &[u8], out: &mut [u8], m: usize) -> bool
    requires { (m * 2 ≤ length text.now) × (m ≤ length out.old) }
    ensures result { result ≡ not (digits_only (take (m * 2) text.now)) }
    ensures buffer { out.new ≡ sets out.old 0 (take m (bytes_of text.now)) }
{
    if m < 16 {
        return decode_few(text, out, m);
    }
    let mut bad = false;
    let mut i: usize = 0;
    while i < m {
        let at = i.min(m - 16);
        bad |= decode_sixteen(text, out, at);
        i = at + 16;
    }
    bad
}

// Whether one of a text's bytes is no digit.
fn has_other(text: &[u8]) -> bool
    ensures { result ≡ not (digits_only text.now) }
{
    let mut bad = false;
    for &byte in text {
        bad |= value_of(byte) == 16;
    }
    bad
}

// Judges all of a line's text, and writes its bytes to the front of the buffer, as many as go in: how many it has, or none where it is badly written.
pub fn decode_text(text: &[u8], out: &mut [u8]) -> Option<usize>
    ensures result { result ≡ written_of text.now }
    ensures buffer { out.new ≡ sets out.old 0 (bytes_of text.now) }
{
    let n = text.len() / 2;
    let m = n.min(out.len());
    let front = decode_pairs(text, out, m);
    let rest = has_other(&text[m * 2..]);
    if front | rest | (text.len() % 2 == 1) | (n == 0) {
        return None;
    }
    Some(n)
}
