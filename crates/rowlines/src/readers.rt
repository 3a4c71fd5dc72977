// A row's records from the fields of its frame: the part of its bytes after the kind byte, or deeper at a draught's result.
ghost use Rattle.std.specs.Prelude.{◌≡◌, ◌+◌, ◌*◌, ◌≤◌, length};
ghost use Rattle.casefile.specs.Layout.{frame_length, head_of, result_length, finding_of, set_of, flooding_length, flooding_of, floodings_of};

use records::{Finding, Flooding, RowHead};
use std::array;

pub fn head(kind: u64, f: &[u8]) -> RowHead
    requires { 6 ≤ length f.now }
    ensures { result ≡ head_of kind f.now }
{
    RowHead {
        kind,
        first: fields::byte_in(f, 0),
        count: fields::byte_in(f, 1),
        depth: fields::word_in(f, 2),
        height: fields::word_in(f, 4),
    }
}

// One draught's result, read from where it starts.
fn finding(kind: u64, f: &[u8]) -> Finding
    requires { result_length kind ≤ length f.now }
    ensures { result ≡ finding_of kind f.now }
{
    match kind {
        3 => Finding {
            given: fields::word_in(f, 0),
            ..Finding::default()
        },
        _ => Finding {
            lever: fields::word_in(f, 0),
            range: fields::word_in(f, 2),
            heel: fields::word_in(f, 4),
            opening: fields::signed_in(f, 6),
            given: 0,
        },
    }
}

// How many bytes a draught's result has.
fn result_length(kind: u64) -> usize
    ensures { result ≡ result_length kind }
{
    match kind {
        3 => 2,
        _ => 8,
    }
}

// A set of results, one at each draught, in the order deepest, partial, light, read from where it starts.
pub fn set(kind: u64, f: &[u8]) -> [Finding; 3]
    requires { 3 * result_length kind ≤ length f.now }
    ensures { result ≡ set_of kind f.now }
{
    let length = result_length(kind);
    array::from_fn(|j| finding(kind, &f[j * length..]))
}

// What a passenger ship's row tells at one draught besides, read from where it starts.
fn flooding(f: &[u8]) -> Flooding
    requires { flooding_length ≤ length f.now }
    ensures { result ≡ flooding_of f.now }
{
    Flooding {
        displacement: fields::long_in(f, 0),
        moment: fields::long_in(f, 4),
        lever: fields::word_in(f, 8),
        range: fields::word_in(f, 10),
        heel: fields::word_in(f, 12),
        roro: fields::byte_in(f, 14),
    }
}

// At each draught, in the order deepest, partial, light, read from where it starts.
pub fn floodings(f: &[u8]) -> [Flooding; 3]
    requires { 3 * flooding_length ≤ length f.now }
    ensures { result ≡ floodings_of f.now }
{
    array::from_fn(|j| flooding(&f[15 * j..]))
}

// The bytes of a frame after the hull, by its kind.
#[tactic(auto, unfolding(casefile::specs::Layout::frame_length))]
pub fn frame_length(kind: u64) -> usize
    ensures { result ≡ frame_length kind }
{
    match kind {
        2 => 31,
        3 => 13,
        5 => 55,
        7 => 76,
        _ => 3,
    }
}
