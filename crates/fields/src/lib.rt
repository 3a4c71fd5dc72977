// Fields of a frame: numbers of one, of two and of four bytes, the high byte first, and of two bytes with a sign, at a place of a part of its bytes.
#![tactic(auto)]

ghost use Rattle.std.specs.Prelude.{◌≡◌, ◌+◌, ◌≤◌, ◌<◌, length};
ghost use Rattle.fields.specs.Fields.{byte_at, word_at, long_at, signed, signed_at};

// A byte of a part of a line, 0 past its end.
pub fn byte_at(f: &[u8], at: usize) -> u64
    ensures value { result ≡ byte_at f.now at }
    ensures small { result < 256 }
{
    match f.get(at) {
        Some(&byte) => byte.into(),
        None => 0,
    }
}

// Two bytes of a part of a line, the high one first. By hand, since each of them may be missing.
#[tactic(auto, unfolding(crate::specs::Fields::word_at))]
pub fn word_at(f: &[u8], at: usize) -> u64
    ensures value { result ≡ word_at f.now at }
    ensures small { result < 65536 }
{
    if f.len() <= at {
        return 0;
    }
    byte_at(f, at) * 256 + byte_at(f, at + 1)
}

// A byte of a part of a line that has it: it is read without a test. These stand beside those above, which ask nothing: with the tests a file of
// 500 rows takes 960 thousand instructions, without them 880.
pub fn byte_in(f: &[u8], at: usize) -> u64
    requires { at < length f.now }
    ensures value { result ≡ byte_at f.now at }
    ensures small { result < 256 }
{
    f[at].into()
}

// Two bytes of a part of a line that has both, the high one first.
#[tactic(auto, unfolding(crate::specs::Fields::word_at))]
pub fn word_in(f: &[u8], at: usize) -> u64
    requires { at + 2 ≤ length f.now }
    ensures value { result ≡ word_at f.now at }
    ensures small { result < 65536 }
{
    u16::from_be_bytes([f[at], f[at + 1]]).into()
}

// Four bytes of a part of a line that has them, the highest first.
#[tactic(auto, unfolding(crate::specs::Fields::word_at, crate::specs::Fields::long_at))]
pub fn long_in(f: &[u8], at: usize) -> u64
    requires { at + 4 ≤ length f.now }
    ensures value { result ≡ long_at f.now at }
    ensures small { result < 4294967296 }
{
    u32::from_be_bytes([f[at], f[at + 1], f[at + 2], f[at + 3]]).into()
}

// Two bytes of a part of a line that has both, the high one first, in two's complement.
#[tactic(auto, using(crate::proofs::Signed::as_read), unfolding(crate::specs::Fields::word_at))]
pub fn signed_in(f: &[u8], at: usize) -> i64
    requires { at + 2 ≤ length f.now }
    ensures { result ≡ signed_at f.now at }
{
    i16::from_be_bytes([f[at], f[at + 1]]).into()
}
