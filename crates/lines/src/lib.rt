// The case file's lines: cut at line feeds.
#![tactic(auto)]

ghost use Rattle.std.specs.Prelude.{◌≡◌, ◌+◌, ◌≤◌, length, drop};
ghost use Rattle.lines.specs.Lines.{line_length, has_feed};

pub mod iter; // the lines one after the other

// Whether one of these bytes is a line feed: each is looked at whatever the others are, so that no jump is taken among them.
#[tactic(auto, unfolding(crate::specs::Lines::has_feed))]
fn has_feed(run: &[u8]) -> bool
    ensures { result ≡ has_feed run.now }
{
    let mut found = false;
    for &b in run {
        found |= b == b'\n';
    }
    found
}

// How far a text has no line feed, in whole runs of N bytes.
fn past_runs<const N: usize>(text: &[u8]) -> usize
    requires { 1 ≤ N }
    ensures within { result ≤ length text.now }
    ensures feedless { result + line_length (drop result text.now) ≡ line_length text.now }
{
    let mut past = 0;
    for run in text.chunks_exact(N) {
        if has_feed(run) {
            return past;
        }
        past += N;
    }
    past
}

// Where the line that starts at a place ends: at its line feed, or where the input ends. Sixteen bytes are looked at together as long as there are so
// many, then eight, which the compiler takes at once.
pub fn line_end(input: &[u8], at: usize) -> usize
    ensures { result ≡ at + line_length (drop at input.now) }
{
    let Some(text) = input.get(at..) else {
        return at;
    };
    let sixteens = past_runs::<16>(text);
    let past = sixteens + past_runs::<8>(&text[sixteens..]);
    let rest = &text[past..];
    at + past + rest.iter().position(|&b| b == b'\n').unwrap_or(rest.len())
}
