// The program: a case file from standard input, of which a byte past the limit is enough to refuse it, and its printed answer.
#![tactic(auto)]

ghost use Rattle.std.specs.Prelude.{◌≤◌, length, take};
ghost use Rattle.std.specs.Io.KnownBytes.{Consumes};

use casefile::LONGEST_INPUT;
use std::io::Read;

// Reads until the buffer is full or the input ends, and returns how many bytes it has put in front: those that the reader had next, in their order. A
// read that fails is taken for the end.
fn read_full<R: Read>(input: &mut R, buffer: &mut [u8]) -> usize
    ensures room { result ≤ length buffer.new }
    ensures bytes { Consumes (R.remaining input.old) (R.remaining input.new) (take result buffer.new) }
{
    // No range to go over: how many bytes a reading gives is its own, and the library's whole readings take memory from the heap.
    let mut done = 0;
    while done < buffer.len() {
        match input.read(&mut buffer[done..]) {
            Ok(n) if n > 0 => done += n,
            _ => break,
        }
    }
    done
}

fn main(rt: HostRuntime) {
    let mut input = [0u8; LONGEST_INPUT + 1];
    let n = read_full(&mut rt.stdin(), &mut input);
    let mut out = [0u8; 12_569];
    let k = index::printed::report(&input[..n], &mut out).unwrap_or(0);
    if rt.write_all(&out[..k]).is_err() {
        let _ = rt
            .stderr()
            .write_all(b"damindex: the answer could not be written\n");
    }
}
