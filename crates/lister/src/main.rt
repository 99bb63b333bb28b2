// Lists the run of at most 4,096 schedule bytes from standard input.
#![tactic(auto)]

mod listing;
mod text;

ghost use Rattle.std.specs.Prelude.{◌<◌, ◌≤◌, length, take, IfOk};
ghost use Rattle.std.specs.Io.KnownBytes.{Consumes, IsAtEnd};

use std::io;
use std::io::Read;

// Reads until the buffer is full or the input ends, and answers how many bytes were read; what is behind a full buffer stays unread.
fn fill<R: Read>(input: &mut R, buffer: &mut [u8]) -> io::Result<usize>
    ensures within { IfOk result (λ n. n ≤ length buffer.new) }
    ensures bytes { IfOk result (λ n. Consumes (R.remaining input.old) (R.remaining input.new) (take n buffer.new)) }
    ensures end { IfOk result (λ n. n < length buffer.new → IsAtEnd (R.remaining input.new)) }
{
    // Counted by hand: `read_exact` answers no count where the input ends early, `read_to_end` takes a heap, and `io::copy` does not promise what it leaves in a slice.
    let mut n = 0;
    while n < buffer.len() {
        let got = input.read(&mut buffer[n..])?;
        if got == 0 {
            break;
        }
        n += got;
    }
    Ok(n)
}

fn main(rt: HostRuntime) -> io::Result<()> {
    let mut schedule = [0u8; 4096];
    let n = fill(&mut rt.stdin(), &mut schedule)?;
    let mut out = [0u8; 512];
    let len = listing::list(&schedule[..n], &mut out);
    rt.write_all(&out[..len])
}
