// Reads the first 8,192 bytes of standard input as a PGM picture, and prints what the job says of it.
#![tactic(auto)]

ghost use Rattle.std.specs.Prelude.{◌≤◌, length, IfOk};

use std::io;
use std::io::{Read, Write};

// Fills the buffer from standard input as far as it goes, and answers how many bytes there were.
fn take(rt: &HostRuntime, bytes: &mut [u8]) -> io::Result<usize>
    ensures answers_a_count_within { IfOk result (λ n. n ≤ length bytes.new) }
{
    let mut input = rt.stdin();
    let mut n = 0usize;
    for _ in 0..8193 {
        if n >= bytes.len() {
            break;
        }
        let k = input.read(&mut bytes[n..])?;
        if k == 0 {
            break;
        }
        n += k;
    }
    Ok(n)
}

fn main(rt: HostRuntime) -> io::Result<()> {
    let mut bytes = [0u8; 8192];
    let n = take(&rt, &mut bytes)?;
    let text = skyplate_job::report::report(rt.alloc(), &bytes[0..n])?;
    rt.stdout().write_all(&text)
}
