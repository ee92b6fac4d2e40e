// Reads an image from standard input, and writes a line for each of its rows to standard output: label, length in bits, ones.
#![tactic(auto)]

ghost use Rattle.std.specs.Prelude.{◌≤◌, length, IfOk};

use listing::{MOST_LISTED, TEXT_BYTES, write_rows};
use std::io::{self, Read, Write};

// Fills a buffer from a reader, or up to where that ends, and answers how many bytes there were.
// Kept: std's `read_exact` fails where the input is shorter, and its `read_to_end` needs the heap.
fn read_full<R: Read>(reader: &mut R, out: &mut [u8]) -> io::Result<usize>
    ensures { IfOk result (λ n. n ≤ length out.old) }
{
    let mut n = 0;
    while n < out.len() {
        let k = reader.read(&mut out[n..])?;
        if k == 0 {
            break;
        }
        n += k;
    }
    Ok(n)
}

fn main(rt: HostRuntime) -> io::Result<()> {
    // one byte more than is listed, so that a longer image shows
    let mut image = [0u8; MOST_LISTED + 1];
    let n = read_full(&mut rt.stdin(), &mut image)?;
    let mut text = [0u8; TEXT_BYTES];
    match write_rows(&image[..n], &mut text) {
        Some(k) => rt.stdout().write_all(&text[..k]),
        None => Ok(()),
    }
}
