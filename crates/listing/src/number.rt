// Numbers in decimal, stored into a list of bytes.
ghost use Rattle.std.specs.Prelude.{◌≡◌, ◌+◌, ◌<◌, ◌≤◌, length};
ghost use Rattle.listing.specs.Text.{decimal, ended_by};
ghost use Rattle.listing.specs.Working.{Put};

// The ASCII digit of d.
fn digit(d: u64) -> u8
    requires { d < 10 }
    ensures { result ≡ 48 + d }
{
    48 + d as u8
}

// v in decimal from byte `at` on; answers where it ends.
// Kept: std prints a number into a Formatter alone; the toolchain's crate for it, itoa, would be one more to trust.
fn put_decimal(out: &mut [u8], at: usize, v: u64) -> usize
    requires { at + length (decimal v) ≤ length out.old }
    ensures { Put out.old at (decimal v) out.new result }
{
    let mut last = at;
    if 9 < v {
        last = put_decimal(out, at, v / 10);
    }
    out[last] = digit(v % 10);
    last + 1
}

// v in decimal and a byte after it, from byte `at` on; answers where they end.
pub fn put_ended(out: &mut [u8], at: usize, v: u64, byte: u8) -> usize
    requires { at + length (ended_by v byte) ≤ length out.old }
    ensures { Put out.old at (ended_by v byte) out.new result }
{
    let last = put_decimal(out, at, v);
    out[last] = byte;
    last + 1
}
