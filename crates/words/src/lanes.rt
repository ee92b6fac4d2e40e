// A word as eight byte lanes.
ghost use Rattle.std.specs.Prelude.{◌≡◌, ℕ, ◌*◌, ◌%◌, ◌^◌, ◌<◌, ◌≤◌};
ghost use Rattle.words.specs.Bits.{digits, ones};
ghost use Rattle.words.specs.Words.{byte_of, ones_in_byte, Prefixes};
ghost use Rattle.words.specs.Working.{at_most};

// x times 0x0101_0101_0101_0101, modulo 2^64.
pub fn lane_product(x: u64) -> u64
    ensures { result ≡ (x * 0x0101_0101_0101_0101) % 2 ^ 64 }
{
    let y = x.wrapping_add(x << 8);
    let z = y.wrapping_add(y << 16);
    z.wrapping_add(z << 32)
}

// The eight byte counts: in each lane the ones of that byte of x.
pub fn byte_counts(x: u64) -> u64
    ensures { result ≡ digits (2 ^ 8) (ones_in_byte x) 8 }
{
    let a = (x & 0x5555_5555_5555_5555) + ((x >> 1) & 0x5555_5555_5555_5555);
    let b = (a & 0x3333_3333_3333_3333) + ((a >> 2) & 0x3333_3333_3333_3333);
    (b & 0x0f0f_0f0f_0f0f_0f0f) + ((b >> 4) & 0x0f0f_0f0f_0f0f_0f0f)
}

// The prefix sums of the byte counts: byte j is the ones in bytes 0 to j of x.
pub fn prefix_counts(x: u64) -> u64
    ensures { Prefixes x result }
{
    lane_product(byte_counts(x))
}

// How many of the eight lanes of s, each at most 64, are at most k.
pub fn lanes_at_most(s: u64, k: u64) -> u64
    requires { (k < 64) × ((j : ℕ) → j < 8 → byte_of s j ≤ 64) }
    ensures { result ≡ ones (at_most (byte_of s) k) 8 }
{
    let high = k * 0x0101_0101_0101_0101 + 0x8080_8080_8080_8080;
    let tests = (high - s) & 0x8080_8080_8080_8080;
    lane_product(tests >> 7) >> 56
}
