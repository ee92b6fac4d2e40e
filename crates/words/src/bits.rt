// Bits of one word, and the number of a value among bits.
ghost use Rattle.std.specs.Prelude.{◌≡◌, ◌+◌, ◌-◌, ◌^◌, ◌<◌, ◌≤◌};
ghost use Rattle.words.specs.Bits.{bit, ones};
ghost use Rattle.words.specs.Strip.{as_bit, of_value};
ghost use Rattle.words.specs.Working.{WordPut, Matched};

// Bit i of a word.
pub fn bit_of(x: u64, i: usize) -> u64
    requires { i < 64 }
    ensures { result ≡ bit x i }
{
    (x >> i) & 1
}

// The word whose low i bits are ones.
pub fn low_mask(i: usize) -> u64
    requires { i ≤ 64 }
    ensures { result ≡ 2 ^ i - 1 }
{
    if i == 64 {
        return 0xffff_ffff_ffff_ffff;
    }
    (1u64 << i) - 1
}

// The ones of a word.
pub fn ones_of(x: u64) -> usize
    ensures { result ≡ ones (bit x) 64 }
{
    x.count_ones() as usize
}

// The word with bit i flipped.
pub fn flip_bit(x: u64, i: usize) -> u64
    requires { i < 64 }
    ensures { WordPut x i (i + 1) (1 - bit x i) result }
{
    x ^ (1u64 << i)
}

// The word with the bits from a to e - 1 set to v.
pub fn put_range(x: u64, a: usize, e: usize, v: bool) -> u64
    requires { (a ≤ e) × (e ≤ 64) }
    ensures { WordPut x a e (as_bit v) result }
{
    let mask = low_mask(e) - low_mask(a);
    if v { x | mask } else { x & !mask }
}

// The word with bit i set to v.
// Kept: beside `put_range`, which makes two masks and tests each for the whole word.
pub fn put_bit(x: u64, i: usize, v: bool) -> u64
    requires { i < 64 }
    ensures { WordPut x i (i + 1) (as_bit v) result }
{
    let mask = 1u64 << i;
    if v { x | mask } else { x & !mask }
}

// The word whose ones are the bits of x that equal v.
pub fn matches(x: u64, v: bool) -> u64
    ensures { Matched x (as_bit v) result }
{
    if v { x } else { !x }
}

// The number of v, 0 or 1, among n bits of which `ones` are ones; no zeros where there are more ones than bits.
pub fn of_value(v: u64, n: usize, ones: usize) -> usize
    ensures { result ≡ of_value v n ones }
{
    if v == 1 { ones } else { n.saturating_sub(ones) }
}
