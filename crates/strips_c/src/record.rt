// The calls on a record, words and counters.
ghost use Rattle.std.specs.Prelude.{◌≡◌};
ghost use Rattle.words.specs.Handles.{handle};
ghost use Rattle.counters.specs.Calls.{Ranked, Selected, verify_told, create_outcome, Pushed, Flipped, fill_outcome, truncate_outcome};
ghost use Rattle.words.specs.Refusals.{coded as coded_of, CodedAs};
ghost use Rattle.strips.specs.Exports.{changed_out, created_out, lent, reported, Reported};

// count(v, i): how many of the first i bits equal v.
#[unsafe(no_mangle)]
pub extern "C" fn strip_rank(
    capacity: u64,
    length: u64,
    total: u64,
    words: &[u64],
    counters: &[u32],
    v: u64,
    i: u64,
) -> u64
    ensures { CodedAs (Ranked (handle capacity length total) v i words.now counters.now) result }
{
    strips::strip_rank(capacity, length, total, words, counters, v, i)
}

// find(v, k): the position that holds v and has k of v before it.
#[unsafe(no_mangle)]
pub extern "C" fn strip_select(
    capacity: u64,
    length: u64,
    total: u64,
    words: &[u64],
    counters: &[u32],
    v: u64,
    k: u64,
) -> u64
    ensures { CodedAs (Selected (handle capacity length total) v k words.now counters.now) result }
{
    strips::strip_select(capacity, length, total, words, counters, v, k)
}

// check: the ones held, or 9 where the record does not fit.
#[unsafe(no_mangle)]
pub extern "C" fn strip_verify(
    capacity: u64,
    length: u64,
    total: u64,
    words: &[u64],
    counters: &[u32],
) -> u64
    ensures { result ≡ coded_of (verify_told (handle capacity length total) words.now counters.now) }
{
    strips::strip_verify(capacity, length, total, words, counters)
}

// lay(capacity): zeroes words and counters.
#[unsafe(no_mangle)]
pub extern "C" fn strip_create(
    capacity: u64,
    words: &mut [u64],
    counters: &mut [u32],
    out: &mut [u64],
)
    ensures { lent words.new counters.new out.new ≡ reported created_out words.old
        counters.old out.old (create_outcome capacity words.old counters.old) }
{
    strips::strip_create(capacity, words, counters, out)
}

// add(v): appends v.
#[unsafe(no_mangle)]
pub extern "C" fn strip_push(
    capacity: u64,
    length: u64,
    total: u64,
    words: &mut [u64],
    counters: &mut [u32],
    v: u64,
    out: &mut [u64],
)
    ensures { Reported (Pushed (handle capacity length total) v words.old counters.old) words.old
        counters.old out.old (lent words.new counters.new out.new) }
{
    strips::strip_push(capacity, length, total, words, counters, v, out)
}

// turn(i): replaces a bit by its opposite.
#[unsafe(no_mangle)]
pub extern "C" fn strip_flip(
    capacity: u64,
    length: u64,
    total: u64,
    words: &mut [u64],
    counters: &mut [u32],
    i: u64,
    out: &mut [u64],
)
    ensures { Reported (Flipped (handle capacity length total) i words.old counters.old) words.old
        counters.old out.old (lent words.new counters.new out.new) }
{
    strips::strip_flip(capacity, length, total, words, counters, i, out)
}

// run(a, b, v): sets the positions a to b - 1 to v.
#[unsafe(no_mangle)]
pub extern "C" fn strip_fill(
    capacity: u64,
    length: u64,
    total: u64,
    words: &mut [u64],
    counters: &mut [u32],
    a: u64,
    b: u64,
    v: u64,
    out: &mut [u64],
)
    ensures { lent words.new counters.new out.new ≡ reported changed_out words.old
        counters.old out.old (fill_outcome (handle capacity length total) a b v words.old counters.old) }
{
    strips::strip_fill(capacity, length, total, words, counters, a, b, v, out)
}

// cut(n): keeps the first n.
#[unsafe(no_mangle)]
pub extern "C" fn strip_truncate(
    capacity: u64,
    length: u64,
    total: u64,
    words: &mut [u64],
    counters: &mut [u32],
    n: u64,
    out: &mut [u64],
)
    ensures { lent words.new counters.new out.new ≡ reported changed_out words.old
        counters.old out.old (truncate_outcome (handle capacity length total) n words.old counters.old) }
{
    strips::strip_truncate(capacity, length, total, words, counters, n, out)
}
