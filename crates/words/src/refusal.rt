// Refusals, their numbers, and an answer as one number.
ghost use Rattle.std.specs.Prelude.{◌≡◌, ◌<◌};
ghost use Rattle.words.specs.Refusals.{number_of, told_of, coded as coded_of};

// Why a call is refused, in the order of the numbers 1 to 18.
#[derive(Clone, Copy, Debug, PartialEq, Eq, Hash)]
pub enum Refusal {
    // capacity not allowed, length above capacity, or total above length
    BadHandle = 1,
    // words not exactly capacity / 64
    WordCount,
    // counters not exactly the node total times 72
    CounterCount,
    // a position at or past, or above, the length
    Position,
    // a span whose start is above its end
    Span,
    // no such stroke
    NotFound,
    // length at capacity
    Full,
    // a value neither 0 nor 1
    BadValue,
    // a record that does not fit
    Unfit,
    // a chain that is not sound; a part that is not one record of the length held
    Unsound,
    // a label out of range
    BadLabel,
    // a label that is there already
    LabelPresent,
    // an image too short or too long, or records that do not end inside it
    NoRoom,
    // a label that is not there
    LabelAbsent,
    // a row whose ones, entries or padding are wrong
    WrongRow,
    // two strips of unequal capacity or length
    Unequal,
    // a width not 1 to 65,536, or a number of misfires not 1 to the width
    BadWindow,
    // a label in two images with unequal rows
    Conflict,
}

// The number of a refusal.
impl From<Refusal> for u64 {
    ghost from_gives = { λ r n. (n ≡ number_of r) × (n < 100) };

    fn from(r: Refusal) -> u64 {
        r as u64
    }
}

// An answer as one number: the value, or 2^32 plus the refusal's number.
pub fn coded(a: Result<u64, Refusal>) -> u64
    ensures { result ≡ coded_of (told_of a) }
{
    match a {
        Ok(x) => x,
        Err(r) => 4294967296 + u64::from(r),
    }
}
