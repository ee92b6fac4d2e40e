// A whole script, from the opening on.
ghost use Rattle.std.specs.Prelude.{◌≡◌, ◌+◌, ◌≤◌, [], ◌∷◌, length};
ghost use Rattle.std.proofs.lemmas.List.Edits.{sets};
ghost use Rattle.words.specs.Refusals.{judge, verdict_of};
ghost use Rattle.image.specs.Calls.{clear_table};
ghost use Rattle.machine.specs.Machine.{answers as answers_of, opening_table};
ghost use Rattle.machine.specs.Unit.{strip_record, unit_state, reply_step};
ghost use Rattle.machine.specs.Runner.{head_answers, answers_for, calls_in, ended, Executed};
ghost use Rattle.machine.specs.Loop.{Looped};

use super::dispatch::step;
use counters::{Change, check_record, create};
use image::{clear, size_good};
use words::{Handle, Refusal};

// The numbers of a call in a script.
const CALL_NUMBERS: usize = 4;
// The answers before those of the calls.
const HEAD_ANSWERS: usize = 4;
// The answers of a call.
const CALL_ANSWERS: usize = 3;

// The answers of a call: refusal or 0, and two values.
fn numbers_of(r: Result<Change, Refusal>) -> [u64; CALL_ANSWERS]
    ensures { (h : Handle) → result ≡ answers_of (reply_step h r) }
{
    match r {
        Ok(c) => [0, c.first, c.second],
        Err(e) => [u64::from(e), 0, 0],
    }
}

// The handle in use after a call on handle h.
fn handle_after(h: Handle, r: Result<Change, Refusal>) -> Handle
    ensures { result ≡ (reply_step h r).next }
{
    match r {
        Ok(c) => c.handle,
        Err(_) => h,
    }
}

// The answers before those of the calls: the opening is accepted, and h is the last handle.
fn head(h: Handle) -> [u64; HEAD_ANSWERS]
    ensures { result ≡ 0 ∷ h.capacity ∷ h.length ∷ h.total ∷ [] }
{
    [0, h.capacity as u64, h.length as u64, h.total as u64]
}

// Puts numbers in place of those from place `at` on. N is a constant, so that the copy is stores and no call of memmove.
fn put_answers<const N: usize>(answers: &mut [u64], at: usize, numbers: &[u64; N])
    requires { at + N ≤ length answers.old }
    ensures { answers.new ≡ sets answers.old at numbers.now }
{
    answers[at..at + N].copy_from_slice(numbers);
}

// Every call of a script, on handle h and any buffers; the answers after the first four places. Answers the handle last given back.
// Kept: the handle and the buffers apart, since a struct of them takes a clause for each buffer that its reference stays, and `step` has them apart for users.
fn run_calls(
    script: &[u64],
    h: Handle,
    words: &mut [u64],
    counters: &mut [u32],
    image: &mut [u8],
    answers: &mut [u64],
) -> Handle
    requires { answers_for (calls_in script.now) ≤ length answers.old }
    ensures { Looped script.now (unit_state (strip_record h words.old counters.old) image.old)
        answers.old (unit_state (strip_record result words.new counters.new) image.new) answers.new }
{
    let mut last = h;
    let calls = script.as_chunks::<CALL_NUMBERS>().0;
    for (i, &[op, x, y, z]) in calls.iter().enumerate() {
        let r = step(op, x, y, z, last, words, counters, image);
        put_answers(answers, HEAD_ANSWERS + CALL_ANSWERS * i, &numbers_of(r));
        last = handle_after(last, r);
    }
    last
}

// The refusal of clear, from the number of bytes alone: 13.
fn check_clear(bytes: usize) -> Result<(), Refusal>
    ensures { verdict_of result ≡ judge (clear_table bytes) }
{
    if !size_good(bytes) {
        return Err(Refusal::NoRoom);
    }
    Ok(())
}

// The refusal of the opening, from numbers alone: nothing is written before it is known.
fn check_opening(
    capacity: usize,
    clear_first: bool,
    words: usize,
    counters: usize,
    bytes: usize,
) -> Result<(), Refusal>
    ensures { verdict_of result ≡ judge (opening_table capacity clear_first words counters bytes) }
{
    let h = Handle::new(capacity, 0, 0);
    if clear_first {
        check_clear(bytes)?;
        return check_record(h, words, counters);
    }
    check_record(h, words, counters)?;
    check_clear(bytes)
}

// The opening lay and clear, then every call of a script. Clear's refusals are judged first where `order` is not 0; accepted, the two meet no common buffer.
// Answers the number of calls run; 2^64 - 1, and nothing runs, where `answers` is too short for them. The answers: refusal of the opening or 0, capacity,
// length and total of the last handle, then refusal or 0 and two values for each call. A refused opening writes its number alone, and 0 is answered. Numbers
// past the last whole call are unread.
// Kept: `order` as a number, and 2^64 - 1 in place of an Option, since C gives the one and gets the other (specs/Runner `executed`).
pub fn execute(
    script: &[u64],
    capacity: usize,
    order: u64,
    words: &mut [u64],
    counters: &mut [u32],
    image: &mut [u8],
    answers: &mut [u64],
) -> u64
    ensures { Executed script.now capacity order words.old counters.old image.old
        answers.old (ended result words.new counters.new image.new answers.new) }
{
    let calls = script.len() / CALL_NUMBERS;
    if answers.len() < HEAD_ANSWERS + CALL_ANSWERS * calls {
        return u64::MAX;
    }
    let opening = check_opening(
        capacity,
        order != 0,
        words.len(),
        counters.len(),
        image.len(),
    );
    if let Err(r) = opening {
        answers[0] = u64::from(r);
        return 0;
    }
    // Both are accepted, as judged above.
    let _ = create(capacity, words, counters);
    let _ = clear(image);
    let opened = Handle::new(capacity, 0, 0);
    let last = run_calls(script, opened, words, counters, image, answers);
    put_answers(answers, 0, &head(last));
    calls as u64
}
