// Scripts of calls, and one call of a script on any record and image.
ghost use Rattle.words.specs.Handles.{handle};
ghost use Rattle.machine.specs.Scripts.{called};
ghost use Rattle.machine.specs.Unit.{strip_record, unit_state, Acted};
ghost use Rattle.machine.specs.Runner.{ended, Executed};
ghost use Rattle.testing.specs.Steps.{lent_all, StepReported};

use machine::{execute, step};
use strips::{OUT_NUMBERS, handle_over, write_change};

// The opening lay and clear, clear's refusals first where `order` is not 0, then every call of a script.
pub fn strip_execute(
    script: &[u64],
    capacity: u64,
    order: u64,
    words: &mut [u64],
    counters: &mut [u32],
    image: &mut [u8],
    answers: &mut [u64],
) -> u64
    ensures { Executed script.now capacity order words.old counters.old image.old
        answers.old (ended result words.new counters.new image.new answers.new) }
{
    execute(
        script,
        capacity as usize,
        order,
        words,
        counters,
        image,
        answers,
    )
}

// One call of a script, on the handle of this capacity, length and total and any buffers. Writes six numbers to the front of `out`: refusal or 0, first value,
// second value, capacity, length and total of the handle now in use. With a shorter `out` nothing runs.
pub fn strip_step(
    op: u64,
    x: u64,
    y: u64,
    z: u64,
    capacity: u64,
    length: u64,
    total: u64,
    words: &mut [u64],
    counters: &mut [u32],
    image: &mut [u8],
    out: &mut [u64],
)
    ensures { StepReported (Acted (called op x y z)
        (unit_state (strip_record (handle capacity length total) words.old counters.old) image.old))
        (lent_all words.old counters.old image.old out.old)
        (lent_all words.new counters.new image.new out.new) }
{
    if out.len() < OUT_NUMBERS {
        return;
    }
    let h = handle_over(capacity, length, total);
    let m = step(op, x, y, z, h, words, counters, image);
    write_change(out, h, m);
}
