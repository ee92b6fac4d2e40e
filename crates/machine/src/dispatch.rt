// One call of a script.
ghost use Rattle.std.specs.Prelude.{◌≡◌};
ghost use Rattle.words.specs.Refusals.{told_of};
ghost use Rattle.counters.specs.Promises.{created_of};
ghost use Rattle.machine.specs.Scripts.{called};
ghost use Rattle.machine.specs.Machine.{tells};
ghost use Rattle.machine.specs.Unit.{strip_record, unit_state, created_step, reply_step, unit_step, Acted};

use counters::{Change, Laid, Record, create, fill, flip, push, truncate};
use image::{clear, freeze, inspect, row_get, row_rank, row_select};
use words::{Handle, Refusal, Strip};

// What lay answers, as a change does.
fn laid(r: Result<Laid, Refusal>) -> Result<Change, Refusal>
    ensures { (h : Handle) → reply_step h result ≡ created_step h (created_of r) }
{
    r.map(|l| Change {
        handle: l.handle,
        first: l.counters,
        second: 0,
    })
}

// What a call answers that changes no strip: handle h stays in use.
fn told(h: Handle, r: Result<u64, Refusal>) -> Result<Change, Refusal>
    ensures { reply_step h result ≡ tells h (told_of r) }
{
    r.map(|x| Change {
        handle: h,
        first: x,
        second: 0,
    })
}

// The call of opcode `op` modulo 17 with the arguments x, y, z, on handle h and any buffers. Where it is refused h stays in use.
pub fn step(
    op: u64,
    x: u64,
    y: u64,
    z: u64,
    h: Handle,
    words: &mut [u64],
    counters: &mut [u32],
    image: &mut [u8],
) -> Result<Change, Refusal>
    ensures { Acted (called op x y z) (unit_state (strip_record h words.old counters.old) image.old)
        (unit_step h result words.new counters.new image.new) }
{
    // Kept: the opcode as a number, as C and specs/Scripts `called` have it: an enum between would be a second match over the same 17.
    match op % 17 {
        0 => laid(create(x as usize, words, counters)),
        1 => push(h, words, counters, x),
        2 => flip(h, words, counters, x as usize),
        3 => fill(h, words, counters, x as usize, y as usize, z),
        4 => truncate(h, words, counters, x as usize),
        5 => told(h, Strip::new(h, words).get(x as usize)),
        6 => told(h, Record::new(h, words, counters).rank(x, y as usize)),
        7 => told(h, Record::new(h, words, counters).select(x, y as usize)),
        8 => told(h, Strip::new(h, words).successor(x, y as usize)),
        9 => told(h, Strip::new(h, words).predecessor(x, y as usize)),
        10 => told(h, Record::new(h, words, counters).verify()),
        11 => told(h, clear(image)),
        12 => told(h, freeze(Strip::new(h, words), image, x as usize)),
        13 => told(h, inspect(image)),
        14 => told(h, row_rank(image, x as usize, y, z as usize)),
        15 => told(h, row_select(image, x as usize, y, z as usize)),
        _ => told(h, row_get(image, x as usize, y as usize)),
    }
}
