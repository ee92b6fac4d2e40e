// The burst call, on the words of a strip. It ignores the bits past the length and writes nothing.
ghost use Rattle.std.specs.Prelude.{◌≡◌, length};
ghost use Rattle.words.specs.Refusals.{judge, verdict_of, told_of};
ghost use Rattle.bursts.specs.Calls.{window_table, burst_table, Burst};

use super::window::Windows;
use words::{Refusal, Strip, UNTAKEN, check_strip};

// The widest window.
pub const MOST_WIDTH: usize = 65536;

// The check of a window's width and number of misfires: 17.
fn check_window(w: usize, m: usize) -> Result<(), Refusal>
    ensures { verdict_of result ≡ judge (window_table w m) }
{
    if (1..=MOST_WIDTH).contains(&w) && (1..=w).contains(&m) {
        return Ok(());
    }
    Err(Refusal::BadWindow)
}

// The checks of a burst: 1, 2; 17.
fn check_burst(strip: Strip, w: usize, m: usize) -> Result<(), Refusal>
    ensures { verdict_of result ≡ judge (burst_table strip.entry.handle (length strip.entry.words.now) w m) }
{
    check_strip(strip.handle, strip.words.len(), UNTAKEN)?;
    check_window(w, m)
}

// burst(w, m): the start of a window of w strokes, wholly inside the strip, that holds at least m misfires.
pub fn burst(strip: Strip, w: usize, m: usize) -> Result<u64, Refusal>
    ensures { Burst strip.entry.handle strip.entry.words.now w m (told_of result) }
{
    check_burst(strip, w, m)?;
    let n = strip.handle.length;
    let windows = Windows {
        words: strip.words,
        w,
        m,
    };
    match windows.first_below(n) {
        Some(a) => Ok(a as u64),
        None => Err(Refusal::NotFound),
    }
}
