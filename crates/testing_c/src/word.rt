// Select in a word.
ghost use Rattle.std.specs.Prelude.{◌≡◌};
ghost use Rattle.words.specs.Words.{select_in};

// The position of the k-th one of a word, k from 0, or 64 where it has too few.
#[unsafe(no_mangle)]
pub extern "C" fn strip_select_in_word(x: u64, k: u64) -> u64
    ensures { result ≡ select_in 64 x 1 k }
{
    testing::strip_select_in_word(x, k)
}
