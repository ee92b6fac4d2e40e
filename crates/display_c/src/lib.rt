// What libdisplay.a exports for C: the functions of the crate display, under their names and with their promises.
#![tactic(auto)]

ghost use Rattle.std.specs.Prelude.{◌≡◌};
ghost use Rattle.words.specs.Refusals.{coded as coded_of, CodedAs};
ghost use Rattle.image.specs.Calls.{inspect_told, row_get_told, RowRanked, RowSelected, row_length_told, row_label_told};

// inspect: the number of rows.
#[unsafe(no_mangle)]
pub extern "C" fn image_inspect(image: &[u8]) -> u64
    ensures { result ≡ coded_of (inspect_told image.now) }
{
    display::image_inspect(image)
}

// row count(v, i): how many of the first i bits of the label's row equal v.
#[unsafe(no_mangle)]
pub extern "C" fn image_row_rank(image: &[u8], label: u64, v: u64, i: u64) -> u64
    ensures { CodedAs (RowRanked image.now label v i) result }
{
    display::image_row_rank(image, label, v, i)
}

// row find(v, k): the position in the label's row that holds v and has k of v before it.
#[unsafe(no_mangle)]
pub extern "C" fn image_row_select(image: &[u8], label: u64, v: u64, k: u64) -> u64
    ensures { CodedAs (RowSelected image.now label v k) result }
{
    display::image_row_select(image, label, v, k)
}

// row look(i): the bit at position i of the label's row.
#[unsafe(no_mangle)]
pub extern "C" fn image_row_get(image: &[u8], label: u64, i: u64) -> u64
    ensures { result ≡ coded_of (row_get_told image.now label i) }
{
    display::image_row_get(image, label, i)
}

// The length of the label's row, in bits.
#[unsafe(no_mangle)]
pub extern "C" fn image_row_length(image: &[u8], label: u64) -> u64
    ensures { result ≡ coded_of (row_length_told image.now label) }
{
    display::image_row_length(image, label)
}

// The label of the k-th row, in chain order.
#[unsafe(no_mangle)]
pub extern "C" fn image_row_label(image: &[u8], k: u64) -> u64
    ensures { result ≡ coded_of (row_label_told image.now k) }
{
    display::image_row_label(image, k)
}
