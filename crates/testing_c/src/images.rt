// Opening a row, the calls on a row's part, and those on an opened row.
ghost use Rattle.std.specs.Prelude.{◌≡◌};
ghost use Rattle.words.specs.Refusals.{coded as coded_of, CodedAs};
ghost use Rattle.image.specs.Kinds.{kind1};
ghost use Rattle.image.specs.Calls.{open_told, part_get_told, PartRanked, PartSelected, row_get_told, RowRanked, RowSelected};

// Opening: the byte where the label's record starts.
#[unsafe(no_mangle)]
pub extern "C" fn image_open(image: &[u8], label: u64) -> u64
    ensures { result ≡ coded_of (open_told image.now label) }
{
    testing::image_open(image, label)
}

// look(i) on a row's part and a held length.
#[unsafe(no_mangle)]
pub extern "C" fn image_part_get(part: &[u8], n: u64, i: u64) -> u64
    ensures { result ≡ coded_of (part_get_told kind1 part.now n i) }
{
    testing::image_part_get(part, n, i)
}

// count(v, i) on a row's part and a held length.
#[unsafe(no_mangle)]
pub extern "C" fn image_part_rank(part: &[u8], n: u64, v: u64, i: u64) -> u64
    ensures { CodedAs (PartRanked kind1 part.now n v i) result }
{
    testing::image_part_rank(part, n, v, i)
}

// find(v, k) on a row's part and a held length.
#[unsafe(no_mangle)]
pub extern "C" fn image_part_select(part: &[u8], n: u64, v: u64, k: u64) -> u64
    ensures { CodedAs (PartSelected kind1 part.now n v k) result }
{
    testing::image_part_select(part, n, v, k)
}

// Opening a row, then look(i) on it; a refusal of the opening passes through unchanged.
#[unsafe(no_mangle)]
pub extern "C" fn image_opened_get(image: &[u8], label: u64, i: u64) -> u64
    ensures { result ≡ coded_of (row_get_told image.now label i) }
{
    testing::image_opened_get(image, label, i)
}

// Opening a row, then count(v, i) on it; a refusal of the opening passes through unchanged.
#[unsafe(no_mangle)]
pub extern "C" fn image_opened_rank(image: &[u8], label: u64, v: u64, i: u64) -> u64
    ensures { CodedAs (RowRanked image.now label v i) result }
{
    testing::image_opened_rank(image, label, v, i)
}

// Opening a row, then find(v, k) on it; a refusal of the opening passes through unchanged.
#[unsafe(no_mangle)]
pub extern "C" fn image_opened_select(image: &[u8], label: u64, v: u64, k: u64) -> u64
    ensures { CodedAs (RowSelected image.now label v k) result }
{
    testing::image_opened_select(image, label, v, k)
}
