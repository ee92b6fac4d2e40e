// What strips_c exports for C, as libstrips.a, one function each: the seventeen calls, those that compare two strips, the waiting calls, the burst call and the
// merge; the queries of sizes and rows.
#![tactic(auto)]

mod images;
mod lent;
mod pair;
mod record;
mod strip;
mod wait;

// Open to users: no `requires`, and a promise for every input.
pub use display::{
    image_inspect, image_row_get, image_row_label, image_row_length, image_row_rank,
    image_row_select,
};
pub use images::{image_clear, image_freeze, image_merge, image_record_size};
pub use pair::{
    strip_pair_both, strip_pair_differ, strip_pair_either, strip_pair_find, strip_pair_only_first,
    strip_pair_span,
};
pub use record::{
    strip_create, strip_fill, strip_flip, strip_push, strip_rank, strip_select, strip_truncate,
    strip_verify,
};
pub use strip::{strip_burst, strip_counter_count, strip_get, strip_predecessor, strip_successor};
pub use wait::{strip_waiting_count, strip_waiting_find};

// For the exports of tests.
pub use lent::handle_over;
pub use record::{OUT_NUMBERS, write_change, write_out};
