// What tests alone need for C: scripts of calls and single steps, select in a word, the calls on a row's part and on an opened row.
#![tactic(auto)]

mod images;
mod script;
mod word;

// Open to tests: no `requires`, and a promise for every input.
pub use images::{
    image_open, image_opened_get, image_opened_rank, image_opened_select, image_part_get,
    image_part_rank, image_part_select,
};
pub use script::{strip_execute, strip_step};
pub use word::strip_select_in_word;
