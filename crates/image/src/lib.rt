// The image layer: freezing, the chain of records, the inspection, and the readings of rows.
#![tactic(auto)]

mod bytes;
mod chain;
mod clearing;
mod fields;
mod freezing;
mod inspection;
mod layout;
mod open;
mod opened;
mod part;
mod put;
mod query;
mod reading;
mod right;
mod rows;
mod write;

// Open to users: no `requires`, and a promise for every input.
pub use clearing::clear;
pub use freezing::freeze;
pub use inspection::inspect;
pub use layout::{MOST_BYTES, MOST_LABEL, MOST_ROW};
pub use open::{open_row, row_part};
pub use opened::Row;
pub use part::{part_get, part_rank, part_select};
pub use query::{record_bytes, row_label, row_length};
pub use rows::{row_get, row_rank, row_select};

// For the layers above.
pub use bytes::u64_at;
pub use clearing::put_header;
pub use fields::{first_record, label_at, length_at, next_record, ones_at};
pub use layout::{LABEL_OFFSET, LENGTH_OFFSET, UNIT_BYTES, record_size, size_good};
pub use open::record_part;
pub use put::{put_bytes, put_le, put_word};
