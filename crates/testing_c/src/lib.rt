// What libtesting.a exports for C: the functions of the crate testing, under their names and with their promises.
#![tactic(auto)]

mod images;
mod script;
mod word;
