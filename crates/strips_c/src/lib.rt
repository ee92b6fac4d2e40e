// What libstrips.a exports for C, one function each: those of the crate strips, under their names and with their promises.
#![tactic(auto)]

mod images;
mod pair;
mod record;
mod strip;
mod wait;
