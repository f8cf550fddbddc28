// The calls for C and Rust, one symbol each: those of the four interfaces under the same names, with the same clauses. A file for each.
#![tactic(auto)]

mod of_device;
mod of_host;
mod of_records;
mod of_replays;
