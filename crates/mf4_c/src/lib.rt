// The library for C: each call of `mf4` under its name, with its parameters and its clauses word for word; include/mf4.h declares
// them. It is a crate of its own because a static library exports what stands in it and what no other crate of Rattle can call.
// Calls that are alike stay apart: each is a name that C has.
#![tactic(auto)]

mod channel_block;
mod fetches;
mod header;
mod list;
mod overlap;
mod payload;
mod reports;
mod stored;
mod tables;
mod texts;
mod types;
mod unbounded;
mod valid_values;
mod validity;
mod values;
mod version;
