// A table of the fragments of a chain, lent by the caller: by it a record is found without a walk.
#![tactic(auto)]

mod extension;
mod fetch;
mod layout;
mod opening;
mod search;
mod shorter;
mod soundness;
mod value;

pub use extension::extend_table;
pub use fetch::fetch_record;
pub use layout::Table;
pub use opening::open_table;
pub use shorter::shorten_table;
pub use value::fetch_value;
