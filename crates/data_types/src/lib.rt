// The data types of channels.
#![tactic(auto)]

mod data_type;

pub use data_type::DataType;
