// The numbers of one channel, met one after the other: how many, the outermost of their doubles, and their sum.
#![tactic(auto)]

mod order;
mod report;
mod sum;
mod tally;

pub use report::{Outermost, Point, Report, invalid_report, report_of, valueless_report};
pub use sum::{Sum, Total};
pub use tally::{
    Mark, Tally, counted, counted_float, empty_tally, has_marks, is_clear, is_inner, skipped,
    with_clear, with_integer,
};
