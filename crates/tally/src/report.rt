// The line of a channel, when all its records are in the tally.
ghost use Rattle.std.specs.Prelude.{◌≡◌, ◌^◌, ◌<◌, List, length};
ghost use Rattle.definitions.specs.Reply.{Reply};
ghost use Rattle.definitions.specs.Channel.{ValidValue};
ghost use Rattle.definitions.specs.Report.{count, has_no_value, is_invalid, report_of};
ghost use Rattle.tally.specs.Tallies.{Sane, Tallied, point_at, outermost_in};
ghost use Rattle.tally.specs.Meaning.{point_meant, outermost_meant, report_meant};

use crate::order::value_at;
use crate::sum::{Sum, sum_of};
use crate::tally::{Mark, Tally, has_marks};
use fields::Number;

// A double, and the number of its record
#[derive(Clone, Copy, Debug, PartialEq)]
pub struct Point {
    pub number: u64,
    pub value: f64,
}

// The valid doubles that are no NaN, where there are any
#[derive(Clone, Copy, Debug, PartialEq)]
pub struct Outermost {
    pub first: Point,
    pub last: Point,
    pub smallest: Point,
    pub largest: Point,
}

#[derive(Clone, Copy, Debug, Default, PartialEq)]
pub struct Report {
    pub records: u64,
    pub valid: u64,
    pub invalid: u64,
    pub without_value: u64,
    // of the valid ones
    pub nan: u64,
    pub doubles: Option<Outermost>,
    // of the valid integers
    pub sum: Sum,
}

fn point_at(number: Number, mark: Mark) -> Point
    ensures { point_meant result ≡ point_at number mark }
{
    Point {
        number: mark.number,
        value: value_at(number, mark.word),
    }
}

fn doubles_of(number: Number, tally: Tally) -> Option<Outermost>
    ensures { outermost_meant result ≡ outermost_in number tally }
{
    if !has_marks(tally) {
        return None;
    }
    Some(Outermost {
        first: point_at(number, tally.first),
        last: point_at(number, tally.last),
        smallest: point_at(number, tally.smallest),
        largest: point_at(number, tally.largest),
    })
}

pub fn report_of(number: Number, tally: Tally) -> Report
    requires { (tally.records < 2 ^ 63) × (Sane tally) }
    ensures { (xs : List (Reply ValidValue)) → Tallied number xs tally → report_meant result ≡ report_of xs }
{
    Report {
        records: tally.records,
        valid: tally.valid,
        invalid: tally.records - tally.valid,
        without_value: 0,
        nan: tally.nan,
        doubles: doubles_of(number, tally),
        sum: sum_of(number, tally.total, tally.valid),
    }
}

// None of the records has a value. This line and the next say two things, and differ in more than the count that is not 0.
pub fn valueless_report(records: u64) -> Report
    ensures { (xs : List (Reply ValidValue)) → length xs ≡ records → count has_no_value xs ≡ records → report_meant result ≡ report_of xs }
{
    Report {
        records,
        without_value: records,
        ..Report::default()
    }
}

// Each of the records has a value, and none of these is valid.
pub fn invalid_report(records: u64) -> Report
    ensures { (xs : List (Reply ValidValue)) → length xs ≡ records → count is_invalid xs ≡ records → report_meant result ≡ report_of xs }
{
    Report {
        records,
        invalid: records,
        ..Report::default()
    }
}
