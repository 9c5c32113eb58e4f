// One line of a channel.
ghost use Rattle.std.specs.Prelude.{◌≡◌};
ghost use Rattle.definitions.specs.Reply.{answer};
ghost use Rattle.report.specs.Meaning.{report_reply};
ghost use Rattle.tally.specs.Meaning.{point_meant, report_meant};
ghost use Rattle.replies.specs.Reports.{point_c, report_c};

use refusals::Refusal;
use tally::{Point, Report};

#[repr(C)]
#[derive(Clone, Copy, Debug, Default, PartialEq)]
pub struct Mf4Point {
    pub number: u64,
    pub value: f64,
}

// `has_doubles` tells whether there is a first, since 0 is a record's number. The sum is sum_high * 2^64 + sum_low.
#[repr(C)]
#[derive(Clone, Copy, Debug, Default, PartialEq)]
pub struct Mf4ReportReply {
    pub reply: u32,
    pub told: u64,
    pub records: u64,
    pub valid: u64,
    pub invalid: u64,
    pub without_value: u64,
    pub nan: u64,
    pub has_doubles: u8,
    pub first: Mf4Point,
    pub last: Mf4Point,
    pub smallest: Mf4Point,
    pub largest: Mf4Point,
    pub sum_high: i64,
    pub sum_low: u64,
}

impl From<Point> for Mf4Point {
    ghost from_gives = { λ point told. told ≡ point_c (point_meant point) };

    fn from(point: Point) -> Mf4Point {
        Mf4Point {
            number: point.number,
            value: point.value,
        }
    }
}

impl From<Report> for Mf4ReportReply {
    ghost from_gives = { λ line reply. reply ≡ report_c (answer (report_meant line)) };

    fn from(line: Report) -> Mf4ReportReply {
        let counts = Mf4ReportReply {
            records: line.records,
            valid: line.valid,
            invalid: line.invalid,
            without_value: line.without_value,
            nan: line.nan,
            sum_high: line.sum.high,
            sum_low: line.sum.low,
            ..Mf4ReportReply::default()
        };
        let Some(doubles) = line.doubles else {
            return counts;
        };
        Mf4ReportReply {
            has_doubles: 1,
            first: doubles.first.into(),
            last: doubles.last.into(),
            smallest: doubles.smallest.into(),
            largest: doubles.largest.into(),
            ..counts
        }
    }
}

impl From<Result<Report, Refusal>> for Mf4ReportReply {
    ghost from_gives = { λ read reply. reply ≡ report_c (report_reply read) };

    fn from(read: Result<Report, Refusal>) -> Mf4ReportReply {
        match read {
            Ok(line) => line.into(),
            Err(why) => Mf4ReportReply {
                reply: why.number(),
                told: why.told(),
                ..Mf4ReportReply::default()
            },
        }
    }
}
