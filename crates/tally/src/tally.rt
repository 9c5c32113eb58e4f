// A tally, and one record more.
ghost use Rattle.std.specs.Prelude.{◌≡◌, ◌+◌, ◌^◌, ◌<◌, Bool, true, not, ◌==◌};
ghost use Rattle.tally.specs.Words.{integer_kind};
ghost use Rattle.tally.specs.Tallies.{Sane, HasMarks, Inner, Clear, empty_tally, skipped_tally, nan_tally, last_tally, total_with, with_extremes, marked_tally, counted_tally};

use crate::order::{is_below, is_double_between, is_nan, is_told};
use crate::sum::{Total, carried};
use doubles::value_of;
use fields::Number;

// A number as a word, and the number of its record
#[derive(Clone, Copy, Debug, Default, PartialEq, Eq)]
pub struct Mark {
    pub number: u64,
    pub word: u64,
}

// Whether it is sane is asked where it matters and no invariant: what `has_marks`, `is_inner` and `is_clear` promise holds of any.
#[derive(Clone, Copy, Debug, Default, PartialEq, Eq)]
pub struct Tally {
    // of all of which `valid` are valid, and of these `nan` are NaN
    pub records: u64,
    pub valid: u64,
    pub nan: u64,
    // of the words of integers
    pub total: Total,
    // of the words that are no NaN; 0 where there is none
    pub first: Mark,
    pub last: Mark,
    pub smallest: Mark,
    pub largest: Mark,
}

// The default, under the name by which it is settled in the theorems
pub fn empty_tally() -> Tally
    ensures { result ≡ empty_tally }
{
    Tally::default()
}

// One record more whose value is invalid
pub fn skipped(tally: Tally) -> Tally
    requires { tally.records < 2 ^ 63 }
    ensures { result ≡ skipped_tally tally }
{
    Tally {
        records: tally.records + 1,
        ..tally
    }
}

// Whether there was one that is valid and no NaN: before that there are no marks
pub fn has_marks(tally: Tally) -> bool
    ensures { result ≡ not (tally.valid == tally.nan) }
{
    tally.valid != tally.nan
}

// With the word of an integer; a float's adds nothing
fn total_with(number: Number, total: Total, word: u64) -> Total
    requires { total.high < 2 ^ 63 }
    ensures { result ≡ total_with number total word }
{
    match number {
        Number::Unsigned | Number::Signed => carried(total, word),
        Number::Float => total,
    }
}

// One that is valid and no NaN, as far as it needs no comparing
fn with_last(number: Number, tally: Tally, word: u64) -> Tally
    requires { (tally.records < 2 ^ 63) × (Sane tally) }
    ensures { result ≡ last_tally number tally word }
{
    Tally {
        records: tally.records + 1,
        valid: tally.valid + 1,
        total: total_with(number, tally.total, word),
        last: Mark {
            number: tally.records,
            word,
        },
        ..tally
    }
}

// An integer in the same way: of either kind, since their words are added up alike
pub fn with_integer(tally: Tally, word: u64) -> Tally
    requires { (tally.records < 2 ^ 63) × (Sane tally) }
    ensures { (signed : Bool) → result ≡ last_tally (integer_kind signed) tally word }
{
    with_last(Number::Unsigned, tally, word)
}

// The mark in the place of an extreme, or of both
fn with_extremes(before: Tally, mark: Mark, is_smallest: bool, is_largest: bool) -> Tally
    ensures { result ≡ with_extremes before mark is_smallest is_largest }
{
    let smallest = if is_smallest { mark } else { before.smallest };
    let largest = if is_largest { mark } else { before.largest };
    Tally {
        smallest,
        largest,
        ..before
    }
}

// One that is valid, and NaN
fn with_nan(tally: Tally) -> Tally
    requires { (tally.records < 2 ^ 63) × (Sane tally) }
    ensures { result ≡ nan_tally tally }
{
    Tally {
        records: tally.records + 1,
        valid: tally.valid + 1,
        nan: tally.nan + 1,
        ..tally
    }
}

// One that is valid and no NaN, behind another
fn with_next_mark(number: Number, tally: Tally, word: u64) -> Tally
    requires { (tally.records < 2 ^ 63) × (Sane tally) × HasMarks tally }
    ensures { result ≡ marked_tally number tally word }
{
    let mark = Mark {
        number: tally.records,
        word,
    };
    let is_smallest = is_below(number, word, tally.smallest.word);
    let is_largest = is_below(number, tally.largest.word, word);
    let next = with_last(number, tally, word);
    with_extremes(next, mark, is_smallest, is_largest)
}

// The first one, or one behind it
fn with_mark(number: Number, tally: Tally, word: u64) -> Tally
    requires { (tally.records < 2 ^ 63) × (Sane tally) }
    ensures { result ≡ marked_tally number tally word }
{
    if has_marks(tally) {
        return with_next_mark(number, tally, word);
    }
    let mark = Mark {
        number: tally.records,
        word,
    };
    Tally {
        first: mark,
        smallest: mark,
        largest: mark,
        ..with_last(number, tally, word)
    }
}

// One whose value is valid
pub fn counted(number: Number, tally: Tally, word: u64) -> Tally
    requires { (tally.records < 2 ^ 63) × (Sane tally) }
    ensures { result ≡ counted_tally number tally word }
{
    if is_nan(number, word) {
        return with_nan(tally);
    }
    with_mark(number, tally, word)
}

// Whether an integer takes the place of no extreme. The sign is a flag here and in the two below, which docs/CALLS.md names so;
// `Integer<SIGNED>` of `slots` hands on a constant.
pub fn is_inner(signed: bool, tally: Tally, word: u64) -> bool
    ensures { result ≡ true → Inner (integer_kind signed) tally word }
{
    tally.smallest.word <= word && word <= tally.largest.word
}

// Whether an integer's word alone tells which extremes' place it takes
pub fn is_clear(signed: bool, tally: Tally, word: u64) -> bool
    ensures { result ≡ true → Clear (integer_kind signed) tally word }
{
    is_told(signed, word, tally.smallest.word) && is_told(signed, tally.largest.word, word)
}

// One more such
pub fn with_clear(signed: bool, tally: Tally, word: u64) -> Tally
    requires { (tally.records < 2 ^ 63) × (Sane tally) × HasMarks tally × Clear (integer_kind signed) tally word }
    ensures { result ≡ counted_tally (integer_kind signed) tally word }
{
    let mark = Mark {
        number: tally.records,
        word,
    };
    let next = with_integer(tally, word);
    with_extremes(
        next,
        mark,
        word < tally.smallest.word,
        tally.largest.word < word,
    )
}

// One more float
pub fn counted_float(tally: Tally, word: u64) -> Tally
    requires { (tally.records < 2 ^ 63) × (Sane tally) × HasMarks tally }
    ensures { result ≡ counted_tally Number.Float tally word }
{
    let value = value_of(word);
    let smallest = value_of(tally.smallest.word);
    let largest = value_of(tally.largest.word);
    if is_double_between(smallest, value, largest) {
        return with_last(Number::Float, tally, word);
    }
    if value.is_nan() {
        return with_nan(tally);
    }
    let mark = Mark {
        number: tally.records,
        word,
    };
    let next = with_last(Number::Float, tally, word);
    with_extremes(next, mark, value < smallest, largest < value)
}
