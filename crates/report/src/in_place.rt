// Records that stand end to end, each in its place.
ghost use Rattle.std.specs.Prelude.{◌≡◌, ◌+◌, ◌-◌, ◌*◌, ◌≤◌, ◌<◌, length, Some};
ghost use Rattle.std.specs.Option.{ForSome};
ghost use Rattle.definitions.specs.Bytes.{span};
ghost use Rattle.tally.specs.Tallies.{Sane};
ghost use Rattle.slots.specs.Slots.{PlaceTold};
ghost use Rattle.report.specs.Visits.{visited, few_records};
ghost use Rattle.report.specs.Rows.{RowAsked, FlagTold, RowTo};

use crate::layout::Layout;
use crate::row::Row;
use fields::Number;
use slots::{
    Float, Integer, Kind, WordPlace, far_word, find_place, has_flag, is_valid_by, is_valid_in,
    record_begin, shift_of, word_at,
};
use tally::{Tally, counted, has_marks, skipped};

// The first n records of a slice, of one size, in each of which a number lies at one place
#[derive(Clone, Copy)]
pub(crate) struct Rows<'a> {
    records: &'a [u8],
    n: usize,
    layout: Layout,
    place: Option<WordPlace>,
    ghost fits: { n * layout.size ≤ length records.now },
    ghost placed: { ForSome place (λ p. PlaceTold layout.size layout.slot (Some p)) },
}

impl<'a> Rows<'a> {
    pub(crate) fn new(records: &'a [u8], n: usize, layout: Layout) -> Self
        requires { n * layout.size ≤ length records.now }
        ensures { (result.records.now ≡ records.now) × (result.n ≡ n) × (result.layout ≡ layout) }
    {
        Rows {
            records,
            n,
            layout,
            place: find_place(layout.size, layout.slot),
        }
    }

    fn record(&self, i: usize) -> &'a [u8]
        requires { i < self.now.n }
        ensures { (result.now ≡ span self.now.records.now (i * self.now.layout.size) self.now.layout.size) × (length result.now ≡ self.now.layout.size) }
    {
        let begin = record_begin(i, self.layout.size, self.n, self.records.len());
        let end = begin + self.layout.size;
        &self.records[begin..end]
    }

    // Numbers of one kind, up to one whose place among the extremes its word does not tell
    fn row<K: Kind, const FLAGGED: bool>(
        &self,
        at: usize,
        shift: u32,
        first: usize,
        before: Tally,
    ) -> Row
        requires { RowAsked self.now.layout.size self.now.layout.slot at shift before first self.now.n × FlagTold self.now.layout.slot FLAGGED × (K.number ≡ self.now.layout.slot.number) × K.has self.now.layout.slot.count }
        ensures { RowTo self.now.layout.size self.now.layout.slot before self.now.records.now first self.now.n result }
    {
        let mut tally = before;
        for i in first..self.n {
            let record = self.record(i);
            if is_valid_by(FLAGGED, record, self.layout.slot) {
                let word = word_at::<K>(record, at, shift, self.layout.slot);
                let Some(next) = K::counted_behind(tally, word) else {
                    return Row { next: i, tally };
                };
                tally = next;
            } else {
                tally = skipped(tally);
            }
        }
        Row {
            next: self.n,
            tally,
        }
    }

    // With a loop for records of which none can be invalid. Where the word stands and how far it is shifted are handed on as they
    // are: a struct for the two would be made in one place and taken apart in the next.
    fn kind_row<K: Kind>(&self, at: usize, shift: u32, first: usize, before: Tally) -> Row
        requires { RowAsked self.now.layout.size self.now.layout.slot at shift before first self.now.n × (K.number ≡ self.now.layout.slot.number) × K.has self.now.layout.slot.count }
        ensures { RowTo self.now.layout.size self.now.layout.slot before self.now.records.now first self.now.n result }
    {
        if has_flag(self.layout.slot) {
            self.row::<K, true>(at, shift, first, before)
        } else {
            self.row::<K, false>(at, shift, first, before)
        }
    }

    // By a loop for each kind of number, in which the compiler leaves out what the others are
    fn any_row(&self, at: usize, shift: u32, first: usize, before: Tally) -> Row
        requires { RowAsked self.now.layout.size self.now.layout.slot at shift before first self.now.n }
        ensures { RowTo self.now.layout.size self.now.layout.slot before self.now.records.now first self.now.n result }
    {
        match self.layout.slot.number {
            Number::Unsigned => self.kind_row::<Integer<false>>(at, shift, first, before),
            Number::Signed => self.kind_row::<Integer<true>>(at, shift, first, before),
            Number::Float => {
                if self.layout.slot.count == 64 {
                    return self.kind_row::<Float<64>>(at, shift, first, before);
                }
                self.kind_row::<Float<32>>(at, shift, first, before)
            }
        }
    }

    // A row as far as it goes: none before there are marks, nor where no eight bytes hold the number
    pub(crate) fn read(&self, first: usize, before: Tally) -> Row
        requires { Sane before × (first < self.now.n) × (before.records + (self.now.n - first) < few_records) }
        ensures { RowTo self.now.layout.size self.now.layout.slot before self.now.records.now first self.now.n result }
    {
        let none = Row {
            next: first,
            tally: before,
        };
        if !has_marks(before) {
            return none;
        }
        let Some(place) = self.place else {
            return none;
        };
        let shift = shift_of(place.from, self.layout.slot);
        self.any_row(place.at, shift, first, before)
    }

    // A record the whole way: where a row ends at one
    pub(crate) fn one(&self, i: usize, before: Tally) -> Tally
        requires { (i < self.now.n) × Sane before × (before.records < few_records) }
        ensures { (result ≡ visited self.now.layout.slot before (span self.now.records.now (i * self.now.layout.size) self.now.layout.size)) × Sane result }
    {
        let record = self.record(i);
        if is_valid_in(record, self.layout.slot) {
            let word = far_word(record, self.layout.slot);
            return counted(self.layout.slot.number, before, word);
        }
        skipped(before)
    }
}
