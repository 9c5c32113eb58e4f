// The kinds of numbers, known when the program is compiled: so a loop is made for each, without the others' work.
ghost use Rattle.std.specs.Prelude.{◌≡◌, ◌^◌, ◌<◌, ℕ, IfSome};
ghost use Rattle.fields.specs.Known.{Fitting};
ghost use Rattle.fields.specs.declared.form.Number.{Number};
ghost use Rattle.tally.specs.Words.{integer_kind};
ghost use Rattle.tally.specs.Tallies.{Sane, HasMarks, counted_tally};
ghost use Rattle.slots.specs.Slots.{word_of};

use crate::word::signed_word;
use fields::float_bits;
use tally::{Tally, counted_float, is_clear, is_inner, with_clear, with_integer};

pub trait Kind {
    ghost number: { Number };

    // of how many bits they are
    ghost has: { ℕ → Type 0 };

    // How many, told anew: a constant where the kind has one
    fn width(count: u32) -> u32
        requires { has count }
        ensures { result ≡ count };

    // The word of a field x
    fn word_of(count: u32, x: u64) -> u64
        requires { has count × Fitting number count x }
        ensures { result ≡ word_of number count x };

    // A tally and one more behind another, unless its word does not tell its place among them
    fn counted_behind(tally: Tally, word: u64) -> Option<Tally>
        requires { (tally.records < 2 ^ 63) × (Sane tally) × HasMarks tally }
        ensures { IfSome result (λ next. next ≡ counted_tally number tally word) };
}

// Integers, with a sign or without
pub struct Integer<const SIGNED: bool>;

impl<const SIGNED: bool> Kind for Integer<SIGNED> {
    ghost number = { integer_kind SIGNED };

    ghost has = { λ count. Unit {0} };

    fn width(count: u32) -> u32 {
        count
    }

    fn word_of(count: u32, x: u64) -> u64 {
        if SIGNED { signed_word(count, x) } else { x }
    }

    fn counted_behind(tally: Tally, word: u64) -> Option<Tally> {
        if is_inner(SIGNED, tally, word) {
            Some(with_integer(tally, word))
        } else if is_clear(SIGNED, tally, word) {
            Some(with_clear(SIGNED, tally, word))
        } else {
            None
        }
    }
}

// Floats of so many bits
pub struct Float<const COUNT: u32>;

impl<const COUNT: u32> Kind for Float<COUNT> {
    ghost number = { Number.Float };

    ghost has = { λ count. COUNT ≡ count };

    fn width(_count: u32) -> u32 {
        COUNT
    }

    fn word_of(_count: u32, x: u64) -> u64 {
        float_bits(COUNT, x)
    }

    fn counted_behind(tally: Tally, word: u64) -> Option<Tally> {
        Some(counted_float(tally, word))
    }
}
