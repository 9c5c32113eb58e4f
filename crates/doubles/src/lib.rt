// Patterns of doubles, made with integers alone: of integers, and of 32-bit floats, which are made of them again.
#![tactic(auto)]

mod narrowing;
mod patterns;
mod round;
mod sign;
mod value;
mod widening;

pub use narrowing::narrow;
pub use patterns::NAN;
pub use round::double_of;
pub use sign::{double_of_sign, double_of_signed, magnitude_less_one};
pub use value::value_of;
pub use widening::widen;
