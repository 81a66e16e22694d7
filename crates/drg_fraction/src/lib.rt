//! Exact fractions, and what every exact field of values `a + b√root` has in common.
//!
//! A `Fraction` is a rational in lowest terms with parts of at most 128 bits. Each operation gives the
//! exact value, or refuses with `Wide`, and it refuses exactly where one of the work numbers of its
//! formula has magnitude above `2^127 - 1`. `Field` is the trait of such values over one root: code
//! above is generic over it and rests on its laws alone. `sum` and `dot` are the first such code. No
//! call takes memory but `Fraction::write_text`.
//!
//! The work numbers stand in `specs/Work.antt`, the operations of a field in `specs/Operations.antt`,
//! its laws and the values of `sum` and `dot` in `specs/Field.antt`, the rational of a fraction in
//! `specs/Fraction.antt`, its text in `specs/Text.antt`. The rationals themselves are those of
//! `drg_algebra`, the range of numbers and what an answer says those of `drg_whole`.
#![tactic(auto)]

mod field;
mod fraction;
mod rational;
#[cfg(test)]
mod tests;

pub use drg_whole::{Wide, gcd};
pub use field::{Field, dot, sum, values_are_a_field};
pub use fraction::Fraction;
