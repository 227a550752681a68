//! Circuits over two's complement words.
//!
//! A word is a list of literals, lowest bit first; the last one is the sign. Each call adds the
//! gates of a circuit to a formula and gives words or literals whose values, under every
//! assignment that satisfies the formula, are those of whole-number arithmetic. The words that
//! are handed in have one width, which is at least 1. Where the true result may be outside of the
//! width, a second answer says so: a literal that is true exactly where it is outside.
//!
//! After each call, also one that was refused for want of memory, the law of extension of
//! `sat_formula` holds: each assignment that satisfied the formula before extends to one after.
//! Words of constants add nothing, since every gate folds them.
#![tactic(auto)]

mod adders;
mod bitwise;
mod choices;
mod comparisons;
mod counts;
mod literals;
mod naturals;
mod products;
mod quotients;

pub use adders::{add, neg, sub};
pub use choices::choose_word;
pub use comparisons::{equal, less};
pub use counts::{
    add_counts, count_less, equals_number, index_bits, is_above, low_bits, subtract_bit,
    subtract_counts, trimmed,
};
pub use literals::literal;
pub use naturals::{add_bit, natural};
pub use products::mul;
pub use quotients::{div_floor, div_rem_floor, rem_floor};
