//! What each fault means, in words for a person.
//!
//! A fault is printed as its number and what it carries. Here stands, once for each number, what is wrong, and what to do
//! next where that can be told.
//!
//! What the layer above relies on: the table is total, so no number is without words, and each row is that of its number.
//! The words themselves are the manual's, with which a script compares them.
#![tactic(auto)]

mod meaning;
mod number;

pub use meaning::Meaning;
pub use number::Number;
