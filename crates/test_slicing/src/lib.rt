//! Hash devices that are made by slices and a join, beside those that are built in one go. Tests, and nothing else.
#![tactic(auto)]

#[cfg(test)]
mod slices;
