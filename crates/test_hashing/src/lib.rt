//! Digests beside values from outside. Tests, and nothing else.
#![tactic(auto)]

#[cfg(test)]
mod digests;
#[cfg(test)]
mod lanes;
#[cfg(test)]
mod many;
