//! Reads and reports: values from outside, refusals, stores that fail or answer otherwise the second time, data blocks that are kept,
//! and memory that is refused. Tests, and nothing else.
#![tactic(auto)]

#[cfg(test)]
mod asking;
#[cfg(test)]
mod borders;
#[cfg(test)]
mod failures;
#[cfg(test)]
mod kept;
#[cfg(test)]
mod lies;
#[cfg(test)]
mod memory;
#[cfg(test)]
mod reading;
#[cfg(test)]
mod refused;
#[cfg(test)]
mod room;
#[cfg(test)]
mod verifiers;
