//! Worked volumes in numbers, superblocks and table lines, beside values from outside; hash devices, made and compared: differences,
//! refusals, memory refused, stores that fail. Tests, and nothing else. Whole devices of another program are in `tests/program`.
#![tactic(auto)]

#[cfg(test)]
mod differences;
#[cfg(test)]
mod failures;
#[cfg(test)]
mod lines;
#[cfg(test)]
mod memory;
#[cfg(test)]
mod order;
#[cfg(test)]
mod refusals;
#[cfg(test)]
mod volumes;
#[cfg(test)]
mod whole;
#[cfg(test)]
mod worked;
