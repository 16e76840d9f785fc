//! Volumes that are edited and committed, beside the same volumes made from scratch, stores that fail, and memory that is refused. Tests,
//! and nothing else.
#![tactic(auto)]

#[cfg(test)]
mod calls;
#[cfg(test)]
mod counts;
#[cfg(test)]
mod editors;
#[cfg(test)]
mod failing;
#[cfg(test)]
mod heaps;
#[cfg(test)]
mod memory;
#[cfg(test)]
mod opening;
#[cfg(test)]
mod rooms;
#[cfg(test)]
mod running;
#[cfg(test)]
mod steps;
#[cfg(test)]
mod volumes;
