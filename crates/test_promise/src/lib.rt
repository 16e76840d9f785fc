//! Each function of the promise where memory is there, and stores that don't hold what a line says. Tests, and nothing else.
#![tactic(auto)]

#[cfg(test)]
mod events;
#[cfg(test)]
mod under;
#[cfg(test)]
mod volumes;
#[cfg(test)]
mod way;
