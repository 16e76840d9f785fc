//! Stores on their happy paths and at their faults: in memory, over a file or the first blocks of a device, scripted, failing;
//! runs of blocks; commits through a journal and recoveries that are cut at every call, over devices that tear. Tests, and nothing else.
#![tactic(auto)]

#[cfg(test)]
mod commits;
#[cfg(test)]
mod device;
#[cfg(test)]
mod failing;
#[cfg(test)]
mod heads;
#[cfg(test)]
mod runs;
#[cfg(test)]
mod stops;
#[cfg(test)]
mod stores;
#[cfg(test)]
mod tears;
#[cfg(test)]
mod windows;
