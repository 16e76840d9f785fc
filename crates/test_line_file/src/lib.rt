//! The line of a volume in a file: a commit that crashes at each call of the folder, with what isn't synced kept, dropped or torn; files
//! that hold no line, and those of another volume; and the same over files of this machine. Tests, and nothing else.
#![tactic(auto)]

#[cfg(test)]
mod crashes;
#[cfg(test)]
mod real_files;
#[cfg(test)]
mod texts;
#[cfg(test)]
mod volumes;
