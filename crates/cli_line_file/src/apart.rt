//! That a line's file is none of the volume's files.
ghost use Rattle.std.specs.Prelude.{◌≡◌, ◌⊎◌, true, IfOk, IfErr, OnOk, string_bytes};
ghost use Rattle.cli_line_file.specs.Apart.{AreOne, AreTwo, IsApart, IsNotApart, IsNotTwo};

use cli_faults::{Failure, Word};
use os_files::System;

/// That FILE and FILE.next, whose path is FILE's own with `.next` behind it, are other files than what stands at a path: by what was
/// opened at both where both are there, else by where their paths lead, and by the folders and the names of what would be made.
///
/// FILE isn't understood where one of both is that file. S1 where what is there is no file and no device, or can't be opened.
pub fn check_apart_from<S: System>(system: &S, path: &str, other: &str) -> Result<(), Failure>
    ensures apart { OnOk result (IsApart S.System system.now path.now other.now) }
    ensures refused { IfErr result (IsNotApart S.System system.now path.now other.now) }
{
    let mut own = system.real_path(path)?;
    check_two(system, &own, other)?;
    own.push_str(".next")?;
    check_two(system, &own, other)
}

/// That what stands at two paths are two files.
fn check_two<S: System>(system: &S, path: &str, other: &str) -> Result<(), Failure>
    ensures two { OnOk result (AreTwo S.System system.now path.now other.now) }
    ensures refused { IfErr result (IsNotTwo S.System system.now (AreOne S.System system.now path.now other.now)) }
{
    if system.is_there(path)? && system.is_there(other)? {
        let file = system.open(path)?;
        let held = system.open(other)?;
        if system.identity_of(&file) == system.identity_of(&held) {
            return Err(Failure::Word(Word::TableFile));
        }
        return Ok(());
    }
    if system.real_path(path)? == system.real_path(other)? {
        return Err(Failure::Word(Word::TableFile));
    }
    if place_of(system, path)? == place_of(system, other)? {
        return Err(Failure::Word(Word::TableFile));
    }
    Ok(())
}

/// Where a file is or would be made: the path of what stands there, or the path of its folder and its name.
fn place_of<S: System>(system: &S, path: &str) -> Result<String, Failure>
    ensures refused { IfErr result (λ e. e ≡ Failure.NoMemory) }
{
    if system.is_there(path)? {
        return Ok(system.real_path(path)?);
    }
    let (folder, name) = match path.rsplit_once('/') {
        Some(("", name)) => ("/", name),
        Some(parts) => parts,
        None => (".", path),
    };
    let mut place = system.real_path(folder)?;
    place.push_str("/")?;
    place.push_str(name)?;
    Ok(place)
}
