//! Recoveries, whole, of volumes that a crash left in memory.
use crate::{MemFolders, MemSystem, recover_in_memory};
use cli_arguments::RecoverWords;
use cli_faults::{Failure, Fault};
use cli_recover::recover;
use os_line_file::OsFolders;
use std::process::Abort;
use std::test::Fail;
use test_volumes::{device, image};
use verity_journal::{Change, Plan, Side, spell};

const WORDS: RecoverWords<'static> = RecoverWords {
    data_path: "data",
    hash_path: "hash",
    journal: None,
    table_file: None,
};

// The journal of a commit that cuts `data` to two blocks, the first of which begins with `ab`, and fills `hash` up by one; behind an open
// commit flag, or a closed one. It has these names of the files.
fn journal(rt: &HostRuntime, is_open: bool, files: &[u8]) -> Result<Vec<u8>, Fail> {
    let alloc = rt.alloc();
    let mut names = Vec::from_elem(alloc, 1u8, 16)?;
    names.extend_from_slice(&0u64.to_le_bytes())?;
    names.extend_from_slice(files)?;
    let change = Change::new(0, b"ab".as_slice().to_vec(alloc)?);
    let on_data = Side::new(1024, 1024, Vec::from_array(alloc, [change])?);
    let on_hash = Side::new(1024, 1536, Vec::new(alloc));
    let plan = spell(alloc, &Plan::new(names, on_data, on_hash))?;
    let mut bytes = b"dalgjrnl\x01\0\0\0".as_slice().to_vec(alloc)?;
    bytes.push(u8::from(is_open))?;
    bytes.extend_from_slice(&plan)?;
    Ok(bytes)
}

// Three data blocks, their hash device, and this journal, whose devices end after so many calls.
fn volume(rt: &HostRuntime, journal: Option<Vec<u8>>, calls: u64) -> Result<MemSystem, Fail> {
    let alloc = rt.alloc();
    let mut system = MemSystem::new(alloc, image(alloc, 3)?, 0);
    let (store, _) = device(alloc, 3)?;
    system.device = Some(store.bytes().to_vec(alloc)?);
    system.journal = journal;
    system.calls = calls;
    Ok(system)
}

// What is printed, and the answer.
fn recovered(rt: &HostRuntime, system: &mut MemSystem) -> (Vec<u8>, Result<(), Failure>) {
    let mut output = Vec::new(rt.alloc());
    let done = recover(system, &mut OsFolders::new(rt), &WORDS, &mut output);
    (output, done)
}

// Whether both files are what the commit makes of them, or what they were before it.
fn holds(rt: &HostRuntime, system: &MemSystem, is_new: bool) -> Result<bool, Fail> {
    let alloc = rt.alloc();
    let mut data = image(alloc, 3)?;
    let (store, _) = device(alloc, 3)?;
    let mut hash = store.bytes().to_vec(alloc)?;
    if is_new {
        data.truncate(1024);
        for (byte, new) in data.iter_mut().zip(b"ab") {
            *byte = *new;
        }
        hash.resize(1536, 0)?;
    }
    let is_hash = match &system.device {
        Some(bytes) => bytes.as_slice() == hash.as_slice(),
        None => false,
    };
    Ok(is_hash && system.image.as_slice() == data.as_slice())
}

#[test]
fn recover_makes_the_volume_that_the_journal_stands_for(rt: HostRuntime) -> Result<(), Fail> {
    let names = b"data\0hash".as_slice();
    for (is_there, is_open) in [(false, false), (true, false), (true, true)] {
        let found = if is_there {
            Some(journal(&rt, is_open, names)?)
        } else {
            None
        };
        let mut system = volume(&rt, found, u64::MAX)?;
        let (output, done) = recovered(&rt, &mut system);
        assert!(rt; done.is_ok());
        assert!(rt; holds(&rt, &system, is_open)?);
        assert!(rt; system.journal.is_none());
        let line = if is_open {
            b"recovered\n".as_slice()
        } else {
            b"nothing to recover\n".as_slice()
        };
        assert!(rt; output.as_slice() == line);
    }
    Ok(())
}

#[test]
fn recover_goes_on_after_each_call_that_fails(rt: HostRuntime) -> Result<(), Fail> {
    let mut failed = 0usize;
    for calls in 0..100 {
        let mut system = volume(&rt, Some(journal(&rt, true, b"data\0hash")?), calls)?;
        let (output, done) = recovered(&rt, &mut system);
        if done.is_ok() {
            break;
        }
        assert!(rt; matches!(done, Err(Failure::Refused(Fault::Journal))));
        assert!(rt; output.is_empty());
        assert!(rt; system.journal.is_some());
        system.calls = u64::MAX;
        let mut folders = OsFolders::new(&rt);
        assert!(rt;
            recover_in_memory(&mut system, &mut folders, &WORDS, &mut output_of(&rt)).is_ok()
        );
        assert!(rt; holds(&rt, &system, true)?);
        failed = failed.saturating_add(1);
    }
    assert!(rt; failed >= 8);
    Ok(())
}

fn output_of(rt: &HostRuntime) -> Vec<u8> {
    Vec::new(rt.alloc())
}

#[test]
fn recover_leaves_another_volume_alone(rt: HostRuntime) -> Result<(), Fail> {
    let mut system = volume(&rt, Some(journal(&rt, true, b"data\0other")?), u64::MAX)?;
    let (output, done) = recovered(&rt, &mut system);
    assert!(rt; matches!(done, Err(Failure::Refused(Fault::Journal))));
    assert!(rt; output.is_empty());
    assert!(rt; holds(&rt, &system, false)?);
    assert!(rt; system.journal.is_some());
    Ok(())
}
