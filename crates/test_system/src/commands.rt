//! Commands, whole, over files in memory.
use crate::{MemFolders, MemSystem};
use cli_arguments::{FormatWords, RecoverWords, VerifyWords};
use cli_faults::{Failure, Fault};
use cli_format::{format, format_kept};
use cli_recover::recover;
use cli_serve::{verify, verify_kept, verify_slice};
use std::process::Abort;
use std::str;
use std::test::Fail;
use test_volumes::{device, flip, image};
use verity_edit::EditFault;
use verity_store::StoreFault;

fn words(data_blocks: Option<&'static str>) -> FormatWords<'static> {
    FormatWords {
        data_path: "data",
        hash_path: "hash",
        salt: "00ff",
        uuid: "01010101-0101-0101-0101-010101010101",
        data_blocks,
        data_block_size: "512",
        hash_block_size: "512",
        algorithm: "sha256",
        hash_offset: "0",
        slice: None,
        is_joined: false,
        table_file: None,
        is_quiet: true,
    }
}

// Formats the first file, and gives what was printed.
fn formatted(
    rt: &HostRuntime,
    system: &mut MemSystem,
    data_blocks: Option<&'static str>,
) -> (Vec<u8>, Result<(), Failure>) {
    let mut output = Vec::new(rt.alloc());
    let done = format(rt, system, &words(data_blocks), &mut output, &rt.stderr());
    (output, done)
}

// What `verify` prints under a line that was printed, and its status.
fn verified(rt: &HostRuntime, system: &MemSystem, line: &[u8]) -> (Vec<u8>, Result<u8, Failure>) {
    let mut output = Vec::new(rt.alloc());
    let table = str::from_utf8(line).unwrap_or("").trim_end();
    let words = VerifyWords {
        table,
        slice: None,
        table_file: None,
        timeout: "30",
        is_quiet: true,
    };
    let status = verify(rt, system, &words, &mut output, &rt.stderr());
    (output, status)
}

// What `verify --slice` prints under such a line, and its status.
fn verified_slice<'a>(
    rt: &HostRuntime,
    system: &MemSystem,
    line: &'a [u8],
    asked: &'a str,
) -> (Vec<u8>, Result<u8, Failure>) {
    let mut output = Vec::new(rt.alloc());
    let table = str::from_utf8(line).unwrap_or("").trim_end();
    let words = VerifyWords {
        table,
        slice: Some(asked),
        table_file: None,
        timeout: "30",
        is_quiet: true,
    };
    let status = verify_slice(rt, system, &words, asked, &mut output, &rt.stderr());
    (output, status)
}

// The same under the line in a file.
fn verified_by_file(
    rt: &HostRuntime,
    system: &MemSystem,
    folders: &mut MemFolders,
) -> (Vec<u8>, Result<u8, Failure>) {
    let mut output = Vec::new(rt.alloc());
    let words = VerifyWords {
        table: "",
        slice: None,
        table_file: Some("line"),
        timeout: "30",
        is_quiet: true,
    };
    let status = verify_kept(rt, system, folders, &words, &mut output, &rt.stderr());
    (output, status)
}

// Formats the first file, with the line in a file too, and gives what was printed.
fn formatted_by_file(
    rt: &HostRuntime,
    system: &mut MemSystem,
    folders: &mut MemFolders,
) -> (Vec<u8>, Result<(), Failure>) {
    let mut output = Vec::new(rt.alloc());
    let words = FormatWords {
        table_file: Some("line"),
        ..words(None)
    };
    let done = format_kept(rt, system, folders, &words, &mut output, &rt.stderr());
    (output, done)
}

// What `recover` returns with the line in a file.
fn settled(
    rt: &HostRuntime,
    system: &mut MemSystem,
    folders: &mut MemFolders,
) -> Result<(), Failure> {
    let mut output = Vec::new(rt.alloc());
    let words = RecoverWords {
        data_path: "data",
        hash_path: "hash",
        journal: None,
        table_file: Some("line"),
    };
    recover(system, folders, &words, &mut output)
}

// Whether the second file has these bytes.
fn holds(system: &MemSystem, bytes: &[u8]) -> bool {
    match &system.device {
        Some(device) => device.as_slice() == bytes,
        None => false,
    }
}

#[test]
fn format_makes_the_hash_device(rt: HostRuntime) -> Result<(), Fail> {
    let alloc = rt.alloc();
    for (blocks, asked, made) in [(1, None, 1), (17, None, 17), (17, Some("16"), 16)] {
        let mut system = MemSystem::new(alloc, image(alloc, blocks)?, 0);
        let (line, done) = formatted(&rt, &mut system, asked);
        assert!(rt; done.is_ok());
        let (device, _) = device(alloc, made)?;
        assert!(rt; holds(&system, device.bytes()));
        let (output, status) = verified(&rt, &system, &line);
        assert!(rt; matches!(status, Ok(0)));
        assert!(rt; output.as_slice() == b"unchecked 0\nverified\n".as_slice());
    }
    Ok(())
}

#[test]
fn verify_finds_a_block_that_changed(rt: HostRuntime) -> Result<(), Fail> {
    let alloc = rt.alloc();
    let mut system = MemSystem::new(alloc, image(alloc, 17)?, 0);
    let (line, _) = formatted(&rt, &mut system, None);
    flip(&mut system.image, 3 * 512);
    let (output, status) = verified(&rt, &system, &line);
    assert!(rt; matches!(status, Ok(1)));
    assert!(rt; output.as_slice() == b"bad data 3\nunchecked 0\ncorrupt\n".as_slice());
    Ok(())
}

#[test]
fn a_slice_finds_what_changed_in_it_alone(rt: HostRuntime) -> Result<(), Fail> {
    let alloc = rt.alloc();
    let mut system = MemSystem::new(alloc, image(alloc, 17)?, 0);
    let (line, _) = formatted(&rt, &mut system, None);
    flip(&mut system.image, 3 * 512);
    let (output, status) = verified_slice(&rt, &system, &line, "1/2");
    assert!(rt; matches!(status, Ok(1)));
    assert!(rt; output.as_slice() == b"bad data 3\nunchecked 0\ncorrupt\n".as_slice());
    let (output, status) = verified_slice(&rt, &system, &line, "2/2");
    assert!(rt; matches!(status, Ok(0)));
    assert!(rt; output.as_slice() == b"unchecked 0\nverified\n".as_slice());
    Ok(())
}

#[test]
fn verify_takes_the_line_in_a_file(rt: HostRuntime) -> Result<(), Fail> {
    let alloc = rt.alloc();
    let mut system = MemSystem::new(alloc, image(alloc, 17)?, 0);
    let (line, _) = formatted(&rt, &mut system, None);
    let mut folders = MemFolders::new(alloc);
    let (_, missing) = verified_by_file(&rt, &system, &mut folders);
    assert!(rt;
        matches!(
            missing,
            Err(Failure::Refused(Fault::Store(StoreFault::Device)))
        )
    );
    assert!(rt; folders.have(None, None));
    folders.line = Some(line.to_vec(alloc)?);
    let (output, status) = verified_by_file(&rt, &system, &mut folders);
    assert!(rt; matches!(status, Ok(0)));
    assert!(rt; output.as_slice() == b"unchecked 0\nverified\n".as_slice());
    assert!(rt; folders.have(Some(&line), None));
    folders.next = Some(line.to_vec(alloc)?);
    let (output, status) = verified_by_file(&rt, &system, &mut folders);
    assert!(rt; matches!(status, Err(Failure::Refused(Fault::UnderWay))));
    assert!(rt; output.as_slice().is_empty());
    assert!(rt; folders.have(Some(&line), Some(&line)));
    Ok(())
}

#[test]
fn recover_looks_whose_line_is_the_volumes(rt: HostRuntime) -> Result<(), Fail> {
    let alloc = rt.alloc();
    let mut system = MemSystem::new(alloc, image(alloc, 17)?, 0);
    flip(&mut system.image, 3 * 512);
    let (other, _) = formatted(&rt, &mut system, None);
    flip(&mut system.image, 3 * 512);
    let (line, _) = formatted(&rt, &mut system, None);
    let mut folders = MemFolders::new(alloc);
    folders.line = Some(other.to_vec(alloc)?);
    folders.next = Some(line.to_vec(alloc)?);
    assert!(rt; settled(&rt, &mut system, &mut folders).is_ok());
    assert!(rt; folders.have(Some(&line), None));
    assert!(rt; settled(&rt, &mut system, &mut folders).is_ok());
    assert!(rt; folders.have(Some(&line), None));
    folders.next = Some(other.to_vec(alloc)?);
    assert!(rt; settled(&rt, &mut system, &mut folders).is_ok());
    assert!(rt; folders.have(Some(&line), None));
    folders.line = Some(other.to_vec(alloc)?);
    folders.next = Some(other.to_vec(alloc)?);
    assert!(rt;
        matches!(
            settled(&rt, &mut system, &mut folders),
            Err(Failure::Refused(Fault::Edit(EditFault::Untrusted { level: 1, index: 0 })))
        )
    );
    assert!(rt; folders.have(Some(&other), Some(&other)));
    Ok(())
}

#[test]
fn format_keeps_the_line_that_it_prints(rt: HostRuntime) -> Result<(), Fail> {
    let alloc = rt.alloc();
    let old = b"old\n".as_slice();
    let mut refused = 0usize;
    for due in 1..100 {
        let mut system = MemSystem::new(alloc, image(alloc, 17)?, due);
        let mut folders = MemFolders::new(alloc);
        folders.line = Some(old.to_vec(alloc)?);
        let (line, done) = formatted_by_file(&rt, &mut system, &mut folders);
        if done.is_ok() {
            assert!(rt; folders.have(Some(&line), None));
            break;
        }
        assert!(rt; line.as_slice().is_empty());
        assert!(rt; folders.have(Some(old), None));
        refused = refused.saturating_add(1);
    }
    assert!(rt; refused >= 17);
    Ok(())
}

#[test]
fn format_fails_at_each_call(rt: HostRuntime) -> Result<(), Fail> {
    let alloc = rt.alloc();
    let mut refused = 0usize;
    for due in 1..100 {
        let mut system = MemSystem::new(alloc, image(alloc, 17)?, due);
        let (line, done) = formatted(&rt, &mut system, None);
        if done.is_ok() {
            break;
        }
        assert!(rt; line.as_slice().is_empty());
        assert!(rt; system.device.is_none());
        refused = refused.saturating_add(1);
    }
    assert!(rt; refused >= 17);
    Ok(())
}
