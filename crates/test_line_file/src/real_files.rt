//! Lines in files of this machine.
use crate::volumes::{Small, shown, table, text};
use os_line_file::{FolderFault, LineFolders, OsFolders};
use std::fs;
use std::fs::File;
use std::os::unix::fs::symlink;
use std::process::{self, Abort};
use std::test::Fail;
use verity_line_file::{LineFile, Settled};

const OLD: Small = Small { blocks: 1, byte: 1 };

const NEW: Small = Small { blocks: 1, byte: 2 };

// A folder of this test's own.
fn folder(rt: &HostRuntime, name: &str) -> Result<String, Fail> {
    let id = process::id(rt.process());
    let path = format!(in rt.alloc(); "/tmp/test_line_file.{id}.{name}")?;
    fs::create_dir(rt, path.as_str())?;
    Ok(path)
}

// Begins the new line in a file, and finishes it where that is asked for.
fn commit(rt: &HostRuntime, path: &str, finishes: bool) -> Result<bool, Fail> {
    let mut folders = OsFolders::new(rt);
    let mut file = LineFile::new(folders.open_line(path)?);
    let is_begun = file.begin(rt.alloc(), &table(rt.alloc(), NEW)?).is_ok();
    let is_done = if finishes && file.is_under_way() {
        file.finish().is_ok()
    } else {
        true
    };
    folders.close_line(file.folder);
    Ok(is_begun && is_done)
}

fn settle(rt: &HostRuntime, path: &str, small: Small) -> Result<Option<Settled>, Fail> {
    let mut folders = OsFolders::new(rt);
    let mut file = LineFile::new(folders.open_line(path)?);
    let settled = file.settle(rt.alloc(), &shown(rt.alloc(), small)?).ok();
    folders.close_line(file.folder);
    Ok(settled)
}

// Whether a file has this text.
fn has(rt: &HostRuntime, path: &str, wanted: &[u8]) -> bool {
    match fs::read(rt, path) {
        Ok(found) => found.as_slice() == wanted,
        Err(_) => false,
    }
}

#[test]
fn a_line_is_replaced(rt: HostRuntime) -> Result<(), Fail> {
    let folder = folder(&rt, "replaced")?;
    let path = format!(in rt.alloc(); "{folder}/line")?;
    let next = format!(in rt.alloc(); "{folder}/line.next")?;
    let (old, new) = (text(rt.alloc(), OLD)?, text(rt.alloc(), NEW)?);
    fs::write(&rt, path.as_str(), old.as_slice())?;
    assert!(rt; commit(&rt, &path, false)?);
    assert!(rt; has(&rt, &path, &old));
    assert!(rt; has(&rt, &next, &new));
    assert!(rt; settle(&rt, &path, OLD)? == Some(Settled::Kept));
    assert!(rt; has(&rt, &path, &old));
    assert!(rt; commit(&rt, &path, false)?);
    assert!(rt; settle(&rt, &path, NEW)? == Some(Settled::Taken));
    assert!(rt; has(&rt, &path, &new));
    assert!(rt; settle(&rt, &path, NEW)? == Some(Settled::Nothing));
    fs::remove_file(&rt, path.as_str())?;
    assert!(rt; commit(&rt, &path, true)?);
    assert!(rt; has(&rt, &path, &new));
    assert!(rt; !fs::exists(&rt, next.as_str())?);
    fs::remove_dir_all(&rt, folder.as_str())?;
    Ok(())
}

#[test]
fn a_link_stays_and_what_it_leads_to_is_replaced(rt: HostRuntime) -> Result<(), Fail> {
    let folder = folder(&rt, "link")?;
    let path = format!(in rt.alloc(); "{folder}/line")?;
    let link = format!(in rt.alloc(); "{folder}/link")?;
    fs::write(&rt, path.as_str(), text(rt.alloc(), OLD)?.as_slice())?;
    symlink(&rt, "line", link.as_str())?;
    assert!(rt; commit(&rt, &link, true)?);
    assert!(rt; fs::symlink_metadata(&rt, link.as_str())?.is_symlink());
    assert!(rt; has(&rt, &path, &text(rt.alloc(), NEW)?));
    fs::remove_dir_all(&rt, folder.as_str())?;
    Ok(())
}

#[test]
fn what_is_no_file_of_a_line_is_refused(rt: HostRuntime) -> Result<(), Fail> {
    let folder = folder(&rt, "refused")?;
    let link = format!(in rt.alloc(); "{folder}/link")?;
    let long = format!(in rt.alloc(); "{folder}/long")?;
    symlink(&rt, "nowhere", link.as_str())?;
    File::create(&rt, long.as_str())?.set_len(65_537)?;
    for path in [folder.as_str(), link.as_str(), long.as_str(), "/dev/null"] {
        let opened = OsFolders::new(&rt).open_line(path);
        assert!(rt; matches!(opened, Err(FolderFault::Device)));
    }
    fs::remove_dir_all(&rt, folder.as_str())?;
    Ok(())
}
