//! The volume of 17 data blocks that the tests of refusals and of failures build.
use std::alloc::Global;
use std::process::Abort;
use std::test::Fail;
use test_volumes::{BuiltVolume, make_volume, numbered};

// The root hash that another program answers. The UUID isn't in it.
const ROOT: &str = "234259a12cf4cba78bef127291893994c9f0193ae855cdd6a74e8538a6e6665c";

// The volume, built in one go.
pub fn whole(rt: &impl Abort, alloc: Global) -> Result<BuiltVolume, Fail> {
    let volume = make_volume(alloc, numbered(alloc, 17)?)?;
    let digits = hex::encode(alloc, volume.root.bytes())?;
    assert_eq!(rt;
        (digits.as_str(), volume.hash_store.bytes().len()),
        (ROOT, 2048)
    );
    Ok(volume)
}
