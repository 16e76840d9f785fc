//! StorePair that aren't those of the table line.
use crate::pulls::{Before, Case, Outcome, outcome_of, right};
use std::process::Abort;
use std::test::Fail;
use verity_pull::{PullFault, Role};

// Each store in turn has another block size; nothing is changed.
#[test]
fn a_store_of_another_block_size_is_refused(rt: HostRuntime) -> Result<(), Fail> {
    for role in [
        Role::LocalData,
        Role::LocalHash,
        Role::SourceData,
        Role::SourceHash,
    ] {
        let case = Case {
            unsized_store: Some(role),
            ..right(16, Before::Rubbish)
        };
        assert_eq!(rt;
            outcome_of(rt.alloc(), case)?,
            Outcome::Untouched(PullFault::Unsuited(role))
        );
    }
    Ok(())
}

// A source ends before the volume does; a longer one would do.
#[test]
fn a_short_source_is_refused(rt: HostRuntime) -> Result<(), Fail> {
    for role in [Role::SourceData, Role::SourceHash] {
        let case = Case {
            short: Some(role),
            ..right(20, Before::Shorter)
        };
        assert_eq!(rt;
            outcome_of(rt.alloc(), case)?,
            Outcome::Untouched(PullFault::Unsuited(role))
        );
    }
    Ok(())
}
