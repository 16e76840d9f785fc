//! Pulls that are refused memory.
use crate::pulls::{Before, Case, Outcome, right, try_pull, volume_of};
use std::alloc::Global;
use std::process::Abort;
use std::test::Fail;
use test_volumes::STEP;
use verity_pull::PullFault;

// What comes of pulls with one step more memory each, one after the other, each outcome once; at most four.
fn outcomes(alloc: Global) -> Result<[Option<Outcome>; 4], Fail> {
    let volume = volume_of(alloc, 17)?;
    let mut found = [None; 4];
    let mut count = 0usize;
    for steps in 0..500usize {
        let case = Case {
            room: steps.saturating_mul(STEP),
            ..right(17, Before::Shorter)
        };
        let next = Some(try_pull(alloc, &volume, case)?);
        if count == 0 || found.get(count.saturating_sub(1)) != Some(&next) {
            if let Some(place) = found.get_mut(count) {
                *place = next;
            }
            count = count.saturating_add(1);
        }
    }
    Ok(found)
}

// First the table line is refused, then the pull, which changes nothing; from then on it comes to its end.
#[test]
fn a_pull_refused_memory_changes_nothing(rt: HostRuntime) -> Result<(), Fail> {
    let wanted = [
        Some(Outcome::NoTable),
        Some(Outcome::Untouched(PullFault::NoMemory)),
        Some(Outcome::Pulled(9, 8, 3)),
        None,
    ];
    assert_eq!(rt; outcomes(rt.alloc())?, wanted);
    Ok(())
}
