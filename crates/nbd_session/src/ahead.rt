//! What waiting requests will ask for.

ghost use Rattle.std.specs.Prelude.{◌≡◌, ◌≤◌, All, length, take};
ghost use Rattle.nbd_session.specs.declared.phase.Phase.TheVariants as Phase;
ghost use Rattle.nbd_session.specs.Talk.{hear};
ghost use Rattle.nbd_session.specs.Export.{IsWithin};
ghost use Rattle.nbd_session.specs.Announcing.{AsksFirst};

use crate::offer::Offer;
use crate::transmission::{HEADER_BYTES, range_of};

/// Notes the ranges of the READs that some bytes begin with, one header after the other, up to the first request that isn't an
/// allowed READ of some bytes; and returns how many it noted. There are no more than have a place in `ranges`.
pub fn note(offer: &Offer, waiting: &[u8], ranges: &mut [(u64, u32)]) -> usize
    ensures count { result ≤ length ranges.new }
    ensures within { All (IsWithin offer.now.size) (take result ranges.new) }
    ensures asks { AsksFirst (take result ranges.new) (hear offer.now Phase.Transmission waiting.now).answers }
{
    let mut noted = 0;
    let mut place = 0;
    while noted < ranges.len() && waiting.len() - place >= HEADER_BYTES {
        let Some(range) = range_of(offer.size, &waiting[place..place + HEADER_BYTES]) else {
            return noted;
        };
        ranges[noted] = range;
        noted += 1;
        place += HEADER_BYTES;
    }
    noted
}
