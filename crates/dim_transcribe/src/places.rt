//! The places of a program that stand for places of the source.
ghost use Rattle.std.specs.Prelude.{◌≡◌, ◌<◌, ◌^◌, IsTrue, take};
ghost use Rattle.dim_transcribe.specs.Performs.{AreSingle, IsAt, StandFor, key_of};

use crate::transcript::StandIn;
use dim_log::Spot;
use dim_stack::Frame;

/// Of a stack that stands for more, the innermost frames alone are told.
const MOST_SPOTS: usize = 30;

/// The frames of the loop that calls all others.
const LOOP_FRAMES: usize = 2;

/// The innermost frames of a stack of the source, as many as are told.
pub fn innermost(spots: &[Spot]) -> &[Spot]
    ensures { result.now ≡ take 30 spots.now }
{
    if spots.len() <= MOST_SPOTS {
        spots
    } else {
        spots.split_at(MOST_SPOTS).0
    }
}

/// Where a frame stands among places in the order of their frames, or would.
fn position(places: &[StandIn], frame: Frame) -> usize {
    let mut low = 0;
    let mut high = places.len();
    while low < high {
        let middle = low + (high - low) / 2;
        if places[middle].frame < frame {
            low = middle + 1;
        } else {
            high = middle;
        }
    }
    low
}

/// Whether one of some places is this frame and stands for this spot. Where they aren't in the
/// order of their frames, it may miss it.
fn is_at(places: &[StandIn], frame: Frame, spot: Spot) -> bool
    ensures { IsTrue result → IsAt places.now frame spot }
{
    match places.get(position(places, frame)) {
        Some(place) => *place == StandIn { frame, spot },
        None => false,
    }
}

/// Whether frames of the program stand for spots of the source, one for each, before the frames of
/// the loop.
pub fn stand_for(places: &[StandIn], frames: &[Frame], spots: &[Spot]) -> bool
    ensures { IsTrue result → StandFor places.now frames.now spots.now }
{
    if frames.len() < LOOP_FRAMES || frames.len() - LOOP_FRAMES != spots.len() {
        return false;
    }
    for (i, spot) in spots.iter().enumerate() {
        if !is_at(places, frames[i], *spot) {
            return false;
        }
    }
    true
}

/// A number by which frames are ordered, whose offsets are below 65,536.
fn key_of(frame: Frame) -> u64
    ensures value { result ≡ key_of frame }
    ensures below { result < 2 ^ 49 }
{
    u64::from(frame.func) * 65536 + u64::from(frame.at)
}

/// Whether some places are in the order of their frames. Then no two have the same one.
pub fn are_single(places: &[StandIn]) -> bool
    ensures { IsTrue result → AreSingle places.now }
{
    let mut least = 0;
    for place in places.iter() {
        let key = key_of(place.frame);
        if key < least {
            return false;
        }
        least = key + 1;
    }
    true
}
