// Room left on a track.
#![tactic(auto)]

ghost use Rattle.std.specs.Prelude.{◌≡◌};
ghost use Rattle.room.specs.Room.{room_left, fits};

// The cells of a track, to take from.
const TRACK_CELLS: i64 = cells::TRACK_CELLS as i64;

// Room left for a record that begins at a cell, wherever that is, and needs so many cells: below zero if it doesn't fit.
#[tactic(auto, unfolding(crate::specs::Room::room_left))]
pub fn room_left(first: u32, needs: u32) -> i64
    ensures { result ≡ room_left first needs }
{
    TRACK_CELLS - i64::from(first) - i64::from(needs)
}

// Whether it fits.
#[tactic(auto, unfolding(crate::specs::Room::fits))]
pub fn has_room(first: u32, needs: u32) -> bool
    ensures { result ≡ fits first needs }
{
    0 <= room_left(first, needs)
}
