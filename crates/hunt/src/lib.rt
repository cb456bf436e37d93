// The hunt for the next record on a track, by its markers.
#![tactic(auto)]

ghost use Rattle.std.specs.Prelude.{true, ◌≡◌, ◌-◌, ◌≤◌, max, take, drop};
ghost use Rattle.cells.specs.Cells.{first_marker, track_cells, marks, mark_at};
ghost use Rattle.hunt.specs.Hunt.{markerless, hunt, count_first, next_record, next_id, space_record};

use cells::Track;

// The first cell of R0.
const R0_FIRST: u32 = cells::FIRST_MARKER as u32;
// So many cells are passed over at once where none of them holds a marker.
const STRIDE: u16 = 16;

// A record: R0, or the one whose marker is in a cell. R0 is a record too, so that an Option would say less.
#[derive(Clone, Copy)]
pub enum Spot {
    R0,
    Marker(u16),
}

// Whether a cell of a track holds a marker.
#[tactic(auto, unfolding(cells::specs::Cells::mark_at))]
pub fn is_marker(track: &[u16], at: u16) -> bool
    ensures { result ≡ mark_at track.now at }
{
    cells::FIRST_MARKER <= at && track.get(usize::from(at)) == Some(&cells::MARKER)
}

// Whether none of some cells holds a marker. There is no early end, so that the compiler can look at eight cells at once. `all_bytes` of house_check differs
// in the test: a function for both would be this one fold, with the test as a closure, of which its clause would have to speak.
fn is_bare(cells: &[u16]) -> bool
    ensures { result ≡ markerless cells.now }
{
    cells
        .iter()
        .fold(true, |bare, cell| bare & (*cell != cells::MARKER))
}

// The cell that a hunt may begin at instead: strides without a marker are passed over, since markers are few. By the cell's number: over chunks, by
// `chunks_exact` or `as_chunks`, the loop's last jump lies across a line of 16 bytes, and takes some 1.7 times as long in half of all places that a linker
// may choose.
fn pass_over(track: &Track, from: u16) -> u16
    ensures on { (from ≤ result) × (hunt (marks track.now) result ≡ hunt (marks track.now) from) }
    ensures within { result ≤ max from track_cells }
    ensures bare { markerless (take (result - from) (drop from track.now)) ≡ true }
{
    let mut i = from;
    while i < cells::TRACK_END - STRIDE {
        let at = usize::from(i);
        if !is_bare(&track[at..at + usize::from(STRIDE)]) {
            return i;
        }
        i += STRIDE;
    }
    i
}

// The first marker at or after a place.
pub fn next_marker(track: &Track, place: u16) -> Option<u16>
    ensures { result ≡ hunt (marks track.now) place }
{
    let on = pass_over(track, place.max(cells::FIRST_MARKER));
    (on..cells::TRACK_END).find(|i| track[usize::from(*i)] == cells::MARKER)
}

// The next record: the first marker at or after the place, else past the index.
#[tactic(auto, unfolding(crate::specs::Hunt::next_record, crate::specs::Hunt::ahead_or, crate::specs::Hunt::past_index))]
pub fn next_record(track: &Track, place: u16) -> Option<(Spot, u8)>
    ensures { result ≡ next_record (marks track.now) place }
{
    let ahead = next_marker(track, place).map(|p| (Spot::Marker(p), 0));
    ahead.or_else(|| next_marker(track, cells::FIRST_MARKER).map(|p| (Spot::Marker(p), 1)))
}

// The record that Search ID takes.
#[tactic(auto, unfolding(crate::specs::Hunt::next_id, crate::specs::Hunt::ahead_or))]
pub fn next_id(track: &Track, place: u16) -> Option<(Spot, u8)>
    ensures { result ≡ next_id (marks track.now) place }
{
    if place < cells::FIRST_MARKER {
        return Some((Spot::R0, 0));
    }
    let ahead = next_marker(track, place).map(|p| (Spot::Marker(p), 0));
    ahead.or(Some((Spot::R0, 1)))
}

// The first cell of a record's count area.
#[tactic(auto, unfolding(crate::specs::Hunt::count_first))]
pub fn count_first(spot: Spot) -> u32
    ensures { result ≡ count_first spot }
{
    match spot {
        Spot::R0 => R0_FIRST,
        Spot::Marker(p) => u32::from(p) + 1,
    }
}

// The place after Space Record.
#[tactic(auto, unfolding(crate::specs::Hunt::space_record, crate::specs::Hunt::spaced_to))]
pub fn space_record(track: &Track, place: u16, after_home: bool) -> u32
    ensures { result ≡ space_record (marks track.now) place after_home }
{
    if after_home {
        return R0_FIRST;
    }
    next_record(track, place).map_or(R0_FIRST, |(spot, _)| count_first(spot))
}
