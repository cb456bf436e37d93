// What a write lays on a track: areas of the bytes sent, a new record, and which cells an update may go over.
#![tactic(auto)]

ghost use Rattle.std.specs.Prelude.{◌≡◌, [], ◌∷◌, ◌+◌, ◌<◌, ◌≤◌, length};
ghost use Rattle.cells.specs.Cells.{overlay, part, track_cells, marker};
ghost use Rattle.recording.specs.Recording.{area_written, Lies};
ghost use Rattle.format.specs.Format.{new_counts, new_key, new_record, recorded, Ends};

use areas::{Area, Counts};

// The bytes of a count area that are sent, before those of key and data.
pub const COUNT_SENT: u16 = 8;

// What the count of a new record says, by its flag and the bytes sent.
#[tactic(auto, using(crate::proofs::Calls::counts_new))]
pub fn new_counts(flag: u8, bytes: &[u8]) -> Counts
    ensures { result ≡ new_counts flag bytes.now }
{
    areas::counts_in(flag, bytes, 0)
}

// An area of n bytes recorded from a cell on, of the m bytes sent from an index on, which may lie past their end: so no slice of them. Here and below the cell
// goes beside the track, since each clause says of the whole track what it is then, as the model's `area_written` does.
pub fn lay_area(track: &mut [u16], first: usize, n: usize, bytes: &[u8], from: u16, m: u16)
    requires { Lies track.old first n }
    ensures { track.new ≡ area_written track.old first (part bytes.now from m) n }
{
    let at = usize::from(from);
    let start = at.min(bytes.len());
    let end = (at + usize::from(m)).min(bytes.len());
    recording::write_area(track, first, &bytes[start..end], n);
}

// The key of a new record, if it has one.
fn lay_key(track: &mut [u16], first: usize, bytes: &[u8], n: Counts)
    requires { first + length (new_key n bytes.now) ≤ length track.old }
    ensures { track.new ≡ overlay track.old first (new_key n bytes.now) }
{
    if 0 < n.kl {
        let kl = u16::from(n.kl);
        lay_area(track, first, usize::from(kl), bytes, COUNT_SENT, kl);
    }
}

// A new record, from the first cell of its count area on.
pub fn lay_record(track: &mut [u16], c: u16, flag: u8, bytes: &[u8], n: Counts)
    requires { Ends track.old c flag bytes.now n }
    ensures { track.new ≡ overlay track.old c (new_record flag bytes.now) }
{
    recording::write_count(track, usize::from(c), flag, bytes);
    let key = areas::key_area(c, n);
    lay_key(track, key.first as usize, bytes, n);
    let d = areas::data_area(c, n);
    let from = COUNT_SENT + u16::from(n.kl);
    lay_area(track, d.first as usize, d.bytes as usize, bytes, from, n.dl);
}

// An address marker.
fn put_marker(track: &mut [u16], p: u16)
    requires { p < length track.old }
    ensures { track.new ≡ overlay track.old p (marker ∷ []) }
{
    track[usize::from(p)] = cells::MARKER;
}

// A new record with its marker, which lies in a cell of the track.
pub fn lay_marked(track: &mut [u16], p: u16, flag: u8, bytes: &[u8], n: Counts)
    requires { (p < track_cells) × Ends track.old (p + 1) flag bytes.now n }
    ensures { track.new ≡ overlay track.old p (marker ∷ new_record flag bytes.now) }
{
    put_marker(track, p);
    lay_record(track, p + 1, flag, bytes, n);
}

// Whether all cells of an area are recorded bytes.
pub fn is_recorded(track: &[u16], a: Area) -> bool
    ensures { result ≡ recorded track.now a }
{
    let first = a.first as usize;
    let end = first + a.bytes as usize + areas::CHECK_CELLS;
    track.get(first..end).is_some_and(house_check::all_bytes)
}
