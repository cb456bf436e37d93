// Bytes of a track compared with bytes sent.
#![tactic(auto)]

ghost use Rattle.std.specs.Prelude.{◌≡◌, map};
ghost use Rattle.std.specs.Ordering.{nat_cmp};
ghost use Rattle.std.specs.Cmp.Lexicographic.{slice_cmp};
ghost use Rattle.cells.specs.Cells.{byte_of};
ghost use Rattle.compare.specs.Compare.{compared_bytes};

use cells::Byte;
use core::cmp::Ordering;

// The bytes of cells against bytes sent: the first pair that differs tells, or the lengths. `cmp` of the two iterators says the same, but makes an Ordering of
// each pair, in nearly twice the instructions. Not inlined: in the one large function that the box becomes, it made the loop over No-ops slower.
#[inline(never)]
fn by_first(on_track: &[u16], sent: &[u8]) -> Ordering
    ensures { result ≡ slice_cmp nat_cmp (map byte_of on_track.now) sent.now }
{
    let different = on_track
        .iter()
        .zip(sent)
        .find(|(cell, byte)| cell.byte() != **byte);
    let by_length = on_track.len().cmp(&sent.len());
    different.map_or(by_length, |(cell, byte)| cell.byte().cmp(byte))
}

// A field's bytes on the track against those sent, as unsigned numbers: as many bytes as both have.
#[tactic(auto, using(crate::proofs::Laws::compared_cut))]
pub fn compare(field: &[u16], sent: &[u8]) -> Ordering
    ensures { result ≡ compared_bytes field.now sent.now }
{
    let m = field.len().min(sent.len());
    by_first(&field[..m], &sent[..m])
}
