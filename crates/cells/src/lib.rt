// Bytes and cells of lent slices, read whether they are there or not, and numbers of several bytes.
#![tactic(auto)]

ghost use Rattle.std.specs.Prelude.{◌≡◌, ◌+◌, ◌*◌, ◌^◌, ◌<◌, ◌≤◌, min, ℕ, List, length, get_or};
ghost use Rattle.std.proofs.Common.{ap};
ghost use Rattle.std.proofs.lemmas.List.{get_or_default, get_or_past};
ghost use Rattle.cells.specs.Cells.{byte_of};

// A track's end: the place after its last cell.
pub const TRACK_END: u16 = 4096;
// The cells of a track.
pub const TRACK_CELLS: usize = TRACK_END as usize;
// A whole track.
pub type Track = [u16; TRACK_CELLS];
// The first cell that can hold an address marker.
pub const FIRST_MARKER: u16 = 7;
// An address marker: a cell is a number, as C lends it and as the model's `mark_at` reads it, so no enum.
pub const MARKER: u16 = 512;

// What holds a byte: a byte of storage, which is one, or a cell, whose low byte it is.
pub trait Byte: Copy {
    // The byte held, and the one at an index of a list, 0 past its end.
    ghost byte: { Self → ℕ };

    ghost byte_at: { List Self → ℕ → ℕ };

    fn byte(self) -> u8
        ensures { result ≡ byte self };

    ghost inside: { (s : List Self) (at : ℕ) (x : Self) → at < length s → byte_at s at ≡ byte (get_or s at x) };

    ghost outside: { (s : List Self) (at : ℕ) → length s ≤ at → byte_at s at ≡ 0 };
}

impl Byte for u8 {
    ghost byte = { λ b. b };

    ghost byte_at = { λ s at. get_or s at 0 };

    fn byte(self) -> u8 {
        self
    }

    ghost inside = { λ s at x. get_or_default s at 0 x };

    ghost outside = { λ s at. get_or_past s at 0 };
}

impl Byte for u16 {
    ghost byte = { byte_of };

    ghost byte_at = { λ s at. byte_of (get_or s at 0) };

    fn byte(self) -> u8 {
        let [_, low] = self.to_be_bytes();
        low
    }

    ghost inside = { λ s at x h. ap byte_of (get_or_default s at 0 x h) };

    ghost outside = { λ s at h. ap byte_of (get_or_past s at 0 h) };
}

// The byte at an index of storage or of a track, 0 past its end.
pub fn byte_at<T: Byte>(s: &[T], at: usize) -> u8
    ensures { result ≡ T.byte_at s.now at }
{
    s.get(at).map_or(0, |b| b.byte())
}

// The two bytes from an index on as one number, high byte first.
pub fn pair_at<T: Byte>(s: &[T], at: usize) -> u16
    requires { at + 1 < 2 ^ 64 }
    ensures { result ≡ T.byte_at s.now at * 256 + T.byte_at s.now (at + 1) }
{
    u16::from_be_bytes([byte_at(s, at), byte_at(s, at + 1)])
}
