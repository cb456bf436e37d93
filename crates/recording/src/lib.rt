// Areas recorded on a track with their checks, and gaps to a track's end.
#![tactic(auto)]

ghost use Rattle.std.specs.Prelude.{◌≡◌, ◌++◌, ◌-◌, ◌≤◌, length, take};
ghost use Rattle.cells.specs.Cells.{padded, bytes_of, cells_of, cell_of};
ghost use Rattle.house_check.specs.Check.{sixteen, check, check_bytes};
ghost use Rattle.recording.specs.Recording.{area_written, count_written, wiped, Lies};

use areas::CHECK_CELLS;

// The cell that records a zero; a byte b is recorded as b more.
const ZERO: u16 = 256;

const GAP: u16 = 0;
// The bytes of a count area, without its check: the flag and those that are sent.
const COUNT_BYTES: usize = areas::COUNT_BYTES as usize;

// The cell that records a byte.
fn cell_of(b: u8) -> u16
    ensures { result ≡ cell_of b }
{
    ZERO + u16::from(b)
}

// As many bytes as cells, recorded in them. The loop tests no byte, so the compiler makes it wide.
#[tactic(auto, using(crate::proofs::Laws::record_more, crate::proofs::Laws::record_all))]
fn record_given(area: &mut [u16], bytes: &[u8])
    requires { length bytes.now ≡ length area.old }
    ensures { area.new ≡ cells_of bytes.now }
{
    // Over both at once, by zip, the proof doesn't close: of what iter_mut lends there it knows the length alone.
    for (j, cell) in area.iter_mut().enumerate() {
        *cell = cell_of(bytes[j]);
    }
}

// Bytes recorded in all cells of an area: those that are there, then zeros.
#[tactic(auto, using(crate::proofs::Laws::record_both))]
fn record_bytes(area: &mut [u16], bytes: &[u8])
    ensures { area.new ≡ cells_of (padded (length area.old) bytes.now) }
{
    let m = area.len().min(bytes.len());
    let (given, missing) = area.split_at_mut(m);
    record_given(given, &bytes[..m]);
    missing.fill(ZERO);
}

// The check of an area's bytes, recorded in its last two cells.
#[tactic(auto, using(crate::proofs::Laws::check_put))]
fn record_check(area: &mut [u16])
    requires { check_bytes ≤ length area.old }
    ensures { let bytes = take (length area.old - check_bytes) area.old in area.new ≡ bytes ++ cells_of (sixteen (check (bytes_of bytes))) }
{
    let n = area.len() - CHECK_CELLS;
    let sum = house_check::check_of(&area[..n]);
    let [high, low] = sum.to_be_bytes();
    area[n] = cell_of(high);
    area[n + 1] = cell_of(low);
}

// An area of n bytes recorded from a cell on, with its check; n stands beside the bytes, which may be fewer or more. Here and below the cell goes beside the
// track, since the clause says of the whole track what it is then, as the model's `area_written` and `count_written` do.
pub fn write_area(track: &mut [u16], first: usize, bytes: &[u8], n: usize)
    requires { Lies track.old first n }
    ensures { track.new ≡ area_written track.old first bytes.now n }
{
    let area = &mut track[first..first + n + CHECK_CELLS];
    record_bytes(&mut area[..n], bytes);
    record_check(area);
}

// A count area recorded at a cell, with its check: the flag, then the eight bytes that are sent.
pub fn write_count(track: &mut [u16], c: usize, flag: u8, bytes: &[u8])
    requires { Lies track.old c 9 }
    ensures { track.new ≡ count_written track.old c flag bytes.now }
{
    let count = &mut track[c..c + COUNT_BYTES + CHECK_CELLS];
    count[0] = cell_of(flag);
    record_bytes(&mut count[1..COUNT_BYTES], bytes);
    record_check(count);
}

// Gaps from a cell to the track's end.
#[tactic(auto, using(crate::proofs::Laws::wiped_put))]
pub fn wipe(track: &mut [u16], from: usize)
    ensures { track.new ≡ wiped track.old from }
{
    let start = from.min(track.len());
    track[start..].fill(GAP);
}
