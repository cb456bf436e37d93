// The areas of a track: where each lies, whether it is readable, a count area's values, the flag bytes of what is written.
#![tactic(auto)]

ghost use Rattle.std.specs.Prelude.{◌≡◌, ◌+◌, ◌*◌, ◌^◌, ◌<◌, get_or};
ghost use Rattle.cells.specs.Cells.{byte_of};
ghost use Rattle.areas.specs.Areas.{readable, row_of, home_area, count_area, counts_by, counts_at, read_count, key_cells, data_bytes, key_area, data_area, record_cells, end_by, needed, flag_of_r0, flag_after};

use cells::Byte;
use rows::Row;

mod numbers;

pub use numbers::NoPart;

// The bytes of a check, and its cells.
pub const CHECK: u32 = 2;

pub const CHECK_CELLS: usize = CHECK as usize;
// The bytes of a home address, without its check.
const HOME_BYTES: u32 = 5;
// The bytes of a count area, without its check, and its cells.
pub const COUNT_BYTES: u32 = 9;

const COUNT: u32 = COUNT_BYTES + CHECK;
// Of a flag byte, bit 0, the odd/even bit, and bits 6 and 7, which are copied: masks, since they are bits and no bytes of a number.
const ODD: u8 = 0x80;

const COPIED: u8 = 0x03;

// What an area holds.
#[derive(Clone, Copy)]
pub enum Part {
    Home,
    Count,
    Key,
    Data,
}

// An area: its first cell, and its bytes without the two of the check.
#[derive(Clone, Copy)]
pub struct Area {
    pub part: Part,
    pub first: u32,
    pub bytes: u32,
}

// What a count area says.
#[derive(Clone, Copy, Default)]
pub struct Counts {
    pub flag: u8,
    pub cc: u16,
    pub hh: u16,
    pub r: u8,
    pub kl: u8,
    pub dl: u16,
}

// Whether an area is readable. The track is lent beside it: an area says where it lies, on any track.
#[tactic(auto, using(crate::proofs::Laws::off_track, crate::proofs::Laws::on_track_lem))]
pub fn is_readable(track: &[u16], a: Area) -> bool
    ensures { result ≡ readable track.now a }
{
    let first = a.first as usize;
    let end = first + a.bytes as usize + CHECK_CELLS;
    track.get(first..end).is_some_and(house_check::good)
}

// The Unit Check row of an area that is not readable.
#[tactic(auto, unfolding(crate::specs::Areas::row_of))]
pub fn row_of(part: Part) -> Row
    ensures { result ≡ row_of part }
{
    match part {
        Part::Count => Row::UnreadableCount,
        _ => Row::Unreadable,
    }
}

// The home address.
pub fn home_area() -> Area
    ensures { result ≡ home_area }
{
    Area {
        part: Part::Home,
        first: 0,
        bytes: HOME_BYTES,
    }
}

// The count area at a cell.
pub fn count_area(c: u16) -> Area
    ensures { result ≡ count_area c }
{
    Area {
        part: Part::Count,
        first: u32::from(c),
        bytes: COUNT_BYTES,
    }
}

// What a count says, by its flag and by the bytes behind it, which lie from an index on.
#[tactic(auto, unfolding(crate::specs::Areas::counts_by))]
pub fn counts_in<T: Byte>(flag: u8, s: &[T], at: usize) -> Counts
    requires { at + 7 < 2 ^ 64 }
    ensures { result ≡ counts_by flag (λ i. T.byte_at s.now (at + i)) }
{
    Counts {
        flag,
        cc: cells::pair_at(s, at),
        hh: cells::pair_at(s, at + 2),
        r: cells::byte_at(s, at + 4),
        kl: cells::byte_at(s, at + 5),
        dl: cells::pair_at(s, at + 6),
    }
}

// The values of the count area at a cell, as they stand there.
#[tactic(auto, using(crate::proofs::Laws::counts_are))]
fn counts_at(track: &[u16], c: u16) -> Counts
    ensures { result ≡ counts_at track.now c }
{
    let first = usize::from(c);
    counts_in(cells::byte_at(track, first), track, first + 1)
}

// The count area at a cell, read.
#[tactic(auto, unfolding(crate::specs::Areas::read_count))]
pub fn read_count(track: &[u16], c: u16) -> Option<Counts>
    ensures { result ≡ read_count track.now c }
{
    is_readable(track, count_area(c)).then(|| counts_at(track, c))
}

#[tactic(auto, unfolding(crate::specs::Areas::key_cells))]
fn key_cells(n: Counts) -> u32
    ensures { (result ≡ key_cells n) × (result < 258) }
{
    if n.kl == 0 {
        0
    } else {
        u32::from(n.kl) + CHECK
    }
}

fn data_bytes(n: Counts) -> u32
    ensures { (result ≡ data_bytes n) × (result < 65536) }
{
    u32::from(n.dl.max(1))
}

// The key area of the record whose count area is at a cell. It is absent if KL is 0. With the data area it has only the step over the count in common, so
// each is a literal of its own.
#[tactic(auto, unfolding(crate::specs::Areas::key_area))]
pub fn key_area(c: u16, n: Counts) -> Area
    ensures { result ≡ key_area c n }
{
    Area {
        part: Part::Key,
        first: u32::from(c) + COUNT,
        bytes: u32::from(n.kl),
    }
}

// The data area of the record whose count area is at a cell.
#[tactic(auto, unfolding(crate::specs::Areas::data_area))]
pub fn data_area(c: u16, n: Counts) -> Area
    ensures { result ≡ data_area c n }
{
    Area {
        part: Part::Data,
        first: u32::from(c) + COUNT + key_cells(n),
        bytes: data_bytes(n),
    }
}

// How many cells a record takes, its marker not counted.
#[tactic(auto, unfolding(crate::specs::Areas::record_cells))]
pub fn record_cells(n: Counts) -> u32
    ensures { (result ≡ record_cells n) × (result < 65806) }
{
    COUNT + key_cells(n) + data_bytes(n) + CHECK
}

// The cell after the record whose count area is at a cell. It can lie far past the track.
#[tactic(auto, unfolding(crate::specs::Areas::end_by))]
pub fn end_by(c: u16, n: Counts) -> u32
    ensures { result ≡ end_by c n }
{
    u32::from(c) + record_cells(n)
}

// How many cells a new record needs, its marker too.
#[tactic(auto, unfolding(crate::specs::Areas::needed))]
pub fn cells_needed(n: Counts) -> u32
    ensures { result ≡ needed n }
{
    1 + record_cells(n)
}

// The flag byte of a new R0, by the home address's.
#[tactic(auto, unfolding(crate::specs::Areas::flag_of_r0))]
pub fn flag_of_r0(home: u8) -> u8
    ensures { result ≡ flag_of_r0 home }
{
    home & COPIED
}

// The flag byte of a new record, by that of the record before.
#[tactic(auto, using(crate::proofs::Laws::flag_bits))]
pub fn flag_after(before: u8) -> u8
    ensures { result ≡ flag_after before }
{
    !before & ODD | before & COPIED
}
