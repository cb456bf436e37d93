// The check of an area of a track. Fewer than 16 cells go bit by bit, as the check is defined. From 16 cells on, four at a time are put into later
// ones, until 16 stand for all but the last three at most; these come down to four bytes, and a table takes them and those three.
#![tactic(auto)]

ghost use Rattle.std.specs.Prelude.{◌≡◌, [], ◌++◌, ◌+◌, ◌-◌, ◌^◌, ◌<◌, ◌≤◌, eqb, length};
ghost use Rattle.cells.specs.Cells.{both, bytes_of, all_bytes};
ghost use Rattle.house_check.specs.Check.{check_bytes, good_cells, bit_step, feed, byte_bits, bits, check};
ghost use Rattle.house_check.specs.Table.{remainders, table_feed};
ghost use Rattle.house_check.specs.Fold.{cells_in, rest, low_bytes, bytes_in, spread};

// The polynomial, without the bit that leaves the register; that bit, in the register; the bits of a byte; the cells of a word; an area's check bytes.
const POLYNOMIAL: u16 = 0x1021;

const TOP_BIT: u16 = 0x8000;

const BYTE_BITS: usize = 8;

const WORD_CELLS: usize = 4;

const CHECK_BYTES: usize = 2;

// ---- bit by bit

// A zero bit into the register.
#[tactic(auto, unfolding(crate::specs::Check::bit_step))]
fn shift(r: u16) -> u16
    ensures { result ≡ bit_step r 0 }
{
    if r >= TOP_BIT {
        return (r << 1) ^ POLYNOMIAL;
    }
    r << 1
}

// The low byte of a cell into the register: the byte goes into the register's high byte, and eight zeros follow. By arrays of bytes the cell would be taken
// apart and put together for this one step.
fn byte_in(r: u16, cell: u16) -> u16
    ensures { result ≡ feed r (byte_bits cell []) }
{
    let mut x = r ^ (cell % 256 * 256);
    for _ in 0..BYTE_BITS {
        x = shift(x);
    }
    x
}

// The check of a few cells. LLVM makes a table of its own of the shifts.
fn by_bits(cells: &[u16]) -> u16
    ensures { result ≡ check (bytes_of cells.now) }
{
    cells.iter().fold(0, |r, cell| byte_in(r, *cell))
}

// ---- by the table

// Cells into the register, one look into the table for each, as the model's `table_step` has it: arrays of bytes would say it longer. Tables and words, here
// and below, are arrays with a fixed length: there is no heap, and a byte is always an index of the table.
fn by_table(table: &[u16; 256], start: u16, cells: &[u16]) -> u16
    requires { table.now ≡ remainders }
    ensures { result ≡ table_feed start (bytes_of cells.now) }
{
    let mut r = start;
    for cell in cells {
        let b = (r / 256) ^ (cell % 256);
        r = (r % 256 * 256) ^ table[usize::from(b)];
    }
    r
}

// ---- by folding

// Sixteen cells, four to a word, the first of them the lowest. All cells before them were folded into them.
#[derive(Clone, Copy, Default)]
struct Rest {
    a: u64,
    b: u64,
    c: u64,
    d: u64,
}

// Four cells as a word. The library makes numbers of bytes, not of four numbers of 16 bits: the cells would have to be taken apart first.
fn word(cells: &[u16; WORD_CELLS]) -> u64
    ensures { bits (cells_in result) ≡ bits cells.now }
{
    let [a, b, c, d] = *cells;
    u64::from(a)
        + u64::from(b) * 0x10000
        + u64::from(c) * 0x100000000
        + u64::from(d) * 0x1000000000000
}

// Four cells more. The first four of the rest go into those 4, 11 and 16 cells later, and are left out. Shifts here and below multiply and divide polynomials:
// no number is taken apart.
fn fold(s: Rest, w: u64) -> Rest
    ensures { check (rest result) ≡ feed (check (rest s)) (bits (cells_in w)) }
{
    let first = s.a;
    Rest {
        a: s.b ^ first,
        b: s.c ^ (first << 48),
        c: s.d ^ (first >> 16),
        d: w ^ first,
    }
}

// The bytes of eight cells, the first of them the highest.
fn packed(v: u64, w: u64) -> u64
    ensures { bits (bytes_in result) ≡ bits (cells_in v ++ cells_in w) }
{
    let [a, _, b, _, c, _, d, _] = v.to_le_bytes();
    let [e, _, f, _, g, _, h, _] = w.to_le_bytes();
    u64::from_be_bytes([a, b, c, d, e, f, g, h])
}

// For s = 4 a word of 64 bits taken 64 bits on, for s = 2 one of 32 taken 32 bits on, by x^(16 s) = x^(12 s) + x^(5 s) + 1.
fn spread(x: u64, s: u64) -> u64
    requires { s ≤ 4 }
    ensures { result ≡ spread s x }
{
    let over = (x >> (4 * s)) ^ (x >> (11 * s));
    let twice = (over >> (4 * s)) ^ (over >> (11 * s));
    let back = x ^ over ^ twice ^ (twice >> (4 * s));
    (back << (12 * s)) ^ (back << (5 * s)) ^ back
}

// Four bytes that leave what the sixteen cells leave.
fn last_bytes(s: Rest) -> [u16; 4]
    ensures { check result ≡ check (rest s) }
{
    let e = packed(s.c, s.d) ^ spread(packed(s.a, s.b), 4);
    let g = e ^ spread(e >> 32, 2);
    let [.., a, b, c, d] = g.to_be_bytes();
    [u16::from(a), u16::from(b), u16::from(c), u16::from(d)]
}

// The register after the rest and the cells behind it.
fn ended(s: Rest, cells: &[u16]) -> u16
    ensures { result ≡ feed (check (rest s)) (bits (bytes_of cells.now)) }
{
    let last = last_bytes(s);
    let r = by_table(&TABLE, 0, &last);
    by_table(&TABLE, r, cells)
}

fn by_folding(cells: &[u16]) -> u16
    ensures { result ≡ check (bytes_of cells.now) }
{
    let (fours, last) = cells.as_chunks::<WORD_CELLS>();
    // zeros in front make no difference
    let mut s = Rest::default();
    for four in fours {
        s = fold(s, word(four));
    }
    ended(s, last)
}

// ---- the check

// From so many cells on the check is by folding.
const FOLDED: usize = 16;

// The check of the bytes of some cells.
pub fn check_of(cells: &[u16]) -> u16
    ensures { result ≡ check (bytes_of cells.now) }
{
    if cells.len() < FOLDED {
        return by_bits(cells);
    }
    by_folding(cells)
}

// Whether cells are all recorded bytes. There is no early end, so that the compiler can look at eight cells at once. The division is the model's `is_byte`,
// and the test all that differs from `is_bare` of hunt: a function for both would take it as a closure, of which its clause would have to speak.
pub fn all_bytes(cells: &[u16]) -> bool
    ensures { result ≡ all_bytes cells.now }
{
    cells.iter().fold(true, |all, cell| all & (cell / 256 == 1))
}

// Whether cells are all recorded bytes and leave no remainder.
fn clean(cells: &[u16]) -> bool
    ensures { result ≡ both (all_bytes cells.now) (eqb (check (bytes_of cells.now)) 0) }
{
    all_bytes(cells) && check_of(cells) == 0
}

// Whether cells are an area that is good: its bytes and its check, all recorded, and the check agrees.
#[tactic(auto, using(crate::proofs::Cells::clean_good, crate::proofs::Cells::short_bad))]
pub fn good(cells: &[u16]) -> bool
    ensures { result ≡ good_cells (length cells.now - check_bytes) cells.now }
{
    CHECK_BYTES <= cells.len() && clean(cells)
}

// The remainder of each byte.
const TABLE: [u16; 256] = [
    0x0000, 0x1021, 0x2042, 0x3063, 0x4084, 0x50A5, 0x60C6, 0x70E7, 0x8108, 0x9129, 0xA14A, 0xB16B,
    0xC18C, 0xD1AD, 0xE1CE, 0xF1EF, 0x1231, 0x0210, 0x3273, 0x2252, 0x52B5, 0x4294, 0x72F7, 0x62D6,
    0x9339, 0x8318, 0xB37B, 0xA35A, 0xD3BD, 0xC39C, 0xF3FF, 0xE3DE, 0x2462, 0x3443, 0x0420, 0x1401,
    0x64E6, 0x74C7, 0x44A4, 0x5485, 0xA56A, 0xB54B, 0x8528, 0x9509, 0xE5EE, 0xF5CF, 0xC5AC, 0xD58D,
    0x3653, 0x2672, 0x1611, 0x0630, 0x76D7, 0x66F6, 0x5695, 0x46B4, 0xB75B, 0xA77A, 0x9719, 0x8738,
    0xF7DF, 0xE7FE, 0xD79D, 0xC7BC, 0x48C4, 0x58E5, 0x6886, 0x78A7, 0x0840, 0x1861, 0x2802, 0x3823,
    0xC9CC, 0xD9ED, 0xE98E, 0xF9AF, 0x8948, 0x9969, 0xA90A, 0xB92B, 0x5AF5, 0x4AD4, 0x7AB7, 0x6A96,
    0x1A71, 0x0A50, 0x3A33, 0x2A12, 0xDBFD, 0xCBDC, 0xFBBF, 0xEB9E, 0x9B79, 0x8B58, 0xBB3B, 0xAB1A,
    0x6CA6, 0x7C87, 0x4CE4, 0x5CC5, 0x2C22, 0x3C03, 0x0C60, 0x1C41, 0xEDAE, 0xFD8F, 0xCDEC, 0xDDCD,
    0xAD2A, 0xBD0B, 0x8D68, 0x9D49, 0x7E97, 0x6EB6, 0x5ED5, 0x4EF4, 0x3E13, 0x2E32, 0x1E51, 0x0E70,
    0xFF9F, 0xEFBE, 0xDFDD, 0xCFFC, 0xBF1B, 0xAF3A, 0x9F59, 0x8F78, 0x9188, 0x81A9, 0xB1CA, 0xA1EB,
    0xD10C, 0xC12D, 0xF14E, 0xE16F, 0x1080, 0x00A1, 0x30C2, 0x20E3, 0x5004, 0x4025, 0x7046, 0x6067,
    0x83B9, 0x9398, 0xA3FB, 0xB3DA, 0xC33D, 0xD31C, 0xE37F, 0xF35E, 0x02B1, 0x1290, 0x22F3, 0x32D2,
    0x4235, 0x5214, 0x6277, 0x7256, 0xB5EA, 0xA5CB, 0x95A8, 0x8589, 0xF56E, 0xE54F, 0xD52C, 0xC50D,
    0x34E2, 0x24C3, 0x14A0, 0x0481, 0x7466, 0x6447, 0x5424, 0x4405, 0xA7DB, 0xB7FA, 0x8799, 0x97B8,
    0xE75F, 0xF77E, 0xC71D, 0xD73C, 0x26D3, 0x36F2, 0x0691, 0x16B0, 0x6657, 0x7676, 0x4615, 0x5634,
    0xD94C, 0xC96D, 0xF90E, 0xE92F, 0x99C8, 0x89E9, 0xB98A, 0xA9AB, 0x5844, 0x4865, 0x7806, 0x6827,
    0x18C0, 0x08E1, 0x3882, 0x28A3, 0xCB7D, 0xDB5C, 0xEB3F, 0xFB1E, 0x8BF9, 0x9BD8, 0xABBB, 0xBB9A,
    0x4A75, 0x5A54, 0x6A37, 0x7A16, 0x0AF1, 0x1AD0, 0x2AB3, 0x3A92, 0xFD2E, 0xED0F, 0xDD6C, 0xCD4D,
    0xBDAA, 0xAD8B, 0x9DE8, 0x8DC9, 0x7C26, 0x6C07, 0x5C64, 0x4C45, 0x3CA2, 0x2C83, 0x1CE0, 0x0CC1,
    0xEF1F, 0xFF3E, 0xCF5D, 0xDF7C, 0xAF9B, 0xBFBA, 0x8FD9, 0x9FF8, 0x6E17, 0x7E36, 0x4E55, 0x5E74,
    0x2E93, 0x3EB2, 0x0ED1, 0x1EF0,
];
