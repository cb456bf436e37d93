// The box, and a look at a track: what `box_export_c` exports, each function under its name, so that answers are C's
// numbers. Nothing is required of any caller.
#![tactic(auto)]

ghost use Rattle.std.specs.Prelude.{◌≡◌, length, eqb};
ghost use Rattle.cells.specs.Cells.{pick};
ghost use Rattle.held.specs.Held.{fresh, held_bytes, encoded, bit};
ghost use Rattle.look.specs.Look.{marker_call, looked, area_call};
ghost use Rattle.box_export.specs.Calls.{call, shape, start_call, go_call};

use held::Held;
use pack::Shape;

mod numbers;

// The fresh box: 1 if it was written, 0 with nothing written if the length is wrong.
pub fn poplar_fresh(bytes: &mut [u8]) -> u8
    ensures { (result ≡ bit (eqb (length bytes.old) held_bytes))
        × (bytes.new ≡ pick (eqb (length bytes.old) held_bytes) (encoded fresh) bytes.old) }
{
    u8::from(held::put(bytes, Held::fresh()))
}

// Starts a chain. A start and a go differ in the call alone: a closure for it would be lent storage and cells again, and say again what comes back.
pub fn poplar_start(
    bytes: &mut [u8],
    storage: &mut [u8],
    cells: &mut [u16],
    cylinders: u32,
    heads: u32,
) -> u8
    ensures { call result bytes.new storage.new cells.new
        ≡ start_call (shape cylinders heads) bytes.old storage.old cells.old }
{
    let g = Shape { cylinders, heads };
    match held::keep(bytes) {
        Some(h) => numbers::tell(bytes, host::start(g, h, storage, cells)),
        None => numbers::refuse(g, storage, cells),
    }
}

// Goes on with a chain, for at most so many command words.
pub fn poplar_go(
    bytes: &mut [u8],
    storage: &mut [u8],
    cells: &mut [u16],
    cylinders: u32,
    heads: u32,
    allowance: u16,
) -> u8
    ensures { call result bytes.new storage.new cells.new
        ≡ go_call (shape cylinders heads) allowance bytes.old storage.old cells.old }
{
    let g = Shape { cylinders, heads };
    match held::keep(bytes) {
        Some(h) => numbers::tell(bytes, host::go(g, h, storage, cells, allowance)),
        None => numbers::refuse(g, storage, cells),
    }
}

// The first marker of a track at or after a place.
pub fn poplar_marker(track: &[u16], place: u16) -> u16
    ensures { result ≡ marker_call track.now place }
{
    look::marker(track, place)
}

// One area of a track: where it lies, and whether it is readable.
pub fn poplar_area(track: &[u16], record: u16, part: u8, area: &mut [u32]) -> u8
    ensures { looked result area.new ≡ area_call track.now «record» part area.old }
{
    look::area(track, record, part, area)
}
