// What C and Rust link: the functions of `box_export` under their own names, each with its clauses again. C needs them apart: they hold no code, and
// programs in Rattle call their fellows.
#![tactic(auto)]

ghost use Rattle.std.specs.Prelude.{◌≡◌, length, eqb};
ghost use Rattle.cells.specs.Cells.{pick};
ghost use Rattle.held.specs.Held.{fresh, held_bytes, encoded, bit};
ghost use Rattle.look.specs.Look.{marker_call, looked, area_call};
ghost use Rattle.box_export.specs.Calls.{call, shape, start_call, go_call};

// The fresh box: 1 if it was written, 0 with nothing written if the length is wrong.
#[unsafe(no_mangle)]
pub extern "C" fn poplar_fresh(bytes: &mut [u8]) -> u8
    ensures { (result ≡ bit (eqb (length bytes.old) held_bytes))
        × (bytes.new ≡ pick (eqb (length bytes.old) held_bytes) (encoded fresh) bytes.old) }
{
    box_export::poplar_fresh(bytes)
}

// Starts a chain.
#[unsafe(no_mangle)]
pub extern "C" fn poplar_start(
    bytes: &mut [u8],
    storage: &mut [u8],
    cells: &mut [u16],
    cylinders: u32,
    heads: u32,
) -> u8
    ensures { call result bytes.new storage.new cells.new
        ≡ start_call (shape cylinders heads) bytes.old storage.old cells.old }
{
    box_export::poplar_start(bytes, storage, cells, cylinders, heads)
}

// Goes on with a chain, for at most so many command words.
#[unsafe(no_mangle)]
pub extern "C" fn poplar_go(
    bytes: &mut [u8],
    storage: &mut [u8],
    cells: &mut [u16],
    cylinders: u32,
    heads: u32,
    allowance: u16,
) -> u8
    ensures { call result bytes.new storage.new cells.new
        ≡ go_call (shape cylinders heads) allowance bytes.old storage.old cells.old }
{
    box_export::poplar_go(bytes, storage, cells, cylinders, heads, allowance)
}

// The first marker of a track at or after a place.
#[unsafe(no_mangle)]
pub extern "C" fn poplar_marker(track: &[u16], place: u16) -> u16
    ensures { result ≡ marker_call track.now place }
{
    box_export::poplar_marker(track, place)
}

// One area of a track: where it lies, and whether it is readable.
#[unsafe(no_mangle)]
pub extern "C" fn poplar_area(track: &[u16], record: u16, part: u8, area: &mut [u32]) -> u8
    ensures { looked result area.new ≡ area_call track.now «record» part area.old }
{
    box_export::poplar_area(track, record, part, area)
}
