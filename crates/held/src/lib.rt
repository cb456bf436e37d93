// What the box holds from call to call, and the 64 bytes that a host keeps of it.
#![tactic(auto)]

ghost use Rattle.std.specs.Prelude.{◌≡◌, eqb, length, get_or, drop};
ghost use Rattle.cells.specs.Cells.{pick, part};
ghost use Rattle.held.specs.Held.{fresh, rested, held_bytes, selection_no, selection_cell, encoded, all_zero, flags_fit, selection_encoded, encodes, is_set, selection_in, be32, decoded, kept};

use hunt::Spot;
use pack::{Cylinder, Head};
use rows::Sense;

// The bytes that a host keeps, and the number of their layout: there is one, so no enum.
const HELD_BYTES: usize = 64;

const LAYOUT: u8 = 1;

// Where the head stands, and what sense says: this survives a chain.
#[derive(Clone, Copy, Default)]
pub struct Position {
    pub cylinder: Cylinder,
    pub head: Head,
    pub place: u16,
    pub sense: Sense,
}

// What the commands of a chain leave for those after them. A flag stands beside its value here and in Channel, not around it: of the 64 bytes each is one
// by itself, and `encoded-decoded` gives back all that `encodes` lets in, a mask whose flag is 0 too.
#[derive(Clone, Copy, Default)]
pub struct Orders {
    pub mask: u8,
    pub mask_set: bool,
    // The code of the command before, 0 for none, as byte 7 of REFERENCE 3.4 has it: no command has 0 for its right digit.
    pub before: u8,
    // Its search was equal over the whole field.
    pub whole: bool,
    pub tally: u8,
    pub selection: Option<Spot>,
}

// The channel's part: whether a chain is going, its key, the next word's address, whether the word before was a TIC.
#[derive(Clone, Copy, Default)]
pub struct Channel {
    pub going: bool,
    pub key: u8,
    pub next: u32,
    pub after_tic: bool,
}

#[derive(Clone, Copy, Default)]
pub struct Held {
    pub position: Position,
    pub orders: Orders,
    pub channel: Channel,
}

#[tactic(auto, unfolding(crate::specs::Held::fresh, crate::specs::Held::fresh_position, crate::specs::Held::fresh_orders, crate::specs::Held::fresh_channel))]
impl Held {
    // The fresh box.
    pub fn fresh() -> Held
        ensures { result ≡ fresh }
    {
        Held::default()
    }

    // At a chain's end: the fresh box, but for where it stands and what sense says.
    #[tactic(auto, unfolding(crate::specs::Held::rested))]
    pub fn rested(position: Position) -> Held
        ensures { result ≡ rested position }
    {
        Held {
            position,
            ..Held::fresh()
        }
    }
}

// Whether the byte at an index is a flag that is set.
fn set_at(bytes: &[u8], at: usize) -> bool
    ensures { result ≡ is_set (get_or bytes.now at 0) }
{
    cells::byte_at(bytes, at) == 1
}

// Whether the bytes from an index on are zeros.
fn zeros_from(bytes: &[u8], first: usize) -> bool
    ensures { result ≡ all_zero (drop first bytes.now) }
{
    bytes.iter().skip(first).all(|b| *b == 0)
}

// Whether the four flags are 0 or 1.
#[tactic(auto, using(cells::proofs::Tests::tests), unfolding(crate::specs::Held::flags_fit))]
fn flags_fit(bytes: &[u8]) -> bool
    ensures { result ≡ flags_fit bytes.now }
{
    cells::byte_at(bytes, 0) < 2
        && cells::byte_at(bytes, 3) < 2
        && cells::byte_at(bytes, 6) < 2
        && cells::byte_at(bytes, 8) < 2
}

// Whether the selection is one, with a marker's cell only where a marker is selected.
#[tactic(auto, using(cells::proofs::Tests::tests), unfolding(crate::specs::Held::selection_encoded))]
fn selection_fits(bytes: &[u8]) -> bool
    ensures { result ≡ selection_encoded bytes.now }
{
    let selection = cells::byte_at(bytes, 10);
    selection < 3 && (selection == 2 || cells::pair_at(bytes, 12) == 0)
}

// Whether bytes encode a held state.
#[tactic(auto, using(cells::proofs::Tests::tests), unfolding(crate::specs::Held::encodes))]
fn encodes_held(bytes: &[u8]) -> bool
    ensures { result ≡ encodes bytes.now }
{
    bytes.len() == HELD_BYTES
        && cells::byte_at(bytes, 11) == LAYOUT
        && flags_fit(bytes)
        && selection_fits(bytes)
        && zeros_from(bytes, 24)
}

// The selection, by its number in byte 10 of REFERENCE 3.4, which C reads.
#[tactic(auto, using(cells::proofs::Tests::tests), unfolding(crate::specs::Held::selection_in))]
fn selection_in(bytes: &[u8]) -> Option<Spot>
    ensures { result ≡ selection_in bytes.now }
{
    match cells::byte_at(bytes, 10) {
        0 => None,
        1 => Some(Spot::R0),
        _ => Some(Spot::Marker(cells::pair_at(bytes, 12))),
    }
}

// Position, orders and channel, each field from its own bytes of REFERENCE 3.4: the three literals have no field in common.
#[tactic(auto, unfolding(crate::specs::Held::decoded))]
fn position_in(bytes: &[u8]) -> Position
    ensures { result ≡ (decoded bytes.now).position }
{
    Position {
        cylinder: Cylinder(cells::pair_at(bytes, 14)),
        head: Head(cells::pair_at(bytes, 16)),
        place: cells::pair_at(bytes, 18),
        sense: Sense {
            byte0: cells::byte_at(bytes, 4),
            byte1: cells::byte_at(bytes, 5),
        },
    }
}

#[tactic(auto, unfolding(crate::specs::Held::decoded))]
fn orders_in(bytes: &[u8]) -> Orders
    ensures { result ≡ (decoded bytes.now).orders }
{
    Orders {
        mask: cells::byte_at(bytes, 2),
        mask_set: set_at(bytes, 3),
        before: cells::byte_at(bytes, 7),
        whole: set_at(bytes, 8),
        tally: cells::byte_at(bytes, 9),
        selection: selection_in(bytes),
    }
}

// The next word's address.
fn next_in(bytes: &[u8]) -> u32
    ensures { result ≡ be32 bytes.now 20 }
{
    let top = cells::byte_at(bytes, 20);
    let upper = cells::byte_at(bytes, 21);
    let lower = cells::byte_at(bytes, 22);
    let last = cells::byte_at(bytes, 23);
    u32::from_be_bytes([top, upper, lower, last])
}

#[tactic(auto, unfolding(crate::specs::Held::decoded))]
fn channel_in(bytes: &[u8]) -> Channel
    ensures { result ≡ (decoded bytes.now).channel }
{
    Channel {
        going: set_at(bytes, 0),
        key: cells::byte_at(bytes, 1),
        next: next_in(bytes),
        after_tic: set_at(bytes, 6),
    }
}

#[tactic(auto, unfolding(crate::specs::Held::decoded))]
fn held_in(bytes: &[u8]) -> Held
    ensures { result ≡ decoded bytes.now }
{
    Held {
        position: position_in(bytes),
        orders: orders_in(bytes),
        channel: channel_in(bytes),
    }
}

// The held state that bytes encode, or that they encode none.
#[tactic(auto, using(cells::proofs::Tests::tests), unfolding(crate::specs::Held::kept))]
pub fn keep(bytes: &[u8]) -> Option<Held>
    ensures { result ≡ kept bytes.now }
{
    if encodes_held(bytes) {
        return Some(held_in(bytes));
    }
    None
}

// A selection's number in byte 10 of REFERENCE 3.4, which C reads, and the selected marker's cell, 0 where no marker is selected.
fn selection_parts(selection: Option<Spot>) -> (u8, u16)
    ensures { result ≡ (selection_no selection, selection_cell selection) }
{
    match selection {
        None => (0, 0),
        Some(Spot::R0) => (1, 0),
        Some(Spot::Marker(p)) => (2, p),
    }
}

// Bytes 0 to 23: an array, since there is no heap.
fn first_bytes(h: Held) -> [u8; 24]
    ensures { result ≡ part (encoded h) 0 24 }
{
    let (selection, cell) = selection_parts(h.orders.selection);
    let [cell_high, cell_low] = cell.to_be_bytes();
    let [cylinder_high, cylinder_low] = h.position.cylinder.0.to_be_bytes();
    let [head_high, head_low] = h.position.head.0.to_be_bytes();
    let [place_high, place_low] = h.position.place.to_be_bytes();
    let [top, upper, lower, last] = h.channel.next.to_be_bytes();
    [
        u8::from(h.channel.going),
        h.channel.key,
        h.orders.mask,
        u8::from(h.orders.mask_set),
        h.position.sense.byte0,
        h.position.sense.byte1,
        u8::from(h.channel.after_tic),
        h.orders.before,
        u8::from(h.orders.whole),
        h.orders.tally,
        selection,
        LAYOUT,
        cell_high,
        cell_low,
        cylinder_high,
        cylinder_low,
        head_high,
        head_low,
        place_high,
        place_low,
        top,
        upper,
        lower,
        last,
    ]
}

// The bytes of a held state stored, if there is room for just these. Whether they were is one test of the model, which C hears as 1 or 0: an Err would have no
// more to say.
pub fn put(held: &mut [u8], h: Held) -> bool
    ensures { (result ≡ eqb (length held.old) held_bytes)
        × (held.new ≡ pick (eqb (length held.old) held_bytes) (encoded h) held.old) }
{
    if held.len() != HELD_BYTES {
        return false;
    }
    let (first, rest) = held.split_at_mut(24);
    first.copy_from_slice(&first_bytes(h));
    rest.fill(0);
    true
}
