// A look at one track, without a box: the next marker, and each area, where it lies and whether it is readable.
#![tactic(auto)]

ghost use Rattle.std.specs.Prelude.{◌≡◌, length, eqb, leb};
ghost use Rattle.cells.specs.Cells.{pick, either, track_cells};
ghost use Rattle.areas.specs.Areas.{read_count};
ghost use Rattle.areas.specs.Parts.{part_no};
ghost use Rattle.look.specs.Look.{marker_call, looks_at, key_look, data_look, part_look, part_of, call_fits, lies, looked, looked_of, area_call};

use areas::{Area, Part};
use cells::Track;

// The numbers that an area is told in: C lends so many.
const AREA_NUMBERS: usize = 2;

// What cells that are no track are answered: C is told so (`poplar_marker`).
const NO_TRACK: u16 = 65535;

// The error of a look: why no readable area is seen. One that is absent, or not known, has no place to tell.
#[derive(Clone, Copy)]
pub enum Unseen {
    WrongCall,
    Unreadable(Area),
    Absent,
    NotKnown,
}

// The first marker at or after a place, as a number.
#[tactic(auto, using(crate::proofs::Laws::marker_told, crate::proofs::Laws::no_track))]
pub fn marker(track: &[u16], place: u16) -> u16
    ensures { result ≡ marker_call track.now place }
{
    let Some(track) = track.as_array() else {
        return NO_TRACK;
    };
    hunt::next_marker(track, place).unwrap_or(cells::TRACK_END)
}

// An area, if it is readable.
#[tactic(auto, unfolding(crate::specs::Look::looks_at))]
fn look_at(track: &Track, a: Area) -> Result<Area, Unseen>
    ensures { result ≡ looks_at track.now a }
{
    if areas::is_readable(track, a) {
        return Ok(a);
    }
    Err(Unseen::Unreadable(a))
}

// The key area of the record whose count area is at a cell.
#[tactic(auto, unfolding(crate::specs::Look::key_look))]
fn look_key(track: &Track, c: u16) -> Result<Area, Unseen>
    ensures { result ≡ key_look track.now c (read_count track.now c) }
{
    let n = areas::read_count(track, c).ok_or(Unseen::NotKnown)?;
    if n.kl == 0 {
        return Err(Unseen::Absent);
    }
    look_at(track, areas::key_area(c, n))
}

// The data area of the record whose count area is at a cell.
#[tactic(auto, unfolding(crate::specs::Look::data_look))]
fn look_data(track: &Track, c: u16) -> Result<Area, Unseen>
    ensures { result ≡ data_look track.now c (read_count track.now c) }
{
    let n = areas::read_count(track, c).ok_or(Unseen::NotKnown)?;
    look_at(track, areas::data_area(c, n))
}

// A part of the record whose count area is at a cell, on the track or at its end; the home address is of no record. Each part lies elsewhere, so that
// closures would only hide these arms.
#[tactic(auto, unfolding(crate::specs::Look::part_look))]
fn look_part(track: &Track, c: u16, part: Part) -> Result<Area, Unseen>
    ensures { result ≡ pick (either (eqb (part_no part) 0) (leb c track_cells)) (part_look track.now c part) (Err Unseen.WrongCall) }
{
    match part {
        Part::Home => look_at(track, areas::home_area()),
        _ if c > cells::TRACK_END => Err(Unseen::WrongCall),
        Part::Count => look_at(track, areas::count_area(c)),
        Part::Key => look_key(track, c),
        Part::Data => look_data(track, c),
    }
}

// A look at one area, by its part's number.
#[tactic(auto, using(crate::proofs::Laws::look_wrong), unfolding(crate::specs::Look::call_fits))]
fn look(track: &[u16], c: u16, p: u8) -> Result<Area, Unseen>
    ensures { result ≡ pick (call_fits (length track.now) c p 2) (part_look track.now c (part_of p)) (Err Unseen.WrongCall) }
{
    let track: &Track = track.as_array().ok_or(Unseen::WrongCall)?;
    let Ok(part) = Part::try_from(p) else {
        return Err(Unseen::WrongCall);
    };
    look_part(track, c, part)
}

// Writes where an area lies.
#[tactic(auto, unfolding(crate::specs::Look::lies))]
fn put(area: &mut [u32; AREA_NUMBERS], a: Area)
    ensures { area.new ≡ lies a }
{
    *area = [a.first, a.bytes];
}

// The number of what was found, which is what C is told (`poplar_area`); an area is written.
#[tactic(auto, unfolding(crate::specs::Look::looked_of, crate::specs::Look::look_no, crate::specs::Look::numbers_left))]
fn tell(area: &mut [u32; AREA_NUMBERS], found: Result<Area, Unseen>) -> u8
    ensures { looked result area.new ≡ looked_of found area.old }
{
    match found {
        Err(Unseen::WrongCall) => 0,
        Ok(a) => {
            put(area, a);
            1
        }
        Err(Unseen::Unreadable(a)) => {
            put(area, a);
            2
        }
        Err(Unseen::Absent) => 3,
        Err(Unseen::NotKnown) => 4,
    }
}

// One area of a track: by its part 0 the home address, 1, 2 and 3 the count, key and data area of the record whose count area is at a cell. What C calls
// is this, so it is told by a number and two lent ones.
#[tactic(auto, using(crate::proofs::Laws::call_told, crate::proofs::Laws::call_wrong))]
pub fn area(track: &[u16], c: u16, p: u8, area: &mut [u32]) -> u8
    ensures { looked result area.new ≡ area_call track.now c p area.old }
{
    let Some(area) = area.as_mut_array() else {
        return 0;
    };
    tell(area, look(track, c, p))
}
