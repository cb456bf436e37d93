// A pack of tracks, lent as one slice of cells: its shape, a seek's address, and where a track lies.
#![tactic(auto)]

ghost use Rattle.std.specs.Prelude.{◌≡◌, ◌+◌, ◌*◌, ◌≤◌};
ghost use Rattle.cells.specs.Cells.{track_cells};
ghost use Rattle.pack.specs.Pack.{pack_fits, seek_to, seek_head, most_cylinders, most_heads, OnPack, start_of};

use rows::Row;

// The most cylinders and heads of a pack.
const MOST_CYLINDERS: u32 = 203;

const MOST_HEADS: u32 = 10;

// A cylinder's number and a head's are two types, so that none stands where the other is meant. They aren't one struct: Seek Head changes one of them, and
// `start_of` and `seek_to` of the model take them apart.
#[derive(Clone, Copy, Default)]
pub struct Cylinder(pub u16);

#[derive(Clone, Copy, Default)]
pub struct Head(pub u16);

// How many cylinders and heads the host says a pack has.
#[derive(Clone, Copy)]
pub struct Shape {
    pub cylinders: u32,
    pub heads: u32,
}

// How many cells the tracks of a pack have.
fn cells_on(g: Shape) -> usize
    requires { (g.cylinders ≤ most_cylinders) × (g.heads ≤ most_heads) }
    ensures { result ≡ g.cylinders * g.heads * track_cells }
{
    g.cylinders as usize * g.heads as usize * cells::TRACK_CELLS
}

// Whether a pack's shape is right, and its number of cells: those that are lent, of which a shape knows nothing, so they stay two.
#[tactic(auto, unfolding(crate::specs::Pack::pack_fits))]
pub fn pack_fits(g: Shape, count: usize) -> bool
    ensures { result ≡ pack_fits g count }
{
    (1..=MOST_CYLINDERS).contains(&g.cylinders)
        && (1..=MOST_HEADS).contains(&g.heads)
        && count == cells_on(g)
}

// Where Seek and Seek Cylinder go: by tests of BB and the cylinder, and then as Seek Head. No test stands in both.
#[tactic(auto, using(cells::proofs::Tests::tests), unfolding(crate::specs::Pack::seek_to, crate::specs::Pack::seek_head))]
pub fn seek_to(g: Shape, bb: u16, c: Cylinder, h: Head) -> Result<(Cylinder, Head), Row>
    ensures { result ≡ seek_to g bb c h }
{
    if bb != 0 || g.cylinders <= u32::from(c.0) {
        return Err(Row::BadSeek);
    }
    seek_head(g, c, h)
}

// Where Seek Head goes, from a cylinder.
#[tactic(auto, using(cells::proofs::Tests::tests), unfolding(crate::specs::Pack::seek_head))]
pub fn seek_head(g: Shape, c: Cylinder, h: Head) -> Result<(Cylinder, Head), Row>
    ensures { result ≡ seek_head g c h }
{
    if g.heads <= u32::from(h.0) {
        return Err(Row::BadSeek);
    }
    Ok((c, h))
}

// The first cell of a track.
pub fn start_of(g: Shape, c: Cylinder, h: Head) -> usize
    requires { (g.cylinders ≤ most_cylinders) × (g.heads ≤ most_heads) × OnPack g c h }
    ensures { (result ≡ start_of g c h) × (result + track_cells ≤ g.cylinders * g.heads * track_cells) }
{
    let cylinder = usize::from(c.0);
    let head = usize::from(h.0);
    let heads = g.heads as usize;
    (cylinder * heads + head) * cells::TRACK_CELLS
}
