// The parts of a track by their numbers.
ghost use Rattle.std.specs.Prelude.{◌≡◌};
ghost use Rattle.areas.specs.Parts.{part_named};

use crate::Part;

// A number of no part.
#[derive(Clone, Copy)]
pub struct NoPart(pub u8);

impl TryFrom<u8> for Part {
    type Error = NoPart;

    ghost try_from_gives = { λ p r. r ≡ part_named p };

    #[tactic(auto, unfolding(crate::specs::Parts::part_named))]
    fn try_from(p: u8) -> Result<Self, NoPart> {
        match p {
            0 => Ok(Part::Home),
            1 => Ok(Part::Count),
            2 => Ok(Part::Key),
            3 => Ok(Part::Data),
            _ => Err(NoPart(p)),
        }
    }
}
