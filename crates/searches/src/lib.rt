// The searches.
#![tactic(auto)]

ghost use Rattle.std.specs.Prelude.{◌≡◌, leb};
ghost use Rattle.cells.specs.Cells.{pick, both};
ghost use Rattle.turn.specs.declared.Ending.TheVariants.{Normal, Satisfied};
ghost use Rattle.turn.specs.Turn.{alone, report_of};
ghost use Rattle.command.specs.Command.{satisfies, satisfies_field, equal_only, Sighted, sight, search_turn};
ghost use Rattle.searches.specs.Field.{field_first, field_length};

use areas::Counts;
use command::Job;
use core::cmp::Ordering;
use table::{How, Names};
use turn::{Ending, Report, Transfer};

// Cells of a flag, and of a count area with its check, in this type here.
const FLAG: usize = 1;

const COUNT: usize = 11;

// Bytes of the home address behind its flag, and of an ID.
const HOME: u16 = 4;

const ID: u16 = 5;

// Each search asks its own question of the order.
#[tactic(auto, unfolding(command::specs::Command::satisfies))]
fn satisfies(h: How, x: Ordering) -> bool
    ensures { result ≡ satisfies h x }
{
    match h {
        How::IfEqual => x.is_eq(),
        How::IfHigh => x.is_gt(),
        How::IfEqualOrHigh => x.is_ge(),
    }
}

// Whether a search over a field of n bytes is satisfied.
#[tactic(auto, unfolding(command::specs::Command::satisfies_field))]
fn found(h: How, x: Ordering, n: u16) -> bool
    ensures { result ≡ satisfies_field h x n }
{
    n != 0 && satisfies(h, x)
}

#[tactic(auto, unfolding(command::specs::Command::equal_only))]
fn equal_only(h: How) -> bool
    ensures { result ≡ equal_only h }
{
    matches!(h, How::IfEqual)
}

// Whether what was found was equal over the whole field, so many bytes being sent.
fn wholly(h: How, n: u16, sent: usize, found: bool) -> bool
    ensures { result ≡ both (equal_only h) (both (leb n sent) found) }
{
    equal_only(h) && (usize::from(n) <= sent && found)
}

fn end_by(satisfied: bool) -> Ending
    ensures { result ≡ pick satisfied Satisfied Normal }
{
    if satisfied {
        return Ending::Satisfied;
    }
    Ending::Normal
}

// The first cell of the field: a key lies behind the count area, an ID behind the flag. It is a place and no code; where nothing is named, 0 as in the model.
#[tactic(auto, unfolding(crate::specs::Field::field_first))]
fn field_first(names: Names, place: u16) -> usize
    ensures { result ≡ field_first names place }
{
    match names {
        Names::Nothing => 0,
        Names::HomeAddress => FLAG,
        Names::Count(true, _) => usize::from(place) + COUNT,
        Names::Count(false, _) => usize::from(place) + FLAG,
    }
}

// How many bytes the field has. It is no Option: a field of no bytes is compared as any other is, and satisfies nothing.
#[tactic(auto, unfolding(crate::specs::Field::field_length))]
fn field_length(names: Names, n: Counts) -> u16
    ensures { result ≡ field_length names n }
{
    match names {
        Names::Nothing => 0,
        Names::HomeAddress => HOME,
        Names::Count(true, _) => u16::from(n.kl),
        Names::Count(false, _) => ID,
    }
}

// What a search tells that has read its field. `Sighted` is of two values, job and track, so it stays a requires.
pub fn search(h: How, j: Job, sent: &[u8], track: &[u16]) -> Report
    requires { Sighted (alone track.now) j }
    ensures { result ≡ report_of (search_turn h (sight (alone track.now) j sent.now)) }
{
    let n = field_length(j.names, j.counts);
    let first = field_first(j.names, j.task.place);
    let x = compare::compare(&track[first..first + usize::from(n)], sent);
    let found = found(h, x, n);
    let whole = wholly(h, n, sent.len(), found);
    let end = end_by(found);
    ending::ended(j, end, Transfer::Takes(u32::from(n)), whole)
}
