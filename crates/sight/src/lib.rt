// What a command reads: of a record its count area, then every area it names, all checked before any byte moves.
#![tactic(auto)]

ghost use Rattle.std.specs.Prelude.{◌≡◌, ◌∷◌, [], ltb, Ok, Err};
ghost use Rattle.cells.specs.Cells.{pick, both};
ghost use Rattle.areas.specs.Areas.{readable, row_of};
ghost use Rattle.pack.specs.declared.Head.{Head};
ghost use Rattle.table.specs.declared.{Names.Names};
ghost use Rattle.turn.specs.Turn.{alone};
ghost use Rattle.command.specs.Command.{named, on_head, all_read, gets};

use areas::{Area, Counts};
use rows::Row;
use table::Names;

// Whether an area is named and there, by its length.
fn is_there(named: bool, length: u16) -> bool
    ensures { result ≡ both named (ltb 0 length) }
{
    named && 0 < length
}

// An area is readable, or its row ends the command. The track is lent beside it: an area says where it lies, on any track.
fn check(track: &[u16], a: Area) -> Result<(), Row>
    ensures { result ≡ pick (readable track.now a) (Ok tt) (Err (row_of a.part)) }
{
    if areas::is_readable(track, a) {
        return Ok(());
    }
    Err(areas::row_of(a.part))
}

// The same, if the area is there.
fn check_if(there: bool, track: &[u16], a: Area) -> Result<(), Row>
    ensures { result ≡ pick there (pick (readable track.now a) (Ok tt) (Err (row_of a.part))) (Ok tt) }
{
    if there { check(track, a) } else { Ok(()) }
}

// The key and the data of a record, if they are named and there: the data first, then the key, whose row stands over the data's.
fn read_named(track: &[u16], c: u16, key: bool, body: bool, n: Counts) -> Result<Counts, Row>
    ensures { (h : Head) → result ≡ all_read (alone track.now) (on_head h (named c key body n)) (Ok n) }
{
    let data = check_if(is_there(body, n.dl), track, areas::data_area(c, n));
    check_if(is_there(key, u16::from(n.kl)), track, areas::key_area(c, n))?;
    data?;
    Ok(n)
}

// A record.
#[tactic(auto, using(crate::proofs::Laws::count_told))]
fn read_record(track: &[u16], c: u16, key: bool, body: bool) -> Result<Counts, Row>
    ensures { (h : Head) → result ≡ gets (Names.Count key body) (alone track.now) h c }
{
    let n = areas::read_count(track, c).ok_or(Row::UnreadableCount)?;
    read_named(track, c, key, body, n)
}

// All that a command names, checked. The home address has no count: its values are 0 then, as in the model's `counts_in`. Each arm names other areas, so a
// match says it shortest.
pub fn get(track: &[u16], n: Names, c: u16) -> Result<Counts, Row>
    ensures { (h : Head) → result ≡ gets n (alone track.now) h c }
{
    match n {
        Names::Nothing => Ok(Counts::default()),
        Names::HomeAddress => {
            check(track, areas::home_area())?;
            Ok(Counts::default())
        }
        Names::Count(key, body) => read_record(track, c, key, body),
    }
}
