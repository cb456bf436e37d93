// Which record a command works on, by its row, the markers and what is held; or the row of the Unit Check table that ends it first.
#![tactic(auto)]

ghost use Rattle.std.specs.Prelude.{◌≡◌, ◌≤◌, Some, None, Ok, Err};
ghost use Rattle.cells.specs.Cells.{track_cells, marks, pick, either};
ghost use Rattle.rows.specs.declared.{Row.Row};
ghost use Rattle.hunt.specs.Hunt.{count_first, spaced_to};
ghost use Rattle.command.specs.Command.{SelectedOn, equal_id, equal_id_or_key, home_done, record_written, task, marks_of, licensed, tallies, on_record, on_next, on_selected, to_next, to_served, aimed, plan_of};
ghost use Rattle.task.specs.Inside.{selected_place, is_served, unbarred};
ghost use Rattle.table.specs.Table.{rule_of, looks};
ghost use Rattle.table.specs.declared.{Aim.Aim};
ghost use Rattle.turn.specs.Turn.{alone};

use cells::Track;
use command::Task;
use held::{Orders, Position};
use hunt::Spot;
use pack::Head;
use rows::Row;
use table::{Act, Aim, Bar, Licence, Rule, Serves};

// The command before is held as its code, the byte that the channel sent: `equal_id`, `equal_id_or_key`, `home_done` and `record_written` of the model, which
// may not change, compare that byte with these numbers.
const SEARCH_ID_EQUAL: u8 = 0x31;

const SEARCH_KEY_EQUAL: u8 = 0x29;

const SEARCH_HOME: u8 = 0x39;

const WRITE_HOME: u8 = 0x19;

const WRITE_R0: u8 = 0x15;

const WRITE_COUNT_KEY_DATA: u8 = 0x1D;

// Where the head stands after home address work.
const HOME_PLACE: u16 = 1;

// Search ID and Key may pass one index point in a row.
pub const MOST_TALLY: u8 = 1;

#[tactic(auto, unfolding(command::specs::Command::equal_id))]
fn equal_id(before: u8, whole: bool) -> bool
    ensures { result ≡ equal_id before whole }
{
    whole && before == SEARCH_ID_EQUAL
}

#[tactic(auto, unfolding(command::specs::Command::equal_id_or_key))]
fn equal_id_or_key(before: u8, whole: bool) -> bool
    ensures { result ≡ equal_id_or_key before whole }
{
    whole && (before == SEARCH_ID_EQUAL || before == SEARCH_KEY_EQUAL)
}

#[tactic(auto, unfolding(command::specs::Command::home_done))]
fn home_done(before: u8, whole: bool) -> bool
    ensures { result ≡ home_done before whole }
{
    before == WRITE_HOME || (whole && before == SEARCH_HOME)
}

#[tactic(auto, unfolding(command::specs::Command::record_written))]
fn record_written(before: u8) -> bool
    ensures { result ≡ record_written before }
{
    before == WRITE_R0 || before == WRITE_COUNT_KEY_DATA
}

// Whether a new record may be written.
fn record_licensed(before: u8, whole: bool) -> bool
    ensures { result ≡ either (record_written before) (equal_id_or_key before whole) }
{
    record_written(before) || equal_id_or_key(before, whole)
}

// Whether the command before was a search or a read.
fn follows_look(before: u8) -> bool
    ensures { result ≡ looks (rule_of before).act }
{
    table::is_look(table::rule_of(before).act)
}

// Whether the command before is one that must come before. Each licence asks for another test, so a match says it shortest.
#[tactic(auto, unfolding(command::specs::Command::licensed))]
fn licensed(l: Licence, o: Orders) -> bool
    ensures { result ≡ licensed l o }
{
    match l {
        Licence::Any => true,
        Licence::Look => follows_look(o.before),
        Licence::HomeAddress => home_done(o.before, o.whole),
        Licence::WrittenOrEqual => record_licensed(o.before, o.whole),
        Licence::EqualIdOrKey => equal_id_or_key(o.before, o.whole),
        Licence::EqualId => equal_id(o.before, o.whole),
    }
}

// Whether a command counts the index points that it passes: a search, with anything in it, for which equality would not do.
#[tactic(auto, unfolding(command::specs::Command::tallies))]
fn is_tallying(a: Act) -> bool
    ensures { result ≡ tallies a }
{
    matches!(a, Act::Search(_))
}

// A record that the head came to past so many index points. The rule and the orders stand apart here and below, as in the model's `on_record r o ..`:
// each contract would take a struct of both apart.
#[tactic(auto, unfolding(command::specs::Command::on_record))]
fn on_record(r: Rule, o: Orders, h: Head, spot: Spot, n: u8) -> Result<Task, Row>
    requires { count_first spot ≤ track_cells }
    ensures { result ≡ on_record r o h spot n }
{
    // Proved to fit: `try_from` would add an end that is never come to.
    let place = hunt::count_first(spot) as u16;
    let selection = r.selects.then_some(spot);
    let tally = if is_tallying(r.act) {
        o.tally.saturating_add(n)
    } else {
        0
    };
    if MOST_TALLY < tally {
        return Err(Row::SecondIndex);
    }
    Ok(Task {
        head: h,
        place,
        selection,
        tally,
    })
}

#[tactic(auto, unfolding(command::specs::Command::on_next, hunt::specs::Hunt::spaced_to))]
fn on_next(r: Rule, o: Orders, h: Head, next: Option<(Spot, u8)>) -> Result<Task, Row>
    requires { spaced_to next ≤ track_cells }
    ensures { result ≡ on_next r o h next }
{
    let (spot, n) = next.ok_or(Row::NoMarker)?;
    on_record(r, o, h, spot, n)
}

// The record selected, which there must be.
#[tactic(auto, unfolding(command::specs::Command::on_selected, crate::specs::Inside::selected_place))]
fn on_selected(r: Rule, o: Orders, h: Head) -> Result<Task, Row>
    requires { selected_place o.selection ≤ track_cells }
    ensures { result ≡ on_selected r o h o.selection (Err Row.WrongBefore) }
{
    let spot = o.selection.ok_or(Row::WrongBefore)?;
    on_record(r, o, h, spot, 0)
}

// The next record. Position and orders stand apart here and below, as in the model's `to_next r m s o`: each clause would take a struct of both apart.
#[tactic(auto, unfolding(command::specs::Command::to_next, command::specs::Command::marks_of))]
fn to_next(r: Rule, track: &Track, s: Position, o: Orders) -> Result<Task, Row>
    ensures { result ≡ to_next r (marks_of (alone track.now)) s o }
{
    on_next(r, o, s.head, hunt::next_record(track, s.place))
}

// The record selected, where the command before serves this one, or else the next: with a guard each is called in one place (DECISIONS 97).
#[tactic(auto, unfolding(command::specs::Command::to_served, command::specs::Command::on_selected))]
fn to_served(r: Rule, track: &Track, s: Position, o: Orders, serves: bool) -> Result<Task, Row>
    requires { SelectedOn (marks track.now) o.selection }
    ensures { result ≡ to_served r (marks_of (alone track.now)) s o serves }
{
    match o.selection {
        Some(spot) if serves => on_record(r, o, s.head, spot, 0),
        _ => to_next(r, track, s, o),
    }
}

// Whom a command serves.
fn serves_of(code: u8) -> Serves
    ensures { result ≡ (rule_of code).serves }
{
    table::rule_of(code).serves
}

// Whether the command before serves one with this aim. Two aims ask, each its own test, and the others nothing.
#[tactic(auto, unfolding(crate::specs::Inside::is_served))]
fn is_served(a: Aim, before: u8) -> bool
    ensures { result ≡ is_served a before }
{
    match a {
        Aim::NextForData => table::serves_data(serves_of(before)),
        Aim::NextForKey => table::serves_key(serves_of(before)),
        _ => false,
    }
}

// A task at a place where nothing is selected.
fn task_at(h: Head, place: u16) -> Result<Task, Row>
    ensures { result ≡ Ok (task h place None 0) }
{
    Ok(Task {
        head: h,
        place,
        selection: None,
        tally: 0,
    })
}

// The last arm is for Next, NextForData and NextForKey: with more than one call of `to_served` plans went through memory (DECISIONS 97).
#[tactic(auto, unfolding(command::specs::Command::aimed, command::specs::Command::marks_of, hunt::specs::Hunt::count_first))]
fn aimed(r: Rule, track: &Track, s: Position, o: Orders, a: Aim) -> Result<Task, Row>
    requires { SelectedOn (marks track.now) o.selection }
    ensures { result ≡ aimed r (marks_of (alone track.now)) s o a }
{
    match a {
        Aim::Stays => task_at(s.head, s.place),
        Aim::HomeAddress => task_at(s.head, HOME_PLACE),
        Aim::R0 => on_record(r, o, s.head, Spot::R0, 0),
        Aim::NextId => on_next(r, o, s.head, hunt::next_id(track, s.place)),
        Aim::Selected => on_selected(r, o, s.head),
        _ => to_served(r, track, s, o, is_served(a, o.before)),
    }
}

// The row of a mask that bars the command.
#[tactic(auto, unfolding(crate::specs::Inside::unbarred))]
fn unbarred(b: Bar, mask: u8) -> Result<(), Row>
    ensures { result ≡ unbarred b mask }
{
    match b {
        Bar::Seeks(k) if table::bars_seek(mask, k) => Err(Row::SeekBarred),
        Bar::Writes(k) if table::bars_write(mask, k) => Err(Row::WriteBarred),
        _ => Ok(()),
    }
}

// Where a command works, or the row that ends it. That the record selected is one of the track can be no invariant of the orders, which are held without it.
#[tactic(auto, unfolding(command::specs::Command::plan_of))]
pub fn plan(rule: Rule, track: &Track, s: Position, o: Orders) -> Result<Task, Row>
    requires { SelectedOn (marks track.now) o.selection }
    ensures { result ≡ plan_of rule (marks_of (alone track.now)) s o }
{
    if !licensed(rule.licence, o) {
        return Err(Row::WrongBefore);
    }
    unbarred(rule.bar, o.mask)?;
    aimed(rule, track, s, o, rule.aim)
}
