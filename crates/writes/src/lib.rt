// The writes: how each ends, and the cells that it lays on the track under the head.
#![tactic(auto)]

ghost use Rattle.std.specs.Prelude.{◌≡◌, true, false, List, ◌∷◌, ℕ, ◌<◌};
ghost use Rattle.cells.specs.Cells.{padded, overlay, marker};
ghost use Rattle.house_check.specs.Check as House;
ghost use Rattle.areas.specs.Areas.{home_bytes, r0_first, record_cells, needed};
ghost use Rattle.room.specs.Room.{fits};
ghost use Rattle.recording.specs.Recording.{Lies};
ghost use Rattle.format.specs.Format.{new_counts, new_record};
ghost use Rattle.turn.specs.Turn.{alone, lay, is_check, report_of};
ghost use Rattle.command.specs.Command.{area_if, named, all_recorded, sight, record_takes, key_sent, to_end, r0_turn, record_turn, write_turn};
ghost use Rattle.writes.specs.Writes.{DoesWrite, gone_over, updated, Over};

use areas::{Area, Counts};
use cells::Track;
use command::{Job, Task};
use hunt::Spot;
use rows::Row;
use table::Write;
use turn::{Ending, Report, Transfer};

// The bytes of a home address without its check, in this type here.
const HOME_BYTES: u8 = 5;
// Bytes of a count that are sent, in this type here.
const COUNT_SENT: u32 = 8;

// Bytes of the key that are sent.
#[tactic(auto, unfolding(command::specs::Command::key_sent))]
fn key_sent(key: bool, n: Counts) -> u8
    ensures { result ≡ key_sent key n }
{
    if key { n.kl } else { 0 }
}

// Bytes that a new record takes: until its count is sent, 8.
#[tactic(auto, using(cells::proofs::Tests::tests), unfolding(command::specs::Command::record_takes))]
fn record_takes(sent: &[u8], n: Counts) -> u32
    ensures { result ≡ record_takes sent.now n }
{
    if sent.len() < COUNT_SENT as usize {
        return COUNT_SENT;
    }
    COUNT_SENT + u32::from(n.kl) + u32::from(n.dl)
}

// The parameters of the functions here are those of the model's definitions, one by one: a struct of them would be taken apart in each clause. A cell's
// number goes beside the track: cells before it are read or stay, and `format` takes the track whole.

// Write R0.
fn write_r0(flag: u8, j: Job, sent: &[u8]) -> Report
    ensures { (t : List ℕ) → result ≡ report_of (r0_turn (sight (alone t) j sent.now) flag) }
{
    let n = format::new_counts(flag, sent);
    if !room::has_room(u32::from(cells::FIRST_MARKER), areas::record_cells(n)) {
        return ending::fails(j, Row::NoRoom);
    }
    let transfer = Transfer::Takes(record_takes(sent, n));
    ending::ended(j, Ending::Normal, transfer, false)
}

// Write Count Key Data, from a cell on, which can lie far past the track: its task can be made only once there is room, so Write R0 is no case of this.
fn write_after(at: u32, flag: u8, j: Job, sent: &[u8]) -> Report
    ensures { (t : List ℕ) → result ≡ report_of (record_turn (sight (alone t) j sent.now) at flag) }
{
    let n = format::new_counts(flag, sent);
    if !room::has_room(at, areas::cells_needed(n)) {
        return ending::fails(j, Row::NoRoom);
    }
    // There is room, so it lies on the track: `try_from` would add a refusal that never comes.
    let p = at as u16;
    let task = Task {
        place: p + 1,
        selection: Some(Spot::Marker(p)),
        tally: 0,
        ..j.task
    };
    let transfer = Transfer::Takes(record_takes(sent, n));
    ending::ended_at(j, task, Ending::Normal, transfer, false)
}

// Whether an area that is there is all recorded bytes.
#[tactic(auto, unfolding(command::specs::Command::area_if, command::specs::Command::all_recorded))]
fn is_recorded_if(track: &[u16], there: bool, a: Area) -> bool
    ensures { result ≡ all_recorded track.now (area_if there a) }
{
    !there || format::is_recorded(track, a)
}

// Whether the areas that an update goes over are.
#[tactic(auto, using(crate::proofs::Report::key_bad, crate::proofs::Report::both_recorded))]
fn are_recorded(track: &[u16], key: bool, c: u16, n: Counts) -> bool
    ensures { result ≡ all_recorded track.now (named c key true n) }
{
    let keyed = 0 < key_sent(key, n);
    is_recorded_if(track, keyed, areas::key_area(c, n))
        && is_recorded_if(track, 0 < n.dl, areas::data_area(c, n))
}

// Write Data, and Write Key and Data.
#[tactic(auto, using(crate::proofs::Report::over_fails, crate::proofs::Report::over_ends))]
fn write_over(key: bool, j: Job, track: &[u16]) -> Report
    requires { DoesWrite j (Write.Update key) }
    ensures { (v : List ℕ) → result ≡ report_of (write_turn (Write.Update key) (sight (alone track.now) j v)) }
{
    let n = j.counts;
    if !are_recorded(track, key, j.task.place, n) {
        return ending::fails(j, Row::Unreadable);
    }
    let transfer = Transfer::Takes(u32::from(key_sent(key, n)) + u32::from(n.dl));
    ending::ended(j, ending::ending_of(j), transfer, false)
}

// How a write ends, the bytes that it takes, and what is held then. It lays nothing. Each arm has arguments of its own, so a table of functions would be
// no plainer; so in `lay`.
#[tactic(auto, using(crate::proofs::Report::tells))]
pub fn write(w: Write, j: Job, sent: &[u8], track: &[u16]) -> Report
    requires { DoesWrite j w }
    ensures { result ≡ report_of (write_turn w (sight (alone track.now) j sent.now)) }
{
    match w {
        Write::HomeAddress => ending::ended(
            j,
            Ending::Normal,
            Transfer::Takes(u32::from(HOME_BYTES)),
            false,
        ),
        Write::R0 => {
            let home = cells::byte_at(track, 0);
            write_r0(areas::flag_of_r0(home), j, sent)
        }
        Write::CountKeyData => write_after(
            areas::end_by(j.task.place, j.counts),
            areas::flag_after(j.counts.flag),
            j,
            sent,
        ),
        Write::Update(key) => write_over(key, j, track),
    }
}

// Write HA.
#[tactic(auto, using(crate::proofs::Calls::home_formatted))]
fn lay_home(sent: &[u8], track: &mut Track)
    ensures { track.new ≡ overlay track.old 0 (to_end 0 (House.cells_with_check (padded home_bytes sent.now))) }
{
    recording::write_area(track, 0, sent, usize::from(HOME_BYTES));
    recording::wipe(track, usize::from(cells::FIRST_MARKER));
}

// Write R0, where it has room.
#[tactic(auto, using(crate::proofs::Calls::r0_ends, crate::proofs::Calls::r0_formatted))]
fn lay_r0(flag: u8, sent: &[u8], track: &mut Track)
    requires { fits r0_first (record_cells (new_counts flag sent.now)) ≡ true }
    ensures { track.new ≡ overlay track.old r0_first (to_end r0_first (new_record flag sent.now)) }
{
    let n = format::new_counts(flag, sent);
    format::lay_record(track, cells::FIRST_MARKER, flag, sent, n);
    recording::wipe(
        track,
        usize::from(cells::FIRST_MARKER) + areas::record_cells(n) as usize,
    );
}

// Write Count Key Data, from a cell on where it has room. R0 has no marker, so only the counts and the gaps are common to both.
#[tactic(auto, using(crate::proofs::Calls::record_in, crate::proofs::Calls::record_ends, crate::proofs::Calls::record_formatted))]
fn lay_after(at: u32, flag: u8, sent: &[u8], track: &mut Track)
    requires { fits at (needed (new_counts flag sent.now)) ≡ true }
    ensures { track.new ≡ overlay track.old at (to_end at (marker ∷ new_record flag sent.now)) }
{
    let n = format::new_counts(flag, sent);
    // It lies on the track, as above.
    format::lay_marked(track, at as u16, flag, sent, n);
    recording::wipe(track, at as usize + areas::cells_needed(n) as usize);
}

// An area of n bytes, if there are any, of those sent from one on.
#[tactic(auto, using(cells::proofs::Tests::tests), unfolding(crate::specs::Writes::gone_over))]
fn go_over(first: u32, from: u16, n: u16, sent: &[u8], track: &mut [u16])
    requires { 0 < n → Lies track.old first n }
    ensures { track.new ≡ gone_over track.old first sent.now from n }
{
    if 0 < n {
        format::lay_area(track, first as usize, usize::from(n), sent, from, n);
    }
}

// Write Data, and Write Key and Data, over areas that lie on the track.
#[tactic(auto, using(crate::proofs::Calls::key_lies, crate::proofs::Calls::data_lies), unfolding(crate::specs::Writes::updated))]
fn update(key: bool, c: u16, n: Counts, sent: &[u8], track: &mut [u16])
    requires { Over track.old key c n }
    ensures { track.new ≡ updated track.old key c n sent.now }
{
    let keyed = u16::from(key_sent(key, n));
    go_over(areas::key_area(c, n).first, 0, keyed, sent, track);
    go_over(areas::data_area(c, n).first, keyed, n.dl, sent, track);
}

// What a write lays that ends in no Unit Check.
#[tactic(auto, using(crate::proofs::Calls::lays))]
pub fn lay(w: Write, j: Job, sent: &[u8], track: &mut Track)
    requires { DoesWrite j w × (is_check (write_turn w (sight (alone track.old) j sent.now)).ending ≡ false) }
    ensures { track.new ≡ lay (write_turn w (sight (alone track.old) j sent.now)).lays track.old }
{
    match w {
        Write::HomeAddress => lay_home(sent, track),
        Write::R0 => {
            let home = cells::byte_at(track, 0);
            lay_r0(areas::flag_of_r0(home), sent, track)
        }
        Write::CountKeyData => lay_after(
            areas::end_by(j.task.place, j.counts),
            areas::flag_after(j.counts.flag),
            sent,
            track,
        ),
        Write::Update(key) => update(key, j.task.place, j.counts, sent, track),
    }
}
