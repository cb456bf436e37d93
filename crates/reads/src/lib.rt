// The reads: how they end, and the bytes that they give.
#![tactic(auto)]

ghost use Rattle.std.specs.Prelude.{◌≡◌, List, false, ℕ, ◌≤◌, length};
ghost use Rattle.cells.specs.Cells.{pick, part, bytes_of};
ghost use Rattle.turn.specs.Turn.{alone, filled, given};
ghost use Rattle.command.specs.Command.{Sighted, sight, ending_of, read_turn};
ghost use Rattle.ending.specs.Ending.{report_at};
ghost use Rattle.reads.specs.Inside.{LieIf, LieAll, Puts, record_given, many_given};

use areas::Counts;
use cells::Byte;
use command::Job;
use table::Names;
use turn::{Report, Transfer};

// The bytes of a home address without its check, in this type here.
const HOME_BYTES: u16 = 5;

// A count's flag does not move, the bytes behind it do.
const FLAG: u32 = 1;

// Where the next byte goes, and how many bytes are left out before it. The lent bytes go beside it: with them in it, each part would have to take
// them out and give back what is left of them.
#[derive(Clone, Copy)]
struct Filling {
    at: usize,
    from: usize,
}

// Which parts of a record are given: its count's bytes, its key, its data. No flag has a value beside it, and `record_given` of the model asks for each.
#[derive(Clone, Copy)]
struct Parts {
    counted: bool,
    key: bool,
    body: bool,
}

// How many bytes of a part move, if it is named.
fn bytes_if(named: bool, n: u16) -> u16
    ensures { result ≡ pick named n 0 }
{
    if named { n } else { 0 }
}

// So many cells of the track from one on. Where there are none, that one may lie behind the track.
#[tactic(auto, unfolding(cells::specs::Cells::part))]
fn cells_at(track: &[u16], first: u32, n: u16) -> &[u16]
    requires { LieIf track.now first n }
    ensures { result.now ≡ part track.now first n }
{
    if n == 0 {
        return &[];
    }
    let first = first as usize;
    &track[first..first + usize::from(n)]
}

// The bytes of as many cells. `record_given` of recording makes cells of bytes: one function for both would take the step as a closure, and its clause too.
#[tactic(auto, using(crate::proofs::Laws::bytes_more, crate::proofs::Laws::bytes_all))]
fn put_cells(cells: &[u16], into: &mut [u8])
    requires { length cells.now ≡ length into.old }
    ensures { into.new ≡ bytes_of cells.now }
{
    // Over both at once, by zip, the proof doesn't close: of what iter_mut lends there it knows the length alone.
    for (i, byte) in into.iter_mut().enumerate() {
        *byte = cells[i].byte();
    }
}

// The bytes of cells, but those left out, as many as find room.
fn put(cells: &[u16], r: Filling, into: &mut [u8]) -> Filling
    requires { r.at ≤ length into.old }
    ensures { Puts into.old r (bytes_of cells.now) into.new result }
{
    let at = r.at;
    let skip = r.from.min(cells.len());
    let m = (cells.len() - skip).min(into.len() - at);
    put_cells(&cells[skip..skip + m], &mut into[at..at + m]);
    Filling {
        at: at + m,
        from: r.from - skip,
    }
}

// The bytes of a record: of its count, its key and its data those that are named. `areas` counts cells from the track's start, so the track goes whole.
fn put_record(p: Parts, c: u16, n: Counts, track: &[u16], r: Filling, into: &mut [u8]) -> Filling
    requires { LieAll track.now p c n × (r.at ≤ length into.old) }
    ensures { Puts into.old r (record_given track.now p c n) into.new result }
{
    let count = cells_at(
        track,
        u32::from(c) + FLAG,
        bytes_if(p.counted, format::COUNT_SENT),
    );
    let counted = put(count, r, into);
    let keys = areas::key_area(c, n);
    let key = cells_at(track, keys.first, bytes_if(p.key, u16::from(n.kl)));
    let keyed = put(key, counted, into);
    let data = areas::data_area(c, n);
    let body = cells_at(track, data.first, bytes_if(p.body, n.dl));
    put(body, keyed, into)
}

// The bytes that a read gives, from one on, as many as find room: the number counts them and not the lent ones, so it goes beside these. Each arm gives other
// cells, so a match says it shortest. `Sighted` is of two values, job and track, so it stays a requires.
pub fn give(counted: bool, j: Job, track: &[u16], from: u32, into: &mut [u8])
    requires { Sighted (alone track.now) j }
    ensures { (v : List ℕ) → into.new
        ≡ filled into.old from (given (read_turn counted (sight (alone track.now) j v)).moves) }
{
    let r = Filling {
        at: 0,
        from: from as usize,
    };
    let names = j.names;
    match names {
        Names::Nothing => {}
        Names::HomeAddress => {
            put(cells_at(track, 0, HOME_BYTES), r, into);
        }
        Names::Count(key, body) => {
            let p = Parts { counted, key, body };
            put_record(p, j.task.place, j.counts, track, r, into);
        }
    }
}

// How many bytes those are.
#[tactic(auto, unfolding(crate::specs::Inside::many_given))]
fn many_given(counted: bool, names: Names, n: Counts) -> u32
    ensures { result ≡ many_given counted names n }
{
    match names {
        Names::Nothing => 0,
        Names::HomeAddress => u32::from(HOME_BYTES),
        Names::Count(key, body) => {
            let count = u32::from(bytes_if(counted, format::COUNT_SENT));
            let keys = u32::from(bytes_if(key, u16::from(n.kl)));
            count + keys + u32::from(bytes_if(body, n.dl))
        }
    }
}

// A read that has read all that it names.
pub fn read(counted: bool, j: Job) -> Report
    ensures { result ≡ report_at j j.task (ending_of j) (Transfer.Gives (many_given counted j.names j.counts)) false }
{
    let end = ending::ending_of(j);
    let names = j.names;
    let n = many_given(counted, names, j.counts);
    ending::ended(j, end, Transfer::Gives(n), false)
}
