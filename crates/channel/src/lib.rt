// The channel about a command.
#![tactic(auto)]

ghost use Rattle.std.specs.Prelude.{◌≡◌, ◌+◌, ◌<◌, ◌≤◌, length};
ghost use Rattle.cells.specs.Cells.{marks};
ghost use Rattle.turn.specs.Turn.{alone, wants, is_check};
ghost use Rattle.words.specs.Words.{status_at, word_bytes, stored, program_check};
ghost use Rattle.held.specs.Held.{rested};
ghost use Rattle.command.specs.Command.{SelectedOn, Sighted, command};
ghost use Rattle.unit.specs.Unit.{job_turn};
ghost use Rattle.channel.specs.Channel.{unit_status, ends_well, stride, onward, bytes_moved, moves_any, length_counts, wrong_length, goes_on, held_after, status_after, with_status, world, jumped, obeyed_on};
ghost use Rattle.channel.specs.Inside.{Acted, CanObey};

use cells::Track;
use command::Job;
use held::{Channel, Held};
use pack::Shape;
use turn::{Ending, Report, Transfer};
use words::{Cause, Status, Word};

// Unit status, and channel status.
const NORMAL: u8 = 0x0C;

const SATISFIED: u8 = 0x4C;

const EXCEPTION: u8 = 0x0D;

const CHECK: u8 = 0x0E;

const WRONG_LENGTH: u8 = 0x40;

// The byte itself is what storage gets: the match is the table of REFERENCE 7.8.
fn unit_status(e: Ending) -> u8
    ensures { result ≡ unit_status e }
{
    match e {
        Ending::Normal => NORMAL,
        Ending::Satisfied => SATISFIED,
        Ending::Exception => EXCEPTION,
        Ending::Check(_) => CHECK,
    }
}

// Each test here and below is one pattern over variants, of which some have a payload: equality would be no shorter, and a function for two of the tests
// would take a closure with the same pattern in it.
fn ends_well(e: Ending) -> bool
    ensures { result ≡ ends_well e }
{
    matches!(e, Ending::Normal | Ending::Satisfied)
}

// Past the next word too, where a search was satisfied.
fn stride(e: Ending) -> u32
    ensures { result ≡ stride e }
{
    match e {
        Ending::Satisfied => 2 * words::WORD,
        _ => words::WORD,
    }
}

fn is_check(e: Ending) -> bool
    ensures { result ≡ is_check e }
{
    matches!(e, Ending::Check(_))
}

// How many bytes the device wants, in either direction.
fn wants(m: Transfer) -> u32
    ensures { result ≡ wants m }
{
    match m {
        Transfer::None => 0,
        Transfer::Gives(n) => n,
        Transfer::Takes(n) => n,
    }
}

// Word and report stay two, here and below, as in `held_after` and `status_after` of the model: each clause would take a struct of both apart.
fn bytes_moved(w: Word, d: Report) -> u16
    ensures { result ≡ bytes_moved w d }
{
    // At most the count: the cast loses no bits.
    u32::from(w.count).min(wants(d.transfer)) as u16
}

fn moves_any(m: Transfer) -> bool
    ensures { result ≡ moves_any m }
{
    !matches!(m, Transfer::None)
}

fn length_counts(d: Report) -> bool
    ensures { result ≡ length_counts d }
{
    moves_any(d.transfer) && !is_check(d.ending)
}

// Whether a command is of incorrect length, and flag 20 is off.
fn wrong_length(w: Word, d: Report) -> bool
    ensures { result ≡ wrong_length w d }
{
    length_counts(d)
        && (w.flags / words::SUPPRESSES % 2 != 1 && wants(d.transfer) != u32::from(w.count))
}

fn goes_on(w: Word, d: Report) -> bool
    ensures { result ≡ goes_on w d }
{
    w.flags / words::CHAINS % 2 == 1 && (!wrong_length(w, d) && ends_well(d.ending))
}

// The next word, so many bytes on.
fn onward(c: Channel, n: u32) -> Channel
    ensures { result ≡ onward c n }
{
    Channel {
        next: words::advanced(c.next, n),
        after_tic: false,
        ..c
    }
}

fn status_after(c: Channel, w: Word, d: Report) -> Status
    ensures { result ≡ status_after c w d }
{
    let channel = if wrong_length(w, d) { WRONG_LENGTH } else { 0 };
    words::status_for(
        c.key,
        c.next,
        unit_status(d.ending),
        channel,
        w.count - bytes_moved(w, d),
    )
}

// The end of a command: the chain goes on, or its status word is stored and it is at its end.
fn settle(c: Channel, w: Word, d: Report, storage: &mut [u8]) -> Held
    requires { (status_at + word_bytes ≤ length storage.old) × (c.key < 16) }
    ensures { (result ≡ held_after c w d) × (storage.new ≡ with_status c w d storage.old) }
{
    if goes_on(w, d) {
        return Held {
            position: d.position,
            orders: d.orders,
            channel: onward(c, stride(d.ending)),
        };
    }
    words::store_status(storage, status_after(c, w, d));
    Held::rested(d.position)
}

// A job is asked; then it gives its bytes, or lays what it took, unless it ends in Unit Check. To give reads the track and to lay changes it, so a match says
// it shortest. `Sighted` is of two values, job and track, so it stays a requires.
fn act(g: Shape, j: Job, area: &mut [u8], track: &mut Track) -> Report
    requires { Sighted (alone track.old) j }
    ensures { Acted (job_turn g track.old j area.old) area.old track.old
        area.new track.new result }
{
    let d = unit::ask(g, j, area, track);
    match d.transfer {
        Transfer::None => {}
        Transfer::Gives(_) => unit::give(j, track, 0, area),
        Transfer::Takes(_) => {
            if is_check(d.ending) {
                return d;
            }
            unit::lay(j, area, track);
        }
    }
    d
}

// A command has its turn on a track, with the area of storage that its word names. A row or a job: as two closures they would say no more than these arms.
fn turn(g: Shape, h: Held, code: u8, area: &mut [u8], track: &mut Track) -> Report
    requires { SelectedOn (marks track.old) h.orders.selection }
    ensures { Acted (command g (alone track.old) h.position h.orders code area.old) area.old track.old
        area.new track.new result }
{
    match unit::ready(code, track, h.position, h.orders) {
        Err(row) => ending::failed(h.position, h.orders, row),
        Ok(j) => act(g, j, area, track),
    }
}

// A TIC: the next word is at its address.
pub fn jump(h: Held, a: u32) -> Held
    ensures { result ≡ jumped h a }
{
    let channel = Channel {
        next: words::advanced(a, 0),
        after_tic: true,
        ..h.channel
    };
    Held { channel, ..h }
}

// A program check: its status word is stored, and the chain is at its end.
pub fn stop(h: Held, cause: Cause, storage: &mut [u8]) -> Held
    requires { (status_at + word_bytes ≤ length storage.old) × (h.channel.key < 16) }
    ensures { (result ≡ rested h.position)
        × (storage.new ≡ stored storage.old (program_check h.channel.key h.channel.next cause)) }
{
    let status = words::program_check(h.channel.key, h.channel.next, cause);
    words::store_status(storage, status);
    Held::rested(h.position)
}

// A word to obey: its command has its turn on the track under the head, and the channel ends it.
pub fn obey(g: Shape, h: Held, w: Word, storage: &mut [u8], track: &mut Track) -> Held
    requires { CanObey h w storage.old track.old }
    ensures { world result storage.new track.new ≡ obeyed_on g (world h storage.old track.old) w }
{
    let at = w.address as usize;
    let end = at + usize::from(w.count);
    let d = turn(g, h, w.code, &mut storage[at..end], track);
    settle(h.channel, w, d, storage)
}
