// The control commands.
#![tactic(auto)]

ghost use Rattle.std.specs.Prelude.{◌≡◌, List, ℕ, get_or};
ghost use Rattle.turn.specs.Turn.{Tracks, alone, report_of, filled};
ghost use Rattle.command.specs.Command.{sight, sense_bytes, addressed, arrival_turn, masked_turn, mask_turn, space_turn, control_turn};

use cells::Track;
use command::{Job, Task};
use held::{Orders, Position};
use pack::{Cylinder, Head, Shape};
use rows::{Row, Sense};
use table::{Control, Seeking};
use turn::{Ending, Report, Transfer};

// The bytes that Sense gives.
const SENSE: u32 = 6;

// The bytes that a seek takes, BB CC HH, and that Set File Mask takes.
const SEEK: u32 = 6;

const MASK: u32 = 1;

// Where a seek goes by the six bytes sent. Fewer are a bad seek. The two calls have arguments of their own, so a function for either is no plainer.
#[tactic(auto, using(cells::proofs::Tests::tests), unfolding(command::specs::Command::addressed, command::specs::Command::sought_by))]
fn addressed(g: Shape, k: Seeking, c: Cylinder, sent: &[u8]) -> Result<(Cylinder, Head), Row>
    ensures { result ≡ addressed g k c sent.now }
{
    let &[b0, b1, c0, c1, h0, h1, ..] = sent else {
        return Err(Row::BadSeek);
    };
    let bb = u16::from_be_bytes([b0, b1]);
    let cylinder = Cylinder(u16::from_be_bytes([c0, c1]));
    let head = Head(u16::from_be_bytes([h0, h1]));
    match k {
        Seeking::Seek | Seeking::SeekCylinder => pack::seek_to(g, bb, cylinder, head),
        Seeking::SeekHead => pack::seek_head(g, c, head),
    }
}

// The orders come before the match: taken in its arm, they kept the whole job in memory, and every command paid (DECISIONS 97).
#[tactic(auto, using(crate::proofs::Laws::arrivals))]
fn arrives(j: Job, x: Result<(Cylinder, Head), Row>) -> Report
    ensures { (t : Tracks) (v : List ℕ) → result ≡ report_of (arrival_turn (sight t j v) x) }
{
    let orders = ending::orders_after(j, j.task, false);
    match x {
        Ok((cylinder, head)) => Report {
            ending: Ending::Normal,
            transfer: Transfer::Takes(SEEK),
            position: Position {
                cylinder,
                head,
                place: 0,
                sense: Sense::default(),
            },
            orders,
        },
        Err(row) => ending::fails(j, row),
    }
}

#[tactic(auto, using(crate::proofs::Laws::masked_told), unfolding(turn::specs::Turn::orders_of))]
fn masked(j: Job, byte: u8) -> Report
    ensures { (t : Tracks) (v : List ℕ) → result ≡ report_of (masked_turn (sight t j v) byte) }
{
    Report {
        ending: Ending::Normal,
        transfer: Transfer::Takes(MASK),
        position: ending::position_after(j, j.task),
        orders: Orders {
            mask: byte,
            mask_set: true,
            before: j.code,
            whole: false,
            tally: 0,
            selection: None,
        },
    }
}

// A bad byte is told before a second mask.
#[tactic(auto, using(crate::proofs::Laws::picked), unfolding(command::specs::Command::mask_turn, command::specs::Command::sight))]
fn set_mask(j: Job, byte: u8) -> Report
    ensures { (t : Tracks) (v : List ℕ) → result ≡ report_of (mask_turn (sight t j v) byte) }
{
    if !table::is_mask(byte) {
        return ending::fails(j, Row::BadMask);
    }
    if j.orders.mask_set {
        return ending::fails(j, Row::SecondMask);
    }
    masked(j, byte)
}

#[tactic(auto, using(hunt::proofs::Inside::space_in, crate::proofs::Laws::spaced))]
fn space(j: Job, track: &Track) -> Report
    ensures { (v : List ℕ) → result ≡ report_of (space_turn (sight (alone track.now) j v)) }
{
    let before = table::rule_of(j.orders.before);
    let home = table::is_home(before.aim);
    // It lies on the track: `try_from` would add an error that cannot come.
    let place = hunt::space_record(track, j.position.place, home) as u16;
    let task = Task {
        place,
        selection: None,
        tally: 0,
        ..j.task
    };
    ending::ended_at(j, task, Ending::Normal, Transfer::None, false)
}

// What a control command reports. Each arm has arguments of its own, so a table of functions would be no plainer.
#[tactic(auto, using(crate::proofs::Laws::tells))]
pub fn control(g: Shape, k: Control, j: Job, sent: &[u8], track: &Track) -> Report
    ensures { result ≡ report_of (control_turn g k (sight (alone track.now) j sent.now)) }
{
    match k {
        Control::Unknown => ending::fails(j, Row::UnknownCode),
        Control::NoOp => ending::ended(j, Ending::Normal, Transfer::None, false),
        Control::Sense => ending::ended(j, Ending::Normal, Transfer::Gives(SENSE), false),
        Control::Seek(s) => arrives(j, addressed(g, s, j.position.cylinder, sent)),
        Control::SetMask => set_mask(j, cells::byte_at(sent, 0)),
        Control::SpaceRecord => space(j, track),
    }
}

// Byte i of what Sense gives.
fn sense_byte(s: Position, i: usize) -> u8
    ensures { result ≡ get_or (sense_bytes s) i 0 }
{
    match i {
        0 => s.sense.byte0,
        1 => s.sense.byte1,
        _ => 0,
    }
}

// The bytes that Sense gives, from one on, put into lent bytes, as many as find room. The number counts bytes of Sense, not the lent ones, so it goes beside
// them. One byte after another: of a copy of so many the compiler makes a call of memcpy, which a host would have to bring.
pub fn give_sense(s: Position, from: u32, into: &mut [u8])
    ensures { into.new ≡ filled into.old from (sense_bytes s) }
{
    let first = from as usize;
    let n = into.len().min(SENSE.saturating_sub(from) as usize);
    for i in 0..n {
        into[i] = sense_byte(s, first + i);
    }
}
