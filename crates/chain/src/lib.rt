// A chain: one command word after another.
#![tactic(auto)]

ghost use Rattle.std.specs.Prelude.{◌≡◌, true, false, ℕ, ◌<◌, ◌≤◌};
ghost use Rattle.words.specs.Words.{AreaFits, tested};
ghost use Rattle.channel.specs.Channel.{world, obeyed_on};
ghost use Rattle.channel.specs.Inside.{CanObey};
ghost use Rattle.chain.specs.Step.{obeyed, step, run, Legal};
ghost use Rattle.chain.specs.Stroke.{chained_no_op, tested_chained_no_op, after_no_ops, SameRun};

use held::{Channel, Held, Orders};
use pack::Shape;
use words::{Directive, Word};

const NO_OP: u8 = 0x03;

// The cells of one track, as one: the channel is lent no other number of them.
fn obey(g: Shape, h: Held, w: Word, storage: &mut [u8], cells: &mut [u16]) -> Held
    requires { CanObey h w storage.old cells.old }
    ensures { world result storage.new cells.new ≡ obeyed_on g (world h storage.old cells.old) w }
{
    let Some(track) = cells.as_mut_array() else {
        unreachable!()
    };
    channel::obey(g, h, w, storage, track)
}

// A command has its turn on the track under the head, whose cells are lent on.
fn command(g: Shape, h: Held, w: Word, storage: &mut [u8], cells: &mut [u16]) -> Held
    requires { Legal g (world h storage.old cells.old) × AreaFits storage.old w }
    ensures { world result storage.new cells.new ≡ obeyed g (world h storage.old cells.old) w }
{
    let start = pack::start_of(g, h.position.cylinder, h.position.head);
    let end = start + cells::TRACK_CELLS;
    obey(g, h, w, storage, &mut cells[start..end])
}

// One command word. That all is legal stays a requires from here on: it is of shape, held state, storage and cells together, each of which a call
// takes or changes apart from the rest. Each arm is lent other things, so a match says it shortest.
pub fn step(g: Shape, h: Held, storage: &mut [u8], cells: &mut [u16]) -> Held
    requires { Legal g (world h storage.old cells.old) }
    ensures { world result storage.new cells.new ≡ step g (world h storage.old cells.old) }
{
    match words::test(storage, h.channel.next, h.channel.after_tic) {
        Ok(Directive::Obey(w)) => command(g, h, w, storage, cells),
        Ok(Directive::Jump(a)) => channel::jump(h, a),
        Err(cause) => channel::stop(h, cause, storage),
    }
}

// What is held after some command words, and what is left of the allowance.
#[derive(Clone, Copy)]
struct Reached {
    held: Held,
    left: u16,
}

// Whether a word is a No-op that chains. A code is a byte, of which all 256 may stand in a word.
fn is_chained_no_op(w: Word) -> bool
    ensures { result ≡ chained_no_op w }
{
    w.code == NO_OP && w.flags / words::CHAINS % 2 == 1
}

// Whether the word at an address is one.
fn is_chained_no_op_at(storage: &[u8], at: u32) -> bool
    ensures { result ≡ tested_chained_no_op (tested storage.now at false) }
{
    let Ok(Directive::Obey(w)) = words::test(storage, at, false) else {
        return false;
    };
    is_chained_no_op(w)
}

fn after_no_ops(h: Held, next: u32) -> Held
    ensures { result ≡ after_no_ops h next }
{
    let orders = Orders {
        before: NO_OP,
        whole: false,
        tally: 0,
        selection: None,
        ..h.orders
    };
    let channel = Channel {
        next,
        after_tic: false,
        ..h.channel
    };
    Held {
        orders,
        channel,
        ..h
    }
}

// A run of No-ops that chain, in one stroke: they need no track.
fn pass_no_ops(h: Held, storage: &[u8], allowance: u16) -> Reached
    requires { (0 < allowance) × (h.channel.going ≡ true) × (tested_chained_no_op (tested storage.now h.channel.next false) ≡ true) }
    ensures { SameRun storage.now h allowance result.held result.left × (result.left < allowance) }
{
    let mut next = words::advanced(h.channel.next, words::WORD);
    for passed in 1..allowance {
        if !is_chained_no_op_at(storage, next) {
            return Reached {
                held: after_no_ops(h, next),
                left: allowance - passed,
            };
        }
        next = words::advanced(next, words::WORD);
    }
    Reached {
        held: after_no_ops(h, next),
        left: 0,
    }
}

// The next command word of a chain that is going, or a run of No-ops.
fn advance(g: Shape, h: Held, storage: &mut [u8], cells: &mut [u16], left: u16) -> Reached
    requires { Legal g (world h storage.old cells.old) × (0 < left) × (h.channel.going ≡ true) }
    ensures { (run g left (world h storage.old cells.old)
        ≡ run g result.left (world result.held storage.new cells.new))
        × Legal g (world result.held storage.new cells.new) × (result.left < left) }
{
    if is_chained_no_op_at(storage, h.channel.next) {
        return pass_no_ops(h, storage, left);
    }
    let held = step(g, h, storage, cells);
    Reached {
        held,
        left: left - 1,
    }
}

// An allowance of command words.
pub fn run(g: Shape, h: Held, storage: &mut [u8], cells: &mut [u16], allowance: u16) -> Held
    requires { Legal g (world h storage.old cells.old) }
    ensures { world result storage.new cells.new ≡ run g allowance (world h storage.old cells.old) }
{
    let mut held = h;
    let mut left = allowance;
    while 0 < left {
        if !held.channel.going {
            return held;
        }
        let reached = advance(g, held, storage, cells, left);
        held = reached.held;
        left = reached.left;
    }
    held
}
