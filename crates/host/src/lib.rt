// What a host calls: start, and go.
#![tactic(auto)]

ghost use Rattle.std.specs.Prelude.{◌≡◌, List, ℕ, ◌≤◌, length, false};
ghost use Rattle.cells.specs.Cells.{pick, marks};
ghost use Rattle.words.specs.Words.{begun_by, tested};
ghost use Rattle.pack.specs.Pack.{WholePack};
ghost use Rattle.channel.specs.Channel.{world};
ghost use Rattle.chain.specs.Step.{least_storage, storage_fits, position_fits, channel_fits, selection_fits, orders_fit, held_fits};
ghost use Rattle.host.specs.Host.{hears, guard_sizes, guard_of, wrong_held, refuses_start, beginning, first_word, begins, started, starts, goes, answer_no};

use held::{Channel, Held, Orders, Position};
use hunt::Spot;
use pack::Shape;
use words::Directive;

// Refusal 2's limits, and 4's on key, next address and tally.
const LEAST_STORAGE: usize = 80;

const MOST_STORAGE: usize = 16777216;

const KEYS: u8 = 16;

// The status word's bytes of unit and channel status.
const STATUS_UNIT: usize = 68;

const STATUS_CHANNEL: usize = 69;

// With document 01's numbers. C is told one number for good ends and refusals alike, so they are one enum.
#[derive(Clone, Copy)]
pub enum Answer {
    ChainEnded = 0,
    AllowanceUsed = 1,
    BadStorage = 2,
    BadPack = 3,
    BadHeld = 4,
    BadStart = 5,
    NoChain = 6,
    ChainGoing = 7,
}

// An answer, and what the box holds then.
#[derive(Clone, Copy)]
pub struct Heard {
    pub answer: Answer,
    pub held: Held,
}

// Document 01's number of an answer.
pub fn number_of(a: Answer) -> u8
    ensures { result ≡ answer_no a }
{
    a as u8
}

fn storage_fits(n: usize) -> bool
    ensures { result ≡ storage_fits n }
{
    LEAST_STORAGE <= n && n <= MOST_STORAGE
}

fn position_fits(g: Shape, s: Position) -> bool
    ensures { result ≡ position_fits g s }
{
    let cylinder = u32::from(s.cylinder.0);
    cylinder < g.cylinders && (u32::from(s.head.0) < g.heads && s.place <= cells::TRACK_END)
}

fn channel_fits(c: Channel) -> bool
    ensures { result ≡ channel_fits c }
{
    c.key < KEYS && c.next < words::ADDRESSES
}

// R0 and a marker are told apart here: in a function of its own their tag and cell were read as one number, with a byte that nothing sets (DECISIONS 71).
fn selection_fits(track: &[u16], o: Orders, x: Option<Spot>) -> bool
    ensures { result ≡ selection_fits (marks track.now) o x }
{
    match x {
        None => !table::rule_of(o.before).selects,
        Some(spot) => match spot {
            Spot::R0 => true,
            Spot::Marker(p) => hunt::is_marker(track, p),
        },
    }
}

fn orders_fit(track: &[u16], o: Orders) -> bool
    ensures { result ≡ orders_fit (marks track.now) o }
{
    let selection = o.selection;
    table::is_mask(o.mask) && (o.tally <= task::MOST_TALLY && selection_fits(track, o, selection))
}

// Refusal 4. It looks at one track at most.
// The fields of the held state are locals here: passed as they stand in it, they kept it in memory all through a go, and words took longer.
fn held_fits(g: Shape, h: Held, cells: &[u16]) -> bool
    requires { WholePack g cells.now }
    ensures { (s : List ℕ) → result ≡ held_fits g (world h s cells.now) }
{
    let position = h.position;
    if !position_fits(g, position) {
        return false;
    }
    let channel = h.channel;
    if !channel_fits(channel) {
        return false;
    }
    let orders = h.orders;
    let cylinder = position.cylinder;
    let head = position.head;
    let start = pack::start_of(g, cylinder, head);
    orders_fit(&cells[start..start + cells::TRACK_CELLS], orders)
}

// Refusals 2 and 3, in order. Here and below the numbers are of what is lent, of which a shape knows nothing, so they stay beside it.
fn sizes_fit(g: Shape, storage: usize, count: usize) -> Result<(), Answer>
    ensures { result ≡ guard_sizes g storage count }
{
    if !storage_fits(storage) {
        return Err(Answer::BadStorage);
    }
    if !pack::pack_fits(g, count) {
        return Err(Answer::BadPack);
    }
    Ok(())
}

// What bytes that encode no held state are answered: 4, after 2 and 3.
pub fn wrong_held(g: Shape, storage: usize, count: usize) -> Answer
    ensures { result ≡ wrong_held g storage count }
{
    match sizes_fit(g, storage, count) {
        Err(answer) => answer,
        Ok(()) => Answer::BadHeld,
    }
}

// Refusals 2, 3 and 4, in order.
fn guard(g: Shape, h: Held, storage: &[u8], cells: &[u16]) -> Result<(), Answer>
    ensures { result ≡ guard_of g (world h storage.now cells.now) }
{
    sizes_fit(g, storage.len(), cells.len())?;
    if !held_fits(g, h, cells) {
        return Err(Answer::BadHeld);
    }
    Ok(())
}

// Answer 5.
fn refuse(h: Held, storage: &mut [u8]) -> Heard
    requires { least_storage ≤ length storage.old }
    ensures { (c : List ℕ) → hears result.answer (world result.held storage.new c) ≡ refuses_start (world h storage.old c) }
{
    storage[STATUS_UNIT] = 0x00;
    storage[STATUS_CHANNEL] = words::PROGRAM_CHECK;
    Heard {
        answer: Answer::BadStart,
        held: h,
    }
}

fn begun(h: Held, key: u8, next: u32) -> Held
    ensures { result ≡ beginning h key next }
{
    let channel = Channel {
        going: true,
        key,
        next,
        after_tic: false,
    };
    Held {
        position: h.position,
        channel,
        ..Held::fresh()
    }
}

// What is held once the chain has begun, if its first word is one to obey.
fn first_word(h: Held, key: u8, next: u32, storage: &[u8]) -> Option<Held>
    ensures { (c : List ℕ) → started (world h storage.now c) result
        ≡ first_word (world h storage.now c) key next (tested storage.now next false) }
{
    let Ok(Directive::Obey(_)) = words::test(storage, next, false) else {
        return None;
    };
    Some(begun(h, key, next))
}

// The same, if the address word is good too.
fn begin(h: Held, storage: &[u8]) -> Option<Held>
    ensures { (c : List ℕ) → started (world h storage.now c) result
        ≡ begins (world h storage.now c) (begun_by storage.now) }
{
    let (key, first) = words::address_word(storage)?;
    first_word(h, key, words::advanced(first, 0), storage)
}

// Starts a chain: its first word is tested, and nothing runs.
pub fn start(g: Shape, h: Held, storage: &mut [u8], cells: &[u16]) -> Heard
    ensures { hears result.answer (world result.held storage.new cells.now)
        ≡ starts g (world h storage.old cells.now) }
{
    if let Err(answer) = guard(g, h, storage, cells) {
        return Heard { answer, held: h };
    }
    if h.channel.going {
        return Heard {
            answer: Answer::ChainGoing,
            held: h,
        };
    }
    match begin(h, storage) {
        Some(held) => Heard {
            answer: Answer::AllowanceUsed,
            held,
        },
        None => refuse(h, storage),
    }
}

fn told(h: Held) -> Heard
    ensures { (result.answer ≡ pick h.channel.going Answer.AllowanceUsed Answer.ChainEnded) × (result.held ≡ h) }
{
    if h.channel.going {
        return Heard {
            answer: Answer::AllowanceUsed,
            held: h,
        };
    }
    Heard {
        answer: Answer::ChainEnded,
        held: h,
    }
}

// Goes on with a chain, for at most so many command words.
pub fn go(g: Shape, h: Held, storage: &mut [u8], cells: &mut [u16], allowance: u16) -> Heard
    ensures { hears result.answer (world result.held storage.new cells.new)
        ≡ goes g allowance (world h storage.old cells.old) }
{
    if let Err(answer) = guard(g, h, storage, cells) {
        return Heard { answer, held: h };
    }
    if !h.channel.going {
        return Heard {
            answer: Answer::NoChain,
            held: h,
        };
    }
    told(chain::run(g, h, storage, cells, allowance))
}
