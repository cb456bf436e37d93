// The unit: what a command comes to before it acts, what it then tells, gives and lays. It is lent one track, the bytes sent, and room for bytes.
#![tactic(auto)]

ghost use Rattle.std.specs.Prelude.{◌≡◌, List, ℕ, Ok};
ghost use Rattle.cells.specs.Cells.{marks};
ghost use Rattle.command.specs.Command.{SelectedOn, Sighted, sight, control_turn, ready_by, ready_of};
ghost use Rattle.turn.specs.Turn.{Tracks, alone, filled, given, report_of, lay};
ghost use Rattle.unit.specs.Unit.{job_turn, Accepts};

use cells::Track;
use command::{Job, Task};
use held::{Orders, Position};
use pack::Shape;
use rows::Row;
use table::{Act, Control, Rule};
use turn::Report;

// All that a task names is read. Position and orders stand apart here and below, as in the model's `ready_by t code r s o`: each clause would take a struct
// of both apart.
fn read(code: u8, r: Rule, s: Position, o: Orders, k: Task, track: &[u16]) -> Result<Job, Row>
    ensures { result ≡ ready_by (alone track.now) code r s o (Ok k) }
{
    let act = r.act;
    let names = r.names;
    let counts = sight::get(track, names, k.place)?;
    Ok(Job {
        code,
        act,
        names,
        excepts: r.excepts,
        clears: r.clears,
        position: s,
        orders: o,
        task: k,
        counts,
    })
}

// What a command comes to on the track under the head: a row of the Unit Check table, or a job.
pub fn ready(code: u8, track: &Track, s: Position, o: Orders) -> Result<Job, Row>
    requires { SelectedOn (marks track.now) o.selection }
    ensures { result ≡ ready_of (alone track.now) s o code }
{
    let rule = table::rule_of(code);
    let k = task::plan(rule, track, s, o)?;
    read(code, rule, s, o, k, track)
}

// What a job reports. That its areas are readable on the track (`Sighted`) stays a requires: it is of two values, and the track is changed without the job.
// Each act has arguments of its own, so a table of functions would be no plainer; so in `give`.
pub fn ask(g: Shape, j: Job, sent: &[u8], track: &Track) -> Report
    requires { Sighted (alone track.now) j }
    ensures { result ≡ report_of (job_turn g track.now j sent.now) }
{
    let act = j.act;
    match act {
        Act::Control(k) => controls::control(g, k, j, sent, track),
        Act::Search(h) => searches::search(h, j, sent, track),
        Act::Read(counted) => reads::read(counted, j),
        Act::Write(w) => writes::write(w, j, sent, track),
    }
}

// The bytes that a control command gives: those of Sense. Here and below the number counts bytes that are given, not the lent ones, so it goes beside them.
fn give_control(k: Control, j: Job, from: u32, into: &mut [u8])
    ensures { (g : Shape) (t : Tracks) (v : List ℕ) → into.new
        ≡ filled into.old from (given (control_turn g k (sight t j v)).moves) }
{
    if let Control::Sense = k {
        controls::give_sense(j.position, from, into);
    }
}

// The bytes that a job gives, from one on, as many as find room.
pub fn give(j: Job, track: &[u16], from: u32, into: &mut [u8])
    requires { Sighted (alone track.now) j }
    ensures { (g : Shape) (v : List ℕ) → into.new
        ≡ filled into.old from (given (job_turn g track.now j v).moves) }
{
    let act = j.act;
    match act {
        Act::Control(k) => give_control(k, j, from, into),
        Act::Read(counted) => reads::give(counted, j, track, from, into),
        Act::Search(_) | Act::Write(_) => {}
    }
}

// The cells that a job lays, if it does not end in Unit Check.
pub fn lay(j: Job, sent: &[u8], track: &mut Track)
    requires { Sighted (alone track.old) j × Accepts j sent.now track.old }
    ensures { (g : Shape) → track.new ≡ lay (job_turn g track.old j sent.now).lays track.old }
{
    if let Act::Write(w) = j.act {
        writes::lay(w, j, sent, track);
    }
}
