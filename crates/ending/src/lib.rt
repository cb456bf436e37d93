// What is reported at a command's end.
#![tactic(auto)]

ghost use Rattle.std.specs.Prelude.{◌≡◌, List, ℕ};
ghost use Rattle.turn.specs.Turn.{Tracks, report_of};
ghost use Rattle.command.specs.Command.{ending_of, sense_after, position_after, orders_after, sight, fail_turn};
ghost use Rattle.ending.specs.Ending.{report_at, check_report};

use command::{Job, Task};
use held::{Orders, Position};
use rows::{Row, Sense};
use turn::{Ending, Report, Transfer};

// Commands but Sense and No-op clear sense first.
#[tactic(auto, unfolding(command::specs::Command::sense_after))]
fn sense_after(j: Job) -> Sense
    ensures { result ≡ sense_after j }
{
    if j.clears {
        Sense::default()
    } else {
        j.position.sense
    }
}

// Where the head stands after a job that ends at the place of a task. Here and below the two come apart, as in the model's `position_after j k`: Space Record
// and Write Count Key Data end at a task that is not the job's.
#[tactic(auto, unfolding(command::specs::Command::position_after, turn::specs::Turn::position_at))]
pub fn position_after(j: Job, k: Task) -> Position
    ensures { result ≡ position_after j k }
{
    Position {
        head: k.head,
        place: k.place,
        sense: sense_after(j),
        ..j.position
    }
}

// What the next command finds then.
#[tactic(auto, unfolding(command::specs::Command::orders_after, turn::specs::Turn::after, turn::specs::Turn::orders_of))]
pub fn orders_after(j: Job, k: Task, whole: bool) -> Orders
    ensures { result ≡ orders_after j k whole }
{
    Orders {
        before: j.code,
        whole,
        tally: k.tally,
        selection: k.selection,
        ..j.orders
    }
}

// A job ends at the place of a task. Whether its search was equal over the whole field is found after the job is made, so it is no part of it.
#[tactic(auto, unfolding(crate::specs::Ending::report_at))]
pub fn ended_at(j: Job, k: Task, ending: Ending, transfer: Transfer, whole: bool) -> Report
    ensures { result ≡ report_at j k ending transfer whole }
{
    Report {
        ending,
        transfer,
        position: position_after(j, k),
        orders: orders_after(j, k, whole),
    }
}

// A job ends at its own place.
pub fn ended(j: Job, ending: Ending, transfer: Transfer, whole: bool) -> Report
    ensures { result ≡ report_at j j.task ending transfer whole }
{
    ended_at(j, j.task, ending, transfer, whole)
}

// DL = 0 is Unit Exception, where the row says so.
#[tactic(auto, using(cells::proofs::Tests::tests), unfolding(command::specs::Command::ending_of))]
pub fn ending_of(j: Job) -> Ending
    ensures { result ≡ ending_of j }
{
    if j.excepts && j.counts.dl == 0 {
        return Ending::Exception;
    }
    Ending::Normal
}

// Unit Check for a row of the table. Position and orders stand apart, as in the model's `check_report s o row`: the clause would take a struct of both apart.
#[tactic(auto, unfolding(crate::specs::Ending::check_report, turn::specs::Turn::with_sense, turn::specs::Turn::position_at))]
pub fn failed(s: Position, o: Orders, row: Row) -> Report
    ensures { result ≡ check_report s o row }
{
    Report {
        ending: Ending::Check(row),
        transfer: Transfer::Takes(rows::row_takes(row)),
        position: Position {
            sense: rows::sense_of(row),
            ..s
        },
        orders: o,
    }
}

// Unit Check of a job.
#[tactic(auto, using(crate::proofs::Laws::job_failed))]
pub fn fails(j: Job, row: Row) -> Report
    ensures { (t : Tracks) (v : List ℕ) → result ≡ report_of (fail_turn (sight t j v) row) }
{
    failed(j.position, j.orders, row)
}
