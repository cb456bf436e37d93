// What a command finds out before it acts.
#![tactic(auto)]

use areas::Counts;
use held::{Orders, Position};
use hunt::Spot;
use pack::Head;
use table::{Act, Names};

// Where a command works: the head; the place after its work, which for a record is the first cell of its count area; what it leaves selected; the index
// tally.
#[derive(Clone, Copy)]
pub struct Task {
    pub head: Head,
    pub place: u16,
    pub selection: Option<Spot>,
    pub tally: u8,
}

// A command that has read all that it names: its code; of its row what it does, which areas it names, whether DL 0 is Unit Exception, whether sense is
// cleared; where the head stood, what it found, where it works, what the count area says there. An Option would have nothing to hold beside the two flags.
#[derive(Clone, Copy)]
pub struct Job {
    pub code: u8,
    pub act: Act,
    pub names: Names,
    pub excepts: bool,
    pub clears: bool,
    pub position: Position,
    pub orders: Orders,
    pub task: Task,
    pub counts: Counts,
}
