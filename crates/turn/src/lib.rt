// What a command does, without the bytes and cells of it.
#![tactic(auto)]

use held::{Orders, Position};
use rows::Row;

// How a command ended: four cases, so no Option.
#[derive(Clone, Copy)]
pub enum Ending {
    Normal,
    Satisfied,
    Exception,
    Check(Row),
}

// The bytes that move: none, and length does not count; so many that it gives; so many that it takes of those sent. Three cases, so no Option.
#[derive(Clone, Copy)]
pub enum Transfer {
    None,
    Gives(u32),
    Takes(u32),
}

// How a command ends, how many bytes move, and what is held then.
#[derive(Clone, Copy)]
pub struct Report {
    pub ending: Ending,
    pub transfer: Transfer,
    pub position: Position,
    pub orders: Orders,
}
