// A line of the console taken apart: a word and its numbers, separated by exactly one space, with nothing before or after.
#![tactic(auto)]

pub use lines::{Unfinished, keep};
pub use parsing::parse;
use sanbirogu::{Address, Change, Procedure, Rectangle};

mod lines;
mod parsing;
mod words;

// What a line asks for. Each number is of the type that it stands for, and what it means is left to whoever answers.
#[derive(Clone, Copy)]
pub enum Command {
    Lend(Places),
    OnLent(Request),
}

// So many places of each table.
#[derive(Clone, Copy)]
pub struct Places {
    pub tiles: usize,
    pub operations: usize,
    pub journal: usize,
}

// What is asked of the session and the places that are lent.
#[derive(Clone, Copy)]
pub enum Request {
    Show,
    Look(Look),
    Call(Call),
    Put(Put),
}

// What leaves tables and session as they are.
#[derive(Clone, Copy)]
pub enum Look {
    Address(Address),
    Read(usize),
    Replay {
        count: usize,
        length: usize,
    },
    Mend {
        count: usize,
        length: usize,
        room: usize,
    },
    Levels,
    Sum,
    Help,
}

// The calls on a session.
#[derive(Clone, Copy)]
pub enum Call {
    Start {
        count: usize,
        rule: u8,
    },
    Open(u8),
    Commit(u8),
    Abort(u8),
    Operation {
        job: u8,
        sheet: u16,
        procedure: Procedure,
        address: Address,
    },
    Rectangle {
        job: u8,
        sheet: u16,
        change: Change,
        area: Rectangle,
    },
}

// What changes a table or the session from outside.
#[derive(Clone, Copy)]
pub enum Put {
    Tile { place: usize, key: u32 },
    Entry { place: usize, entry: u64 },
    Byte { place: usize, byte: u8 },
    Tiles(usize),
    Operations(usize),
    Journal(usize),
    Spoken(usize),
    Mark { job: u8, bit: u8 },
    Rule(u8),
    Level { zoom: u8, count: usize },
}
