// A session with its lent tables: lending, and the commands that change them.
#![tactic(auto)]

ghost use Rattle.std.specs.Prelude.{◌≡◌};
ghost use Rattle.desk.specs.Lent.{Lent};

use sanbirogu::Session;
use script::{Command, Places, Request};
use terminal::Output;

mod calls;
mod outside;

// The session, and how many places of each table are lent. The tables go beside it, each as a slice: that a slice keeps its length is said by its type, and a struct
// of the three would need a clause for that in every function that is lent it.
#[derive(Clone, Copy)]
pub struct Desk {
    pub session: Session,
    pub tiles: usize,
    pub operations: usize,
    pub journal: usize,
}

// At the beginning nothing is lent.
pub fn empty() -> Desk
    ensures { (result.tiles ≡ 0) × (result.operations ≡ 0) × (result.journal ≡ 0) }
{
    Desk {
        session: sanbirogu::empty_session(),
        tiles: 0,
        operations: 0,
        journal: 0,
    }
}

// Lends so many places of each table, all 0, with an empty session.
pub fn lend(
    out: &mut Output,
    desk: Desk,
    places: Places,
    tiles: &mut [u32],
    operations: &mut [u64],
    journal: &mut [u8],
) -> Desk
    requires { Lent desk tiles.old operations.old journal.old }
    ensures { Lent result tiles.old operations.old journal.old }
{
    if tiles.len() < places.tiles
        || operations.len() < places.operations
        || journal.len() < places.journal
    {
        answers::refuse(out);
        return desk;
    }
    tiles.fill(0);
    operations.fill(0);
    journal.fill(0);
    answers::print_lent(out, places.tiles, places.operations, places.journal);
    Desk {
        session: sanbirogu::empty_session(),
        tiles: places.tiles,
        operations: places.operations,
        journal: places.journal,
    }
}

// Answers a call on what is lent, or a change from outside. Any other command is none of the desk's.
pub fn answer(
    out: &mut Output,
    command: Command,
    session: Session,
    tiles: &mut [u32],
    operations: &mut [u64],
    journal: &mut [u8],
) -> Session {
    match command {
        Command::OnLent(Request::Call(call)) => {
            calls::answer(out, call, session, tiles, operations, journal)
        }
        Command::OnLent(Request::Put(put)) => {
            outside::put(out, put, session, tiles, operations, journal)
        }
        _ => {
            answers::refuse(out);
            session
        }
    }
}
