// The commands that change the tables or the session from outside, as something that is not the service would.
use answers::{agree, refuse};
use sanbirogu::{Rule, Session};
use script::Put;
use terminal::Output;

// The rule of a number, if there is one.
pub fn rule_of(number: u8) -> Option<Rule> {
    match number {
        1 => Some(Rule::Alone),
        2 => Some(Rule::Together),
        _ => None,
    }
}

// Puts a value into a place, if the table has it.
fn set<T: Copy>(table: &mut [T], place: usize, value: T) -> Option<()> {
    *table.get_mut(place)? = value;
    Some(())
}

// Changes the tables or the session, if what is named is there.
fn changed(
    put: Put,
    mut session: Session,
    tiles: &mut [u32],
    operations: &mut [u64],
    journal: &mut [u8],
) -> Option<Session> {
    match put {
        Put::Tile { place, key } => set(tiles, place, key)?,
        Put::Entry { place, entry } => set(operations, place, entry)?,
        Put::Byte { place, byte } => set(journal, place, byte)?,
        Put::Tiles(count) => session.tiles = count,
        Put::Operations(count) => session.operations = count,
        Put::Journal(count) => session.journal = count,
        Put::Spoken(count) => session.spoken = count,
        Put::Mark { job, bit } => set(&mut session.marks, job as usize, mark_of(bit)?)?,
        Put::Rule(number) => session.rule = rule_of(number)?,
        Put::Level { zoom, count } => {
            set(&mut session.levels, (zoom as usize).checked_sub(4)?, count)?
        }
    }
    Some(session)
}

fn mark_of(bit: u8) -> Option<bool> {
    match bit {
        0 => Some(false),
        1 => Some(true),
        _ => None,
    }
}

pub fn put(
    out: &mut Output,
    put: Put,
    session: Session,
    tiles: &mut [u32],
    operations: &mut [u64],
    journal: &mut [u8],
) -> Session {
    match changed(put, session, tiles, operations, journal) {
        None => {
            refuse(out);
            session
        }
        Some(next) => {
            agree(out);
            next
        }
    }
}
