// The commands that leave the session as it is, but for the one that shows it.
#![tactic(auto)]

use sanbirogu::Session;
use script::{Command, Look, Request};
use terminal::Output;

mod checksum;
mod help;

// The journal of a session is its used bytes, or all that are lent where the count is larger.
fn read(out: &mut Output, session: Session, journal: &[u8], place: usize) {
    let used = session.journal.min(journal.len());
    answers::print_read(out, by_reader::read_at(&journal[..used], place), place);
}

fn run_replay(
    out: &mut Output,
    tiles: &mut [u32],
    operations: &mut [u64],
    journal: &[u8],
    count: usize,
    length: usize,
) {
    match journal.get(..length) {
        None => answers::refuse(out),
        Some(used) => {
            answers::print_replayed(out, sanbirogu::replay(used, tiles, count, operations))
        }
    }
}

// An output is lent whose bytes all hold 255 before.
fn run_mend(
    out: &mut Output,
    tiles: &mut [u32],
    operations: &mut [u64],
    journal: &[u8],
    count: usize,
    length: usize,
    room: usize,
) {
    let Some(used) = journal.get(..length) else {
        answers::refuse(out);
        return;
    };
    let mut space = [255u8; 66000];
    match space.get_mut(..room) {
        None => answers::refuse(out),
        Some(output) => {
            let mended = sanbirogu::mend(used, tiles, count, operations, output);
            answers::print_mended(out, mended, checksum::sum_of_bytes(output));
        }
    }
}

// Answers what only looks.
fn answer(
    out: &mut Output,
    look: Look,
    session: Session,
    tiles: &mut [u32],
    operations: &mut [u64],
    journal: &[u8],
) {
    match look {
        Look::Address(address) => {
            answers::print_located(out, "reply ", sanbirogu::address(address))
        }
        Look::Read(place) => read(out, session, journal, place),
        Look::Replay { count, length } => {
            run_replay(out, tiles, operations, journal, count, length)
        }
        Look::Mend {
            count,
            length,
            room,
        } => run_mend(out, tiles, operations, journal, count, length, room),
        Look::Levels => answers::print_levels(out, session),
        Look::Sum => answers::print_sum(out, checksum::sum(session, tiles, operations, journal)),
        Look::Help => help::print_commands(out),
    }
}

// Whether a command only looks; it is answered then.
pub fn look(
    out: &mut Output,
    command: Command,
    session: Session,
    tiles: &mut [u32],
    operations: &mut [u64],
    journal: &[u8],
) -> bool {
    let Command::OnLent(Request::Look(look)) = command else {
        return false;
    };
    answer(out, look, session, tiles, operations, journal);
    true
}
