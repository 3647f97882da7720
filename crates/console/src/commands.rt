// Each line of the input, answered by the crate that has its command.
ghost use Rattle.desk.specs.Lent.{Lent};

use desk::Desk;
use sanbirogu::Session;
use script::{Command, Request};
use terminal::Output;

// Answers one command on what is lent.
fn answer(
    out: &mut Output,
    command: Command,
    session: Session,
    tiles: &mut [u32],
    operations: &mut [u64],
    journal: &mut [u8],
) -> Session {
    match command {
        Command::OnLent(Request::Show) => picture::show(out, session, tiles, operations, journal),
        Command::OnLent(Request::Look(_)) => {
            looks::look(out, command, session, tiles, operations, journal);
        }
        _ => return desk::answer(out, command, session, tiles, operations, journal),
    }
    session
}

// Answers one line.
pub fn answer_line(
    out: &mut Output,
    desk: Desk,
    line: &[u8],
    tiles: &mut [u32],
    operations: &mut [u64],
    journal: &mut [u8],
) -> Desk
    requires { Lent desk tiles.old operations.old journal.old }
    ensures { Lent result tiles.old operations.old journal.old }
{
    match script::parse(line) {
        None => {
            answers::refuse(out);
            desk
        }
        Some(Command::Lend(places)) => desk::lend(out, desk, places, tiles, operations, journal),
        Some(command) => Desk {
            session: answer(
                out,
                command,
                desk.session,
                &mut tiles[..desk.tiles],
                &mut operations[..desk.operations],
                &mut journal[..desk.journal],
            ),
            ..desk
        },
    }
}
