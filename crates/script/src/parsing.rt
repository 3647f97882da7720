// What a line says.
use crate::words::Words;
use crate::{Call, Command, Look, Places, Put, Request};
use sanbirogu::{Change, Procedure};

// The command of a line, if it is one.
pub fn parse(line: &[u8]) -> Option<Command> {
    let mut words = Words::new(str::from_utf8(line).ok()?);
    let command = command(words.next()?, &mut words)?;
    match words.next() {
        None => Some(command),
        Some(_) => None,
    }
}

fn command(word: &str, words: &mut Words<'_>) -> Option<Command> {
    match word {
        "lend" => Some(Command::Lend(Places {
            tiles: words.count()?,
            operations: words.count()?,
            journal: words.count()?,
        })),
        _ => Some(Command::OnLent(call(word, words)?)),
    }
}

// The words of the calls on a session, and then all others.
fn call(word: &str, words: &mut Words<'_>) -> Option<Request> {
    let call = match word {
        "start" => Call::Start {
            count: words.count()?,
            rule: words.number()?,
        },
        "open" => Call::Open(words.number()?),
        "commit" => Call::Commit(words.number()?),
        "abort" => Call::Abort(words.number()?),
        "ins" => operation(Procedure::Ins, words)?,
        "del" => operation(Procedure::Del, words)?,
        "mem" => operation(Procedure::Mem, words)?,
        "insall" => rectangle(Change::Insert, words)?,
        "delall" => rectangle(Change::Delete, words)?,
        _ => return look(word, words),
    };
    Some(Request::Call(call))
}

fn operation(procedure: Procedure, words: &mut Words<'_>) -> Option<Call> {
    Some(Call::Operation {
        job: words.number()?,
        sheet: words.number()?,
        procedure,
        address: words.address()?,
    })
}

fn rectangle(change: Change, words: &mut Words<'_>) -> Option<Call> {
    Some(Call::Rectangle {
        job: words.number()?,
        sheet: words.number()?,
        change,
        area: words.rectangle()?,
    })
}

// The words of what leaves tables and session as they are, of which `show` stands apart.
fn look(word: &str, words: &mut Words<'_>) -> Option<Request> {
    let look = match word {
        "address" => Look::Address(words.address()?),
        "read" => Look::Read(words.count()?),
        "replay" => Look::Replay {
            count: words.count()?,
            length: words.count()?,
        },
        "mend" => Look::Mend {
            count: words.count()?,
            length: words.count()?,
            room: words.count()?,
        },
        "levels" => Look::Levels,
        "sum" => Look::Sum,
        "help" => Look::Help,
        "show" => return Some(Request::Show),
        _ => return put(word, words),
    };
    Some(Request::Look(look))
}

// The words of what changes a table or the session from outside.
fn put(word: &str, words: &mut Words<'_>) -> Option<Request> {
    let put = match word {
        "tile" => Put::Tile {
            place: words.count()?,
            key: words.number()?,
        },
        "entry" => Put::Entry {
            place: words.count()?,
            entry: words.number()?,
        },
        "byte" => Put::Byte {
            place: words.count()?,
            byte: words.number()?,
        },
        "tiles" => Put::Tiles(words.count()?),
        "operations" => Put::Operations(words.count()?),
        "journal" => Put::Journal(words.count()?),
        "spoken" => Put::Spoken(words.count()?),
        "mark" => Put::Mark {
            job: words.number()?,
            bit: words.number()?,
        },
        "rule" => Put::Rule(words.number()?),
        "level" => Put::Level {
            zoom: words.number()?,
            count: words.count()?,
        },
        _ => return None,
    };
    Some(Request::Put(put))
}
