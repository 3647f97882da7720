// A seam case played on the calls: each call is named by three bytes, and its reply is printed.
ghost use Rattle.std.specs.Prelude.{◌≤◌};

use sanbirogu::{Address, Outcome, Procedure, Rule, Session};
use terminal::Output;

fn at(edition: u8, zoom: u8, column: i32, row: i32) -> Address {
    Address {
        edition,
        zoom,
        column,
        row,
    }
}

// Tiles A and B, a row too far south, a level too low and a level too high; tile A with its row counted from the south, a row that is out of its range
// there too, and no edition.
fn address_of(tile: u8) -> Address {
    match tile {
        b'A' => at(2, 4, -1, 5),
        b'B' => at(2, 4, 16, 0),
        b's' => at(2, 4, 0, 16),
        b'l' => at(2, 3, 0, 0),
        b'h' => at(2, 15, 0, 0),
        b'a' => at(1, 4, -1, 10),
        b'n' => at(1, 4, 0, -1),
        _ => at(3, 4, 0, 16),
    }
}

pub fn show_address(out: &mut Output, name: &str, tile: u8) {
    write!(out, "{name}");
    answers::print_located(out, " -> ", sanbirogu::address(address_of(tile)));
}

// A digit is a job; anything else is job 64.
fn job_of(name: u8) -> u8 {
    match name {
        b'0'..=b'9' => name - b'0',
        _ => 64,
    }
}

// One call: `(` opens, `)` commits, `!` aborts, `+` inserts, `-` deletes, and `?` asks.
// Any other sign than + and - asks.
fn procedure_of(what: u8) -> Procedure {
    match what {
        b'+' => Procedure::Ins,
        b'-' => Procedure::Del,
        _ => Procedure::Mem,
    }
}

// Each job corrects a sheet of its own.
fn sheet_of(job: u8) -> u16 {
    100 + u16::from(job)
}

fn call(
    session: Session,
    tiles: &mut [u32],
    operations: &mut [u64],
    journal: &mut [u8],
    job: u8,
    what: u8,
    tile: u8,
) -> Outcome {
    match what {
        b'(' => sanbirogu::open(session, tiles, operations, journal, job),
        b')' => sanbirogu::commit(session, tiles, operations, journal, job),
        b'!' => sanbirogu::abort(session, tiles, operations, journal, job),
        _ => sanbirogu::operation(
            session,
            tiles,
            operations,
            journal,
            job,
            sheet_of(job),
            procedure_of(what),
            address_of(tile),
        ),
    }
}

// One call of a story, named by three bytes: the job, the call and the tile. Answers the session after it.
fn step(
    out: &mut Output,
    session: Session,
    tiles: &mut [u32],
    operations: &mut [u64],
    journal: &mut [u8],
    named: &[u8; 4],
) -> Session {
    let [name, what, tile, _] = *named;
    let done = call(
        session,
        tiles,
        operations,
        journal,
        job_of(name),
        what,
        tile,
    );
    write!(out, "  ");
    out.write_all(&named[..3]);
    answers::print_reply(out, " -> ", done.reply);
    done.session
}

// Tells a story from a start: four bytes for each call, of which the last is a space.
fn play(
    out: &mut Output,
    rule: Rule,
    name: &str,
    tiles: &mut [u32],
    count: usize,
    operations: &mut [u64],
    journal: &mut [u8],
    story: &[u8],
) {
    let begun = sanbirogu::start(tiles, count, operations, journal, rule);
    write!(out, "{name}");
    answers::print_reply(out, " -> ", begun.reply);
    let mut session = begun.session;
    let (calls, _) = story.as_chunks();
    for named in calls {
        session = step(out, session, tiles, operations, journal, named);
    }
    writeln!(out, "  tiles {}", session.tiles);
}

// The same with room for four operations and 64 bytes of journal, on one place for a tile or two: this key in the first, and nothing in the other.
fn tell_by(
    out: &mut Output,
    rule: Rule,
    name: &str,
    places: usize,
    key: u32,
    count: usize,
    story: &[u8],
)
    requires { places ≤ 2 }
{
    let mut tiles = [key, 0];
    let mut operations = [0u64; 4];
    let mut journal = [0u8; 64];
    play(
        out,
        rule,
        name,
        &mut tiles[..places],
        count,
        &mut operations,
        &mut journal,
        story,
    );
}

pub fn tell(out: &mut Output, name: &str, places: usize, key: u32, count: usize, story: &[u8])
    requires { places ≤ 2 }
{
    tell_by(out, Rule::Alone, name, places, key, count, story);
}

pub fn tell_together(
    out: &mut Output,
    name: &str,
    places: usize,
    key: u32,
    count: usize,
    story: &[u8],
)
    requires { places ≤ 2 }
{
    tell_by(out, Rule::Together, name, places, key, count, story);
}

// The same with room for one tile, one operation and a journal that is soon full.
pub fn tell_briefly(out: &mut Output, rule: Rule, name: &str, journal: &mut [u8], story: &[u8]) {
    play(out, rule, name, &mut [0], 0, &mut [0], journal, story);
}
