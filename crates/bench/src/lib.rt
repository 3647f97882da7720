// The soundness check and the public calls for the program of baseline/ to link: a session comes and goes in its parts, and a reply goes as numbers.
// Rules, procedures, changes and replies are numbers here, and a table and its count stand apart, because C has no more: this is the C interface.
#![tactic(auto)]

use sanbirogu::{Address, Change, Outcome, Procedure, Rectangle, Rule, Session};

// The rule of a number: 2 for the second, and the first for all others.
fn rule_of(number: usize) -> Rule {
    match number {
        2 => Rule::Together,
        _ => Rule::Alone,
    }
}

fn rule_number(rule: Rule) -> usize {
    match rule {
        Rule::Alone => 1,
        Rule::Together => 2,
    }
}

// A session of its parts: the marks, the counts of tiles, operations and journal bytes, the number of its rule with the places spoken for, and the tiles of each level.
fn session_of(marks: &[bool; 64], parts: &[usize; 5], levels: &[usize; 11]) -> Session {
    Session {
        rule: rule_of(parts[3]),
        marks: *marks,
        tiles: parts[0],
        operations: parts[1],
        journal: parts[2],
        levels: *levels,
        spoken: parts[4],
    }
}

// Gives the next session back in its parts, and the reply as its number, answer, the holder's job and sheet, and turns.
fn give(
    outcome: Outcome,
    marks: &mut [bool; 64],
    parts: &mut [usize; 5],
    levels: &mut [usize; 11],
    reply: &mut [i32; 6],
) {
    let told = sanbirogu::numbers(outcome.reply);
    let next = outcome.session;
    // Tried as `*marks = next.marks`: the proof does not cover an array that is stored straight from a field.
    let open = next.marks;
    let counts = next.levels;
    *marks = open;
    *parts = [
        next.tiles,
        next.operations,
        next.journal,
        rule_number(next.rule),
        next.spoken,
    ];
    *levels = counts;
    *reply = [
        i32::from(told.number),
        i32::from(told.answer),
        i32::from(told.holder),
        i32::from(told.sheet),
        told.turns,
        told.last,
    ];
}

// The procedure of a number: 1 for ins, 2 for del, and mem for all others.
fn procedure_of(number: u8) -> Procedure {
    match number {
        1 => Procedure::Ins,
        2 => Procedure::Del,
        _ => Procedure::Mem,
    }
}

#[unsafe(no_mangle)]
pub extern "C" fn bench_sound(
    marks: &[bool; 64],
    parts: &[usize; 5],
    levels: &[usize; 11],
    tiles: &[u32],
    operations: &[u64],
    journal: &[u8],
) -> bool {
    soundness::sound(session_of(marks, parts, levels), tiles, operations, journal)
}

#[unsafe(no_mangle)]
pub extern "C" fn bench_start(
    marks: &mut [bool; 64],
    parts: &mut [usize; 5],
    levels: &mut [usize; 11],
    tiles: &[u32],
    operations: &mut [u64],
    journal: &mut [u8],
    count: usize,
    rule: usize,
    reply: &mut [i32; 6],
) {
    let outcome = sanbirogu::start(tiles, count, operations, journal, rule_of(rule));
    give(outcome, marks, parts, levels, reply);
}

#[unsafe(no_mangle)]
pub extern "C" fn bench_open(
    marks: &mut [bool; 64],
    parts: &mut [usize; 5],
    levels: &mut [usize; 11],
    tiles: &[u32],
    operations: &[u64],
    journal: &mut [u8],
    job: u8,
    reply: &mut [i32; 6],
) {
    let session = session_of(marks, parts, levels);
    let outcome = sanbirogu::open(session, tiles, operations, journal, job);
    give(outcome, marks, parts, levels, reply);
}

#[unsafe(no_mangle)]
pub extern "C" fn bench_operation(
    marks: &mut [bool; 64],
    parts: &mut [usize; 5],
    levels: &mut [usize; 11],
    tiles: &mut [u32],
    operations: &mut [u64],
    journal: &mut [u8],
    job: u8,
    sheet: u16,
    procedure: u8,
    edition: u8,
    zoom: u8,
    column: i32,
    row: i32,
    reply: &mut [i32; 6],
) {
    let session = session_of(marks, parts, levels);
    let address = Address {
        edition,
        zoom,
        column,
        row,
    };
    let outcome = sanbirogu::operation(
        session,
        tiles,
        operations,
        journal,
        job,
        sheet,
        procedure_of(procedure),
        address,
    );
    give(outcome, marks, parts, levels, reply);
}

// What is done to each tile of a rectangle, by a number: 2 for delete, and insert for all others.
fn change_of(number: u8) -> Change {
    match number {
        2 => Change::Delete,
        _ => Change::Insert,
    }
}

#[unsafe(no_mangle)]
pub extern "C" fn bench_rectangle(
    marks: &mut [bool; 64],
    parts: &mut [usize; 5],
    levels: &mut [usize; 11],
    tiles: &mut [u32],
    operations: &mut [u64],
    journal: &mut [u8],
    job: u8,
    sheet: u16,
    change: u8,
    edition: u8,
    zoom: u8,
    west: i32,
    east: i32,
    top: i32,
    bottom: i32,
    reply: &mut [i32; 6],
) {
    let session = session_of(marks, parts, levels);
    let area = Rectangle {
        edition,
        zoom,
        west,
        east,
        top,
        bottom,
    };
    let outcome = sanbirogu::rectangle(
        session,
        tiles,
        operations,
        journal,
        job,
        sheet,
        change_of(change),
        area,
    );
    give(outcome, marks, parts, levels, reply);
}

#[unsafe(no_mangle)]
pub extern "C" fn bench_commit(
    marks: &mut [bool; 64],
    parts: &mut [usize; 5],
    levels: &mut [usize; 11],
    tiles: &[u32],
    operations: &mut [u64],
    journal: &mut [u8],
    job: u8,
    reply: &mut [i32; 6],
) {
    let session = session_of(marks, parts, levels);
    let outcome = sanbirogu::commit(session, tiles, operations, journal, job);
    give(outcome, marks, parts, levels, reply);
}

#[unsafe(no_mangle)]
pub extern "C" fn bench_abort(
    marks: &mut [bool; 64],
    parts: &mut [usize; 5],
    levels: &mut [usize; 11],
    tiles: &mut [u32],
    operations: &mut [u64],
    journal: &mut [u8],
    job: u8,
    reply: &mut [i32; 6],
) {
    let session = session_of(marks, parts, levels);
    let outcome = sanbirogu::abort(session, tiles, operations, journal, job);
    give(outcome, marks, parts, levels, reply);
}

// The reply is here the number, the offset, the jobs undone and the count of tiles left.
#[unsafe(no_mangle)]
pub extern "C" fn bench_replay(
    journal: &[u8],
    tiles: &mut [u32],
    count: usize,
    operations: &mut [u64],
    reply: &mut [u64; 4],
) {
    let replayed = sanbirogu::replay(journal, tiles, count, operations);
    *reply = [
        u64::from(sanbirogu::stop_number(replayed.stop)),
        replayed.offset as u64,
        replayed.undone as u64,
        replayed.tiles as u64,
    ];
}
