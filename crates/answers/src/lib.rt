// What the calls answer, as the programs print it: numbers with their names, on one line.
#![tactic(auto)]

use sanbirogu::{
    Keyed, Located, Mended, Operation, Read, Record, Replayed, Reply, Session, Unplaced,
};
use terminal::Output;

// Zoom, column and row of a key, with this between them.
pub fn print_tile(out: &mut Output, key: u32, between: &str) {
    let place = sanbirogu::split(key);
    write!(
        out,
        "{}{between}{}{between}{}",
        place.zoom, place.column, place.row
    );
}

// After this beginning.
pub fn print_reply(out: &mut Output, beginning: &str, reply: Reply) {
    let told = sanbirogu::numbers(reply);
    writeln!(
        out,
        "{beginning}{} answer {} holder {} sheet {} turns {}",
        told.number, told.answer, told.holder, told.sheet, told.turns
    );
}

// A rectangle has no answer, and the turns of its first column and of its last.
pub fn print_whole(out: &mut Output, reply: Reply) {
    let told = sanbirogu::numbers(reply);
    writeln!(
        out,
        "reply {} holder {} sheet {} turns {} {}",
        told.number, told.holder, told.sheet, told.turns, told.last
    );
}

// The address step, after this beginning. Key and turns are 0 where it refuses.
pub fn print_located(out: &mut Output, beginning: &str, located: Located) {
    match located {
        Ok(Keyed { key, turns }) => writeln!(out, "{beginning}0 key {key} turns {turns}"),
        Err(Unplaced::OutOfRange) => writeln!(out, "{beginning}5 key 0 turns 0"),
        Err(Unplaced::NoEdition) => writeln!(out, "{beginning}14 key 0 turns 0"),
    }
}

fn print_operation(out: &mut Output, operation: Operation) {
    write!(
        out,
        "{} {} {} {}",
        operation.job,
        sanbirogu::procedure_byte(operation.procedure),
        operation.answer as u8,
        operation.key
    );
}

fn print_record(out: &mut Output, noted: Record) {
    match noted {
        Record::Open(job) => write!(out, "open {job}"),
        Record::Performed(operation) => {
            write!(out, "operation ");
            print_operation(out, operation);
        }
        Record::Sheeted { operation, sheet } => {
            write!(out, "sheeted ");
            print_operation(out, operation);
            write!(out, " {sheet}");
        }
        Record::Commit(job) => write!(out, "commit {job}"),
        Record::Abort(job) => write!(out, "abort {job}"),
    }
}

// What the reader finds at a place.
pub fn print_read(out: &mut Output, read: Read, place: usize) {
    match read {
        Read::Whole { record, next } => {
            print_record(out, record);
            writeln!(out, " next {next}");
        }
        Read::Ruled(next) => writeln!(out, "rule 2 next {next}"),
        Read::End => writeln!(out, "end"),
        Read::Cut => writeln!(out, "cut"),
        Read::Malformed => writeln!(out, "reply 10 offset {place}"),
    }
}

pub fn print_replayed(out: &mut Output, report: Replayed) {
    writeln!(
        out,
        "reply {} offset {} undone {} count {}",
        sanbirogu::stop_number(report.stop),
        report.offset,
        report.undone,
        report.tiles
    );
}

// With the sum of all bytes of the output.
pub fn print_mended(out: &mut Output, mended: Mended, sum: u64) {
    writeln!(
        out,
        "reply {} length {} left {} aborted {} count {} sum {sum}",
        sanbirogu::mend_number(mended.reply),
        mended.size,
        mended.omitted,
        mended.aborted,
        mended.tiles
    );
}

// The tiles of each level, from the lowest zoom to the highest, as the session has them to hand.
pub fn list_levels(out: &mut Output, session: Session) {
    for zoom in 4..=14u8 {
        write!(out, " {}", sanbirogu::tiles_of_zoom(session, zoom));
    }
}

pub fn print_levels(out: &mut Output, session: Session) {
    write!(out, "levels");
    list_levels(out, session);
    writeln!(out, " spoken {}", session.spoken);
}

pub fn print_sum(out: &mut Output, sum: u64) {
    writeln!(out, "sum {sum}");
}

pub fn print_lent(out: &mut Output, tiles: usize, operations: usize, journal: usize) {
    writeln!(out, "lent {tiles} {operations} {journal}");
}

// What is no command, or names a place that is not lent.
pub fn refuse(out: &mut Output) {
    out.write_all(b"?\n");
}

pub fn agree(out: &mut Output) {
    out.write_all(b"ok\n");
}
