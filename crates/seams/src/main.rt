// Runs the seam cases on the calls and prints every reply: its number, its answer and its holder.
#![tactic(auto)]

use playing::{show_address, tell, tell_briefly, tell_together};
use sanbirogu::Rule;
use std::io;
use terminal::Output;

mod playing;

// The key of tile A.
const A: u32 = 1073987589;

// Undo by inverses between two jobs: the cases of the report.
fn two_jobs(out: &mut Output) {
    tell(out, "No tiles, both insert A", 2, 0, 0, b"1(  2(  1+A 2+A ");
    tell(out, "No tiles, insert A and ask", 2, 0, 0, b"1(  1+A 1?A ");
    tell(
        out,
        "A, insert and delete",
        2,
        A,
        1,
        b"1(  2(  1+A 2-A 1!  2)  3(  3?A ",
    );
    tell(out, "A, ask and delete", 2, A, 1, b"1(  2(  1?A 2-A ");
    tell(
        out,
        "No tiles, delete and insert",
        2,
        0,
        0,
        b"1(  2(  1-A 2+A 1!  2)  3(  3?A ",
    );
}

// A tile that is deleted keeps its place until the delete has committed.
fn one_place(out: &mut Output) {
    tell(
        out,
        "One place, delete A and insert B",
        1,
        A,
        1,
        b"1(  2(  1-A 2+B 1)  2+B ",
    );
    tell(
        out,
        "One place, delete A and insert A",
        1,
        A,
        1,
        b"1(  2(  1-A 2+A ",
    );
    tell(out, "One place, insert A", 1, A, 1, b"1(  1+A ");
}

// A job sees its own tiles where it fails as one.
fn own_tiles(out: &mut Output) {
    tell_together(
        out,
        "Rule 2, no tiles, insert A and ask",
        2,
        0,
        0,
        b"1(  1+A 1?A ",
    );
    tell_together(
        out,
        "Rule 2, A, replace it and abort",
        2,
        A,
        1,
        b"1(  1-A 1+A 1!  2(  2?A ",
    );
    tell_together(
        out,
        "Rule 2, no tiles, held though strict",
        2,
        0,
        0,
        b"1(  2(  1+A 1-A 2?A 1)  2?A ",
    );
}

// And a place that it has freed is its own.
fn own_room(out: &mut Output) {
    tell_together(
        out,
        "Rule 2, one place, replace A",
        1,
        A,
        1,
        b"1(  1-A 1+A 1-A 1+B ",
    );
    tell_together(
        out,
        "Rule 2, one place that no outcome needs",
        1,
        0,
        0,
        b"1(  1+A 1-A 1+B 1)  1(  1+B ",
    );
    tell_briefly(
        out,
        Rule::Together,
        "Rule 2, journal of 3 bytes",
        &mut [0; 3],
        b"1(  ",
    );
}

// Each reply from 1 to 9 and 14, and that the first of them is given.
fn refusals(out: &mut Output) {
    tell(
        out,
        "Addresses out of range",
        1,
        0,
        0,
        b"1(  1+s 1?l 1-h 1+n 1+x ",
    );
    tell(
        out,
        "One tile by both editions",
        1,
        0,
        0,
        b"1(  2(  1+a 2+A ",
    );
    tell(
        out,
        "The job is looked at first",
        1,
        0,
        0,
        b"z(  z+x z)  z!  1+x 1)  1!  1(  1(  ",
    );
    tell(
        out,
        "Operations table full",
        1,
        0,
        0,
        b"1(  1?A 1-B 1?A 1-B 1?A 1+B 1)  1(  ",
    );
    tell_briefly(
        out,
        Rule::Alone,
        "Journal of 22 bytes",
        &mut [0; 22],
        b"1(  2(  1?A 2(  1!  3(  2)  ",
    );
    tell(out, "A count past the table", 1, 0, 2, b"1(  1?A 1)  1!  ");
    tell(out, "A key behind the count", 1, A, 0, b"1(  1?A 1)  1!  ");
}

fn addresses(out: &mut Output) {
    show_address(out, "2 4 -1 5", b'A');
    show_address(out, "2 4 16 0", b'B');
    show_address(out, "2 4 0 16", b's');
    show_address(out, "2 3 0 0", b'l');
    show_address(out, "2 15 0 0", b'h');
    show_address(out, "1 4 -1 10", b'a');
    show_address(out, "1 4 0 -1", b'n');
    show_address(out, "3 4 0 16", b'x');
}

fn main(rt: HostRuntime) -> io::Result<()> {
    let mut out = Output::new(rt.stdout());
    addresses(&mut out);
    two_jobs(&mut out);
    one_place(&mut out);
    own_tiles(&mut out);
    own_room(&mut out);
    refusals(&mut out);
    out.end()
}
