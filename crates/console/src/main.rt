// Tries the rules by hand: reads commands from standard input, one to a line, and answers each as soon as it is read. docs/CONSOLE.md
// has the answers.
#![tactic(auto)]

ghost use Rattle.std.specs.Prelude.{◌≡◌, ◌*◌, ◌+◌, ◌≤◌, length};
ghost use Rattle.desk.specs.Lent.{Lent};

use desk::Desk;
use std::io;
use std::io::Stdin;
use terminal::Output;

mod commands;

// How far the input is answered: a place in what was read, and how many lines may still come.
#[derive(Clone, Copy)]
struct Progress {
    desk: Desk,
    at: usize,
    left: u64,
}

// Answers every line of a text that its line feed ends, up to the place where the rest begins. Each line that may still come stands for
// as many bytes as the space holds: counted so, what may still be read falls with every read, and the loop below ends.
fn answer_lines(
    out: &mut Output,
    desk: Desk,
    left: u64,
    text: &[u8],
    tiles: &mut [u32],
    operations: &mut [u64],
    journal: &mut [u8],
) -> Progress
    requires { (length text.now ≤ 65536) × Lent desk tiles.old operations.old journal.old }
    ensures { (result.at ≤ length text.now) × (result.at + result.left * 65536 ≤ left * 65536)
        × Lent result.desk tiles.old operations.old journal.old }
{
    let mut reached = desk;
    let mut at: usize = 0;
    let mut more = left;
    // where a line ends is found on the way
    while 0 < more {
        let Some(size) = text[at..].iter().position(|&byte| byte == b'\n') else {
            break;
        };
        let line = &text[at..at + size];
        reached = commands::answer_line(out, reached, line, tiles, operations, journal);
        at += size + 1;
        more -= 1;
    }
    Progress {
        desk: reached,
        at,
        left: more,
    }
}

// Answers the lines in the first `end` bytes of the space, and keeps what is left at its front: the place where reading goes on.
fn answer_so_far(
    out: &mut Output,
    desk: Desk,
    left: u64,
    space: &mut [u8],
    end: usize,
    tiles: &mut [u32],
    operations: &mut [u64],
    journal: &mut [u8],
) -> Progress
    requires { (end ≤ length space.old) × (length space.old ≡ 65536) × Lent desk tiles.old operations.old journal.old }
    ensures { (result.at ≤ 65536) × (end + result.left * 65536 ≤ result.at + left * 65536)
        × Lent result.desk tiles.old operations.old journal.old }
{
    let done = answer_lines(out, desk, left, &space[..end], tiles, operations, journal);
    let rest = script::keep(space, done.at, end, done.left);
    Progress {
        desk: done.desk,
        at: rest.held,
        left: rest.left,
    }
}

// Reads on and answers each line that ends, until the input does or an answer cannot be written.
fn answer_input(
    source: Stdin,
    out: &mut Output,
    space: &mut [u8],
    tiles: &mut [u32],
    operations: &mut [u64],
    journal: &mut [u8],
)
    requires { length space.old ≡ 65536 }
{
    let mut reached = Progress {
        desk: desk::empty(),
        at: 0,
        left: 4294967296,
    };
    // a read takes what is there
    while 0 < reached.left {
        let Ok(bytes) = terminal::read_some_counted(source, space, reached.at) else {
            writeln!(out, "unreadable input");
            return;
        };
        if bytes == 0 {
            return;
        }
        reached = answer_so_far(
            out,
            reached.desk,
            reached.left,
            space,
            reached.at + bytes,
            tiles,
            operations,
            journal,
        );
        if out.has_failed() {
            return;
        }
    }
}

fn main(rt: HostRuntime) -> io::Result<()> {
    let mut out = Output::new(rt.stdout());
    let mut space = [0u8; 65536];
    let mut tiles = [0u32; 5000];
    let mut operations = [0u64; 1200];
    let mut journal = [0u8; 66000];
    answer_input(
        rt.stdin(),
        &mut out,
        &mut space,
        &mut tiles,
        &mut operations,
        &mut journal,
    );
    out.end()
}
