// What the programs share: all of standard input, and text on standard output and standard error.
#![tactic(auto)]

ghost use Rattle.std.specs.Prelude.{◌≡◌, ◌-◌, ◌≤◌, length, IfOk, IsErr, is_err};
ghost use Rattle.terminal.specs.Counts.{IsPrefixLen};
ghost use Rattle.terminal.specs.Inputs.{bytes_in};

use std::fmt::Display;
use std::io;
use std::io::{Print, Read, Stderr, Stdin, Stdout};

// Standard output. Each text is written at once; after a write that failed none is, so that what was written is a beginning of what was meant.
#[derive(Drop)]
pub struct Output {
    stream: Stdout,
    written: io::Result<()>,
}

impl Output {
    pub fn new(stream: Stdout) -> Output {
        Output {
            stream,
            written: Ok(()),
        }
    }

    pub fn has_failed(&self) -> bool
        ensures { result ≡ is_err self.now.written }
    {
        self.written.is_err()
    }

    // What a program that has nothing more to print returns.
    pub fn end(self) -> io::Result<()> {
        self.written
    }

    // Bytes that need not be text.
    pub fn write_all(&mut self, bytes: &[u8])
        ensures { IsErr self.old.written → self.new.written ≡ self.old.written }
    {
        if self.written.is_ok() {
            self.written = self.stream.write_all(bytes);
        }
    }

    // What `write!` and `writeln!` call.
    pub fn write_fmt<D: Display + Drop>(&mut self, text: D)
        ensures { IsErr self.old.written → self.new.written ≡ self.old.written }
    {
        if !self.written.is_err() {
            self.written = self.stream.print(text);
        }
    }
}

// A line on standard error. Where it cannot be written, there is no place left to say so.
pub fn complain_line<D: Display + Drop>(errors: Stderr, complaint: D) {
    let _ = errors.println(complaint);
}

// One read into the places from `from` on: what is there by now, at a terminal a line. No byte comes where the input has ended.
pub fn read_some(mut source: Stdin, space: &mut [u8], from: usize) -> io::Result<usize>
    requires { from ≤ length space.old }
    ensures { IfOk result (λ bytes. bytes ≤ length space.old - from) }
{
    source.read(&mut space[from..])
}

// Reads until the input ends, reading fails or the space is full.
pub fn read_all(source: Stdin, space: &mut [u8]) -> io::Result<usize>
    ensures { IfOk result (λ bytes. IsPrefixLen bytes space.new) }
{
    let mut used: usize = 0;
    // A read takes what is there: how far it gets is no count.
    while used < space.len() {
        let bytes = read_some(source, space, used)?;
        if bytes == 0 {
            break;
        }
        used += bytes;
    }
    Ok(used)
}

// A read that failed, and how many bytes had come before it.
#[derive(Clone, Copy)]
pub struct Unreadable {
    pub bytes: usize,
}

// Reads as `read_some` does; of a read that failed it tells how many bytes had come, and not what it was.
pub fn read_some_counted(
    mut source: Stdin,
    space: &mut [u8],
    from: usize,
) -> Result<usize, Unreadable>
    requires { from ≤ length space.old }
    ensures { bytes_in result ≤ length space.old - from }
{
    match source.read(&mut space[from..]) {
        Ok(bytes) => Ok(bytes),
        Err(_) => Err(Unreadable { bytes: 0 }),
    }
}

// Reads as `read_all` does, and tells of a read that failed as `read_some_counted` does.
pub fn read_all_counted(source: Stdin, space: &mut [u8]) -> Result<usize, Unreadable>
    ensures { IsPrefixLen (bytes_in result) space.new }
{
    let mut used: usize = 0;
    // A read takes what is there: how far it gets is no count.
    while used < space.len() {
        match read_some_counted(source, space, used) {
            Ok(0) => break,
            Ok(bytes) => used += bytes,
            Err(_) => return Err(Unreadable { bytes: used }),
        }
    }
    Ok(used)
}
