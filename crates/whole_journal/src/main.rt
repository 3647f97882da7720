// Passes on a journal once all of it has been read, whole or not at all. Why one is not passed on is told by what `main` returns: of a read that fails, the error itself.
#![tactic(auto)]

use std::io;
use std::io::ErrorKind;
use terminal::Output;

fn main(rt: HostRuntime) -> io::Result<()> {
    let mut out = Output::new(rt.stdout());
    let mut journal = [0u8; 65537];
    let length = terminal::read_all(rt.stdin(), &mut journal[..65536])?;
    // a journal has no more bytes than that
    if length == 65536 && terminal::read_some(rt.stdin(), &mut journal, length)? != 0 {
        return Err(io::Error::from(ErrorKind::FileTooLarge));
    }
    out.write_all(&journal[..length]);
    out.end()
}
