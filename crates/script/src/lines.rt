// Lines in a space that is read into: what is kept of one that has not ended yet.
ghost use Rattle.std.specs.Prelude.{◌≡◌, ◌*◌, ◌+◌, ◌≤◌, length};

// A line that has not ended yet: how many of its bytes stand at the front of the space, and how many lines may still come.
#[derive(Clone, Copy)]
pub struct Unfinished {
    pub held: usize,
    pub left: u64,
}

// Keeps the line from `at` to `end`. One that fills the space is no command, however it goes on: its first 256 bytes are enough to know.
// It then counts as a line more, so that a line without an end comes to an end here.
pub fn keep(space: &mut [u8], at: usize, end: usize, left: u64) -> Unfinished
    requires { (at ≤ end) × (end ≤ length space.old) × (length space.old ≡ 65536) }
    ensures { (result.held ≤ 65536) × (end + result.left * 65536 ≤ result.held + at + left * 65536) }
{
    if end - at == space.len() && 0 < left {
        return Unfinished {
            held: 256,
            left: left - 1,
        };
    }
    space.copy_within(at..end, 0);
    Unfinished {
        held: end - at,
        left,
    }
}
