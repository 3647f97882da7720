// Where a key stands in a tile table, or would be put: a binary search.
#![tactic(auto)]

ghost use Rattle.std.specs.Prelude.{◌≡◌};
ghost use Rattle.strict.specs.Tiles.{Ascending};
ghost use Rattle.search.specs.Table.{position_of};

// Among fewer keys a search that halves what is left ends sooner than one that goes through all bits.
const FEW: usize = 64;

// The place in a table of most_tiles keys has so many bits.
const BITS: u32 = 13;

// The place of the first key that is not below `key`, or how many keys there are. By `partition_point` alone the check of full tables took three times
// what the good baseline takes: each turn ends in a branch that the processor guesses at. These turns are written out one after another, without one.
pub fn position(keys: &[u32], key: u32) -> usize
    requires { Ascending keys.now }
    ensures { result ≡ position_of key keys.now }
{
    if keys.len() < FEW || 1 << BITS <= keys.len() {
        return keys.partition_point(|k| *k < key);
    }
    let mut at = 0;
    for bit in (0..BITS).rev() {
        let step = 1 << bit;
        if at + step <= keys.len() && keys[at + step - 1] < key {
            at += step;
        }
    }
    at
}
