// Ascending runs of keys, put into the tile table or taken out of it in one pass over it.
#![tactic(auto)]

ghost use Rattle.std.specs.Prelude.{true, ◌++◌, ◌≡◌, ◌-◌, ◌<◌, ◌≤◌, drop, length, replicate, take};
ghost use Rattle.lists.specs.Lists.{padded};
ghost use Rattle.strict.specs.Operations as report;
ghost use Rattle.strict.specs.Tiles.{Ascending};
ghost use Rattle.search.specs.Table.{TileTable, position_of};
ghost use Rattle.tiles.specs.Table.{spot_of};
ghost use Rattle.runs.specs.Runs.{Kept, Run, apply_all};

use strict::Procedure;
use tiles::Spot;

// How many keys at the front ascend, or fewer.
pub fn run_end(keys: &[u32]) -> usize
    requires { 0 < length keys.now }
    ensures { Run keys.now result }
{
    for end in 1..keys.len() {
        if keys[end] <= keys[end - 1] {
            return end;
        }
    }
    keys.len()
}

// A place where `key` may belong: `near`, or the one behind it if the key at `near` is below it.
fn guess(keys: &[u32], near: usize, key: u32) -> usize {
    if near < keys.len() && keys[near] < key {
        near + 1
    } else {
        near
    }
}

// Whether `key` belongs to the place `at`: the key there is not below it, and the one before is.
fn belongs(keys: &[u32], at: usize, key: u32) -> bool
    requires { Ascending keys.now }
    ensures { result ≡ true → at ≡ position_of key keys.now }
{
    at <= keys.len() && (at == keys.len() || key <= keys[at]) && (at == 0 || keys[at - 1] < key)
}

// Looks for a key, first at the place `near` and the one behind it: the keys of a run stand close together.
pub fn find_near(keys: &[u32], near: usize, key: u32) -> Spot
    requires { Ascending keys.now }
    ensures { result ≡ spot_of key keys.now }
{
    let at = guess(keys, near, key);
    if belongs(keys, at, key) {
        tiles::spot_at(keys, at, key)
    } else {
        tiles::find(keys, key)
    }
}

// Puts a run of keys in, from the last to the first, where `left` tiles will be there: the greatest of the tiles and keys that are left goes to the last place
// that is free, so that each tile is moved once.
fn put_run(tiles: &mut [u32], count: usize, keys: &[u32], left: usize)
    requires { TileTable tiles.old count × Ascending keys.now
        × (left ≡ length (apply_all report.put keys.now (take count tiles.old))) × (left ≤ length tiles.old) }
    ensures { tiles.new ≡ padded (length tiles.old) (apply_all report.put keys.now (take count tiles.old)) }
{
    let mut old = count;
    let mut rest = keys;
    let mut place = left;
    while let Some((&key, earlier)) = rest.split_last() {
        place -= 1;
        match tiles[..old].last() {
            Some(&tile) if key < tile => {
                tiles[place] = tile;
                old -= 1;
            }
            Some(&tile) if key == tile => {
                tiles[place] = tile;
                old -= 1;
                rest = earlier;
            }
            _ => {
                tiles[place] = key;
                rest = earlier;
            }
        }
    }
}

// Moves the tiles that are not in the run to the front, and answers how many they are.
fn keep_others(tiles: &mut [u32], count: usize, keys: &[u32]) -> usize
    requires { TileTable tiles.old count × Ascending keys.now }
    ensures { Kept (apply_all report.clear keys.now (take count tiles.old)) tiles.old count tiles.new result }
{
    let mut at = 0;
    let mut left = 0;
    for i in 0..count {
        let tile = tiles[i];
        while at < keys.len() && keys[at] < tile {
            at += 1;
        }
        if at == keys.len() || tile < keys[at] {
            tiles[left] = tile;
            left += 1;
        }
    }
    left
}

// Sets the places from `from` to `to` to 0.
pub fn wipe(tiles: &mut [u32], from: usize, to: usize)
    requires { (from ≤ to) × (to ≤ length tiles.old) }
    ensures { tiles.new ≡ take from tiles.old ++ (replicate (to - from) 0 ++ drop to tiles.old) }
{
    tiles[from..to].fill(0);
}

// Takes a run of keys out, from the first to the last: each tile is moved once.
fn clear_run(tiles: &mut [u32], count: usize, keys: &[u32])
    requires { TileTable tiles.old count × Ascending keys.now }
    ensures { tiles.new ≡ padded (length tiles.old) (apply_all report.clear keys.now (take count tiles.old)) }
{
    let left = keep_others(tiles, count, keys);
    wipe(tiles, left, count);
}

// The effect of a procedure on the tiles, for each key of a run, where `left` tiles will be there.
pub fn affect_run(tiles: &mut [u32], count: usize, procedure: Procedure, keys: &[u32], left: usize)
    requires { TileTable tiles.old count × Ascending keys.now
        × (left ≡ length (apply_all (report.effect procedure) keys.now (take count tiles.old))) × (left ≤ length tiles.old) }
    ensures { tiles.new
        ≡ padded (length tiles.old) (apply_all (report.effect procedure) keys.now (take count tiles.old)) }
{
    match procedure {
        Procedure::Ins => put_run(tiles, count, keys, left),
        Procedure::Del => clear_run(tiles, count, keys),
        Procedure::Mem => {}
    }
}
