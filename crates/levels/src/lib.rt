// The tiles of each level: counted in a tile table, and kept where a tile comes or goes.
#![tactic(auto)]

ghost use Rattle.std.specs.Prelude.{true, ◌≡◌, ◌<◌, ◌≤◌, get_or, length};
ghost use Rattle.lists.specs.Lists.{All, same_numbers};
ghost use Rattle.strict.specs.Tiles.{Ascending};
ghost use Rattle.grid.specs.Levels.{level_place, levels_of};
ghost use Rattle.grid.specs.Tile.{is_key};
ghost use Rattle.service.specs.Limits.{most_tiles};
ghost use Rattle.levels.specs.Tally.{Movable, lowered, raised, tally_after};

use address::Level;
use grid::ZOOM_FACTOR;
use strict::Procedure;
use tiles::Spot;

// The zoom after the lowest.
const NEXT_ZOOM: u32 = 5;

// How many tiles there are, and how many of each level.
#[derive(Clone, Copy)]
pub struct Tally {
    pub tiles: usize,
    pub levels: [usize; 11],
}

// The place of a tile's level among the eleven.
fn place_of(key: u32) -> usize
    requires { is_key key ≡ true }
    ensures { (result ≡ level_place key) × (result < 11) }
{
    (key / ZOOM_FACTOR - u32::from(Level::LOWEST)) as usize
}

// A tile comes. This and `lower` differ in a sign and in what they ask: one function of both would have both contracts in it, by cases.
fn raise(mut tally: Tally, key: u32) -> Tally
    requires { (is_key key ≡ true) × (tally.tiles ≤ most_tiles) × (get_or tally.levels (level_place key) 0 ≤ most_tiles) }
    ensures { result ≡ raised tally key }
{
    tally.tiles += 1;
    tally.levels[place_of(key)] += 1;
    tally
}

// A tile goes.
fn lower(mut tally: Tally, key: u32) -> Tally
    requires { (is_key key ≡ true) × (0 < tally.tiles) × (0 < get_or tally.levels (level_place key) 0) }
    ensures { result ≡ lowered tally key }
{
    tally.tiles -= 1;
    tally.levels[place_of(key)] -= 1;
    tally
}

// What is counted after a procedure whose tile has been looked for: an insert of a tile that is there counts nothing, nor does a delete of one that is not.
pub fn after(tally: Tally, procedure: Procedure, spot: Spot) -> Tally
    requires { Movable tally spot.key spot.there }
    ensures { result ≡ tally_after tally procedure spot.key spot.there }
{
    match (procedure, spot.there) {
        (Procedure::Ins, false) => raise(tally, spot.key),
        (Procedure::Del, true) => lower(tally, spot.key),
        _ => tally,
    }
}

// The tiles of each level, counted anew: the keys ascend, so that those of a level stand between the places of two numbers.
pub fn count_levels(keys: &[u32]) -> [usize; 11]
    requires { Ascending keys.now × All (λ k. is_key k ≡ true) keys.now }
    ensures { result ≡ levels_of keys.now }
{
    let mut levels = [0; 11];
    let mut below = 0;
    for (i, level) in levels.iter_mut().enumerate() {
        let next = (i as u32 + NEXT_ZOOM) * ZOOM_FACTOR;
        let end = search::position(keys, next);
        *level = end - below;
        below = end;
    }
    levels
}

// Whether the counts of each level are the same.
pub fn same_levels(kept: &[usize; 11], counted: &[usize; 11]) -> bool
    requires { (length kept.now ≡ 11) × (length counted.now ≡ 11) }
    ensures { result ≡ same_numbers kept.now counted.now }
{
    kept == counted
}
