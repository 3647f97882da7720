// Tile addresses and their keys. What they promise is in grid's specs/Tile.antt.
#![tactic(auto)]

ghost use Rattle.std.specs.Prelude.{◌≡◌, true, pos, ◌<◌, ◌^◌, ◌≤◌};
ghost use Rattle.grid.specs.Tile.{address_call, around, is_edition, is_key, north_row, pack_key, placed, position_in, turns_of};
ghost use Rattle.address.specs.Columns.{columns_by_zoom};
ghost use Rattle.address.specs.Rows.{has_row};

use grid::{
    Address, COLUMN_FACTOR, Keyed, Located, NORTH_EDITION, Position, SOUTH_EDITION, Unplaced,
    ZOOM_FACTOR,
};

// Whether there is such an edition.
fn is_edition(edition: u8) -> bool
    ensures { result ≡ is_edition edition }
{
    matches!(edition, SOUTH_EDITION | NORTH_EDITION)
}

// A level of the map: 2^zoom columns, counted eastward from 180 degrees west, and as many rows from the north.
#[derive(Clone, Copy)]
pub struct Level {
    pub zoom: u8,
}

impl Level {
    pub const LOWEST: u8 = 4;

    pub const HIGHEST: u8 = 14;

    // The columns of a level, as many as its rows.
    fn columns(self) -> u32
        requires { self.zoom ≤ 14 }
        ensures { result ≡ 2 ^ self.zoom }
    {
        1 << self.zoom
    }

    // A column taken round the world: its remainder, from 0 to columns - 1.
    fn wrapped(self, column: i32) -> u32
        requires { self.zoom ≤ 14 }
        ensures { result ≡ around column (2 ^ self.zoom) }
    {
        column.rem_euclid(self.columns() as i32) as u32
    }

    // The whole turns of a column round the world, below 0 westward: the division rounds down.
    pub fn turns(self, column: i32) -> i32
        requires { self.zoom ≤ 14 }
        ensures { result ≡ turns_of column (2 ^ self.zoom) }
    {
        column.div_euclid(self.columns() as i32)
    }

    // Whether there is such a level, and it has this row.
    fn has_row(self, row: i32) -> bool
        ensures { result ≡ has_row self.zoom row }
    {
        (Level::LOWEST..=Level::HIGHEST).contains(&self.zoom)
            && (0..self.columns() as i32).contains(&row)
    }

    // A row of this level counted from the north.
    fn north_row(self, edition: u8, row: i32) -> u32
        requires { has_row self.zoom row ≡ true }
        ensures { pos result ≡ north_row edition self.zoom row }
    {
        if edition == SOUTH_EDITION {
            self.columns() - 1 - row as u32
        } else {
            row as u32
        }
    }

    // The key of a column and a row of this level.
    fn key(self, column: i32, row: u32) -> u32
        requires { (self.zoom ≤ 14) × (row < 2 ^ self.zoom) }
        ensures { result ≡ pack_key self.zoom (around column (2 ^ self.zoom)) row }
    {
        u32::from(self.zoom) * ZOOM_FACTOR + self.wrapped(column) * COLUMN_FACTOR + row
    }

    // Whether a number is the key of some address.
    pub fn is_key(k: u32) -> bool
        ensures { result ≡ is_key k }
    {
        is_key_by(&columns_by_zoom(), k)
    }
}

// The columns of each level by its zoom, as many as its rows, and 0 where a zoom is no level's. A pass over many keys makes this table once.
pub fn columns_by_zoom() -> [u32; 16]
    ensures { result ≡ columns_by_zoom }
{
    [
        0, 0, 0, 0, 16, 32, 64, 128, 256, 512, 1024, 2048, 4096, 8192, 16384, 0,
    ]
}

// Whether a number is the key of some address, by that table.
pub fn is_key_by(columns: &[u32; 16], k: u32) -> bool
    requires { columns.now ≡ columns_by_zoom }
    ensures { result ≡ is_key k }
{
    let at = split(k);
    let bound = columns[at.zoom as usize];
    at.column < bound && at.row < bound
}

// The address step: every column is accepted. An edition that is none is refused, then a zoom or a row out of its range; only then is the row turned.
pub fn locate(a: Address) -> Located
    ensures { placed result ≡ address_call a }
{
    let level = Level { zoom: a.zoom };
    if !is_edition(a.edition) {
        return Err(Unplaced::NoEdition);
    }
    if !level.has_row(a.row) {
        return Err(Unplaced::OutOfRange);
    }
    let row = level.north_row(a.edition, a.row);
    Ok(Keyed {
        key: level.key(a.column, row),
        turns: level.turns(a.column),
    })
}

// Zoom, column and row of a key.
pub fn split(key: u32) -> Position
    ensures { result ≡ position_in key }
{
    Position {
        zoom: key / ZOOM_FACTOR,
        column: key % ZOOM_FACTOR / COLUMN_FACTOR,
        row: key % COLUMN_FACTOR,
    }
}
