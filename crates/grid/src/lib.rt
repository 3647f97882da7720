// The grid of tiles: addresses, keys and levels. What each of them means is in specs/.
#![tactic(auto)]

// A key is zoom, column and row.
pub const ZOOM_FACTOR: u32 = 268435456;

pub const COLUMN_FACTOR: u32 = 16384;

// The levels of the map: zooms 4 to 14.
pub const LEVEL_COUNT: usize = 11;

// The editions of a feed: the first counts rows from the south, the second from the north.
pub const SOUTH_EDITION: u8 = 1;

pub const NORTH_EDITION: u8 = 2;

// A tile's address. A feed of edition 1 counts rows from the south, one of edition 2 from the north.
#[derive(Clone, Copy)]
pub struct Address {
    pub edition: u8,
    pub zoom: u8,
    pub column: i32,
    pub row: i32,
}

// Where a tile is, as its key has it.
#[derive(Clone, Copy)]
pub struct Position {
    pub zoom: u32,
    pub column: u32,
    pub row: u32,
}

// A tile's key, and how often its column goes round the world, below 0 westward.
#[derive(Clone, Copy)]
pub struct Keyed {
    pub key: u32,
    pub turns: i32,
}

// Why an address has no key: a zoom or a row is out of its range, or there is no such edition.
#[derive(Clone, Copy)]
pub enum Unplaced {
    OutOfRange,
    NoEdition,
}

// What the address step answers.
pub type Located = Result<Keyed, Unplaced>;
