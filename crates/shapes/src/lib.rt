// The shape of a rectangle, and the list of its keys. Nothing of a session is looked at here.
#![tactic(auto)]

ghost use Rattle.std.specs.Prelude.{◌≡◌, ◌-◌, ◌<◌, ◌^◌, ◌≤◌, suc, length, take};
ghost use Rattle.std.specs.Int.Signed.{mag};
ghost use Rattle.grid.specs.Tile.{address_of, row_in};
ghost use Rattle.rectangles.specs.Rectangles as report;
ghost use Rattle.rectangles.specs.Rectangles.{most_in_rectangle};
ghost use Rattle.shapes.specs.declared.Flaw.TheVariants.{Corner};
ghost use Rattle.shapes.specs.Shaping.{Corners, Measures, Shapes, Steps, reason_of, stepped};

use grid::{Address, COLUMN_FACTOR, Unplaced, ZOOM_FACTOR};
use rectangles::{MOST_IN_RECTANGLE, Rectangle};
use service::Reason;

// A rectangle's shape: the key of its first tile, its height and how many tiles it has.
#[derive(Clone, Copy)]
pub struct Shape {
    pub corner: u32,
    pub height: u32,
    pub n: u32,
}

// What is wrong with a rectangle that has none: a corner without a key, 14 or 5, and then 13.
#[derive(Clone, Copy)]
pub enum Flaw {
    Corner(Unplaced),
    Misshapen,
}

impl From<Unplaced> for Flaw {
    ghost from_gives = { λ why flaw. flaw ≡ Corner why };

    fn from(why: Unplaced) -> Flaw {
        Flaw::Corner(why)
    }
}

impl From<Flaw> for Reason {
    ghost from_gives = { λ flaw r. r ≡ reason_of flaw };

    fn from(flaw: Flaw) -> Reason {
        match flaw {
            Flaw::Corner(why) => Reason::from(why),
            Flaw::Misshapen => Reason::Misshapen,
        }
    }
}

// The columns of a level.
fn columns_of(zoom: u8) -> u32
    requires { zoom ≤ 14 }
    ensures { result ≡ 2 ^ zoom }
{
    1u32 << zoom
}

// A signed number without its sign: n for n, and n for -(n + 1). It fits also at the least number.
fn magnitude(z: i32) -> usize
    ensures { result ≡ mag z }
{
    if z < 0 {
        return (-1 - z) as usize;
    }
    z as usize
}

// How many numbers there are from a to b. By their signs, since b - a does not fit 32 bits.
fn span(a: i32, b: i32) -> usize
    ensures { result ≡ report.span a b }
{
    let x = magnitude(a);
    let y = magnitude(b);
    if a < 0 {
        if b < 0 {
            if x < y {
                return 0;
            }
            return x + 1 - y;
        }
        return x + 1 + (y + 1);
    }
    if b < 0 {
        return 0;
    }
    if y < x {
        return 0;
    }
    y + 1 - x
}

// The key of one corner.
fn corner_key(edition: u8, zoom: u8, column: i32, row: i32) -> Result<u32, Unplaced>
    ensures { Corners (address_of edition zoom column row) result }
{
    let address = Address {
        edition,
        zoom,
        column,
        row,
    };
    Ok(address::locate(address)?.key)
}

// How many rows there are from that of one key to that of another. Keys hold rows counted from the north.
fn rows_between(top: u32, bottom: u32) -> usize
    ensures { result ≡ suc (row_in bottom) - row_in top }
{
    let north = (top % COLUMN_FACTOR) as usize;
    let south = (bottom % COLUMN_FACTOR) as usize;
    if south < north {
        return 0;
    }
    south + 1 - north
}

// Judges width and height.
fn measured(zoom: u8, corner: u32, width: usize, height: usize) -> Result<Shape, Flaw>
    requires { zoom ≤ 14 }
    ensures { Measures zoom corner width height result }
{
    if width == 0 {
        return Err(Flaw::Misshapen);
    }
    if height == 0 {
        return Err(Flaw::Misshapen);
    }
    if (columns_of(zoom) as usize) < width {
        return Err(Flaw::Misshapen);
    }
    if MOST_IN_RECTANGLE < height {
        return Err(Flaw::Misshapen);
    }
    let n = width * height;
    if MOST_IN_RECTANGLE < n {
        return Err(Flaw::Misshapen);
    }
    Ok(Shape {
        corner,
        height: height as u32,
        n: n as u32,
    })
}

// Judges a rectangle: both corners, then its shape.
pub fn shape_of(r: Rectangle) -> Result<Shape, Flaw>
    ensures { Shapes r result }
{
    let corner = corner_key(r.edition, r.zoom, r.west, r.top)?;
    let last = corner_key(r.edition, r.zoom, r.east, r.bottom)?;
    measured(
        r.zoom,
        corner,
        span(r.west, r.east),
        rows_between(corner, last),
    )
}

// The key of tile i of a rectangle, by steps from its first column. The columns go round the world; nothing is signed.
fn key_at(zoom: u8, columns: u32, first: u32, north: u32, height: u32, i: u32) -> u32
    requires { Steps zoom columns first north height × (i < most_in_rectangle) }
    ensures { result ≡ stepped zoom columns first north height i }
{
    zoom as u32 * ZOOM_FACTOR
        + (first + i / height) % columns * COLUMN_FACTOR
        + (north + i % height)
}

// Lists the keys of the tiles by such steps, from tile 0 on.
fn list_keys(zoom: u8, columns: u32, first: u32, north: u32, height: u32, keys: &mut [u32])
    requires { Steps zoom columns first north height × (length keys.old ≤ most_in_rectangle) }
    ensures { keys.new ≡ report.sequence (stepped zoom columns first north height) 0 (length keys.old) }
{
    for (i, key) in keys.iter_mut().enumerate() {
        *key = key_at(zoom, columns, first, north, height, i as u32);
    }
}

// Lists the keys of the tiles of a rectangle that has a shape.
pub fn list_tiles(r: Rectangle, shape: Shape, keys: &mut [u32])
    requires { Shapes r (Ok shape) × (shape.n ≤ length keys.old) }
    ensures { take shape.n keys.new ≡ report.keys (report.listed r) }
{
    let Shape { corner, height, n } = shape;
    list_keys(
        r.zoom,
        columns_of(r.zoom),
        corner % ZOOM_FACTOR / COLUMN_FACTOR,
        corner % COLUMN_FACTOR,
        height,
        &mut keys[..n as usize],
    )
}
