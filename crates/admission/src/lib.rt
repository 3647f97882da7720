// Whether an operation is admitted on sound tables, its kind and its answer. Nothing is written here.
#![tactic(auto)]

ghost use Rattle.std.specs.Prelude.{◌&&◌, [], ◌≡◌, eqb, length};
ghost use Rattle.strict.specs.Book.{places_taken};
ghost use Rattle.strict.specs.Operations as report;
ghost use Rattle.strict.specs.Tiles.{Ascending};
ghost use Rattle.service.specs.Sound.{Tabled};
ghost use Rattle.service.specs.World.{state, world};
ghost use Rattle.rules.specs.Rules.{wants_place};
ghost use Rattle.admission.specs.Verdicts.{book_of, held_reason, reason_of, unheld_of, verdict_of};
ghost use Rattle.admission.specs.declared.Hindrance.TheVariants.{Held};

use service::{Reason, Session};
use strict::{Procedure, Rule};
use tiles::Spot;

// Whose entry holds an operation: its job, and the sheet for which it was made.
#[derive(Clone, Copy)]
pub struct Holder {
    pub job: u8,
    pub sheet: u16,
}

// Why an operation is not admitted.
#[derive(Clone, Copy)]
pub enum Hindrance {
    Held(Holder),
    NoTileRoom,
    NoOperationRoom,
}

impl From<Holder> for Hindrance {
    ghost from_gives = { λ by h. h ≡ Held by };

    fn from(by: Holder) -> Hindrance {
        Hindrance::Held(by)
    }
}

impl From<Holder> for Reason {
    ghost from_gives = { λ by r. r ≡ held_reason by };

    fn from(by: Holder) -> Reason {
        Reason::Held {
            job: by.job,
            sheet: by.sheet,
        }
    }
}

impl From<Hindrance> for Reason {
    ghost from_gives = { λ why r. r ≡ reason_of why };

    fn from(why: Hindrance) -> Reason {
        match why {
            Hindrance::Held(by) => Reason::from(by),
            Hindrance::NoTileRoom => Reason::NoTileRoom,
            Hindrance::NoOperationRoom => Reason::NoOperationRoom,
        }
    }
}

// The kind of an operation, by whether it found its tile: the number that its entry holds and the table of commutativity is read by.
pub fn kind(procedure: Procedure, found: bool) -> usize
    ensures { result ≡ report.kind procedure found }
{
    match (procedure, found) {
        (Procedure::Ins, false) => 1,
        (Procedure::Ins, true) => 2,
        (Procedure::Del, true) => 3,
        (Procedure::Del, false) => 4,
        (Procedure::Mem, true) => 5,
        (Procedure::Mem, false) => 6,
    }
}

// ins and del answer ok, mem whether it found its tile.
pub fn answer(procedure: Procedure, found: bool) -> bool
    ensures { result ≡ report.answer procedure found }
{
    match procedure {
        Procedure::Ins | Procedure::Del => true,
        Procedure::Mem => found,
    }
}

// What the search for the tile `key` found among the keys of the tiles, or whose entry is the first that holds the operation.
pub fn unheld(
    rule: Rule,
    keys: &[u32],
    entries: &[u64],
    job: u8,
    procedure: Procedure,
    key: u32,
) -> Result<Spot, Holder>
    requires { Ascending keys.now }
    ensures { result ≡ unheld_of rule (book_of keys.now entries.now) job procedure key }
{
    let spot = tiles::find(keys, key);
    let kind = kind(procedure, spot.there);
    match rules::first_holder(rule, entries, job, kind, key) {
        None => Ok(spot),
        Some(place) => {
            let e = entries[place];
            Err(Holder {
                job: layout::job_in(e),
                sheet: layout::sheet_in(e),
            })
        }
    }
}

// Whether an operation of this kind on the tile `key` needs a tile place and all are taken, by the counts that the session holds.
fn lacks_place(session: Session, tiles: &[u32], operations: &[u64], kind: usize, key: u32) -> bool
    requires { Tabled (world session tiles.now operations.now []) }
    ensures { result ≡ (wants_place session.rule (state (world session tiles.now operations.now [])).book.table kind key
        && eqb (places_taken session.rule (state (world session tiles.now operations.now [])).book) (length tiles.now)) }
{
    session.tiles + session.spoken >= tiles.len()
        && rules::needs_place(session.rule, &operations[..session.operations], kind, key)
}

// Judges an operation and writes nothing: first the holder, then tile room, then operation room.
// An operation that is admitted comes with what the search for its tile found.
pub fn admit(
    session: Session,
    tiles: &[u32],
    operations: &[u64],
    job: u8,
    procedure: Procedure,
    key: u32,
) -> Result<Spot, Hindrance>
    requires { Tabled (world session tiles.now operations.now []) }
    ensures { result ≡ verdict_of (length tiles.now) (length operations.now)
        (state (world session tiles.now operations.now [])) job procedure key }
{
    let keys = &tiles[..session.tiles];
    let entries = &operations[..session.operations];
    let spot = unheld(session.rule, keys, entries, job, procedure, key)?;
    let kind = kind(procedure, spot.there);
    if lacks_place(session, tiles, operations, kind, key) {
        return Err(Hindrance::NoTileRoom);
    }
    if session.operations == operations.len() {
        return Err(Hindrance::NoOperationRoom);
    }
    Ok(spot)
}
