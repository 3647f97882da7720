// A list of tiles judged as a whole, before anything is written.
#![tactic(auto)]

ghost use Rattle.std.specs.Prelude.{false, true, ◌≡◌, ◌≤◌, length};
ghost use Rattle.strict.specs.Tiles.{Ascending};
ghost use Rattle.service.specs.Sound.{Sound};
ghost use Rattle.service.specs.Told.{bare, decided, told};
ghost use Rattle.service.specs.World.{world};
ghost use Rattle.rectangles.specs.Rectangles.{list_refusals, most_in_rectangle};
ghost use Rattle.filter.specs.Filter.{elsewhere};
ghost use Rattle.admission.specs.Verdicts.{book_of};
ghost use Rattle.judging.specs.Looks.{list_of, look_of, room_for};

use admission::Holder;
use service::{Done, OPERATION_SIZE, Reason, Reply, SHORT_SIZE, Session};
use strict::{Procedure, Rule};

// Whether one tile of a list needs a place, or who holds it, on the tables as they stand.
fn look_at(
    rule: Rule,
    keys: &[u32],
    entries: &[u64],
    job: u8,
    procedure: Procedure,
    key: u32,
) -> Result<bool, Holder>
    requires { Ascending keys.now }
    ensures { result ≡ look_of rule (book_of keys.now entries.now) job procedure key }
{
    let spot = admission::unheld(rule, keys, entries, job, procedure, key)?;
    let kind = admission::kind(procedure, spot.there);
    Ok(rules::needs_place(rule, entries, kind, key))
}

// The same, where `met` is false only if no entry has the tile: then the entries are not looked at.
fn look_past(
    rule: Rule,
    keys: &[u32],
    entries: &[u64],
    job: u8,
    procedure: Procedure,
    key: u32,
    met: bool,
) -> Result<bool, Holder>
    requires { Ascending keys.now × (met ≡ false → elsewhere key entries.now ≡ true) }
    ensures { result ≡ look_of rule (book_of keys.now entries.now) job procedure key }
{
    if met {
        return look_at(rule, keys, entries, job, procedure, key);
    }
    let there = tiles::is_present(keys, key);
    Ok(admission::kind(procedure, there) == 1)
}

// How many tiles of a list need a place, or who holds the first that is held. They differ, so each is judged on the tables as they stand.
// The filter meets the tile of each entry first.
fn look_all(
    rule: Rule,
    keys: &[u32],
    entries: &[u64],
    job: u8,
    procedure: Procedure,
    list: &[u32],
) -> Result<usize, Holder>
    requires { Ascending keys.now × (length list.now ≤ most_in_rectangle) }
    ensures { result ≡ list_of rule (book_of keys.now entries.now) job procedure list.now }
{
    let filter = filter::meet_all(entries);
    let mut need = 0;
    for key in list {
        let met = filter::is_met(&filter, *key);
        if look_past(rule, keys, entries, job, procedure, *key, met)? {
            need += 1;
        }
    }
    Ok(need)
}

// The first room that a list of n tiles lacks, where `need` of them need a tile place.
fn lacking(
    session: Session,
    tiles: &[u32],
    operations: &[u64],
    journal: &[u8],
    need: usize,
    n: usize,
) -> Reply
    requires { Sound (world session tiles.now operations.now journal.now) × (need ≤ most_in_rectangle) × (n ≤ most_in_rectangle) }
    ensures { told result ≡ decided (room_for (world session tiles.now operations.now journal.now) need n) (bare 0) }
{
    if tiles.len() < session.tiles + session.spoken + need {
        return Err(Reason::NoTileRoom);
    }
    if operations.len() < session.operations + n {
        return Err(Reason::NoOperationRoom);
    }
    let left = journal.len() - session.journal;
    if left < OPERATION_SIZE * n + SHORT_SIZE * scans::open_jobs(session) {
        return Err(Reason::NoJournalRoom);
    }
    Ok(Done {
        answer: false,
        turns: 0,
        last: 0,
    })
}

// What the operations on a list of tiles reply as a whole: 6, then 7, 8 and 9.
pub fn judge_list(
    session: Session,
    tiles: &[u32],
    operations: &[u64],
    journal: &[u8],
    job: u8,
    procedure: Procedure,
    list: &[u32],
) -> Reply
    requires { Sound (world session tiles.now operations.now journal.now) × (length list.now ≤ most_in_rectangle) }
    ensures { told result
        ≡ decided (list_refusals (world session tiles.now operations.now journal.now) job procedure list.now) (bare 0) }
{
    let keys = &tiles[..session.tiles];
    let entries = &operations[..session.operations];
    let need = look_all(session.rule, keys, entries, job, procedure, list)?;
    lacking(session, tiles, operations, journal, need, list.len())
}
