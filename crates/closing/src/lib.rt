// What the end of a job does to the tables and to the session, by a commit or an abort: for the calls and for the replay. No journal.
#![tactic(auto)]

ghost use Rattle.std.specs.Prelude.{true, [], map, ◌≡◌, ◌≤◌, length, take};
ghost use Rattle.lists.specs.Lists.{padded};
ghost use Rattle.strict.specs.Book.{others, spoken_by};
ghost use Rattle.strict.specs.Histories.{abort, commit};
ghost use Rattle.strict.specs.Operations as report;
ghost use Rattle.grid.specs.Tile.{is_key};
ghost use Rattle.service.specs.Admission.{perform};
ghost use Rattle.service.specs.Calls.{with_state};
ghost use Rattle.service.specs.Entry.{key_in, op_in};
ghost use Rattle.service.specs.Limits.{last_job};
ghost use Rattle.service.specs.Sound.{Tabled};
ghost use Rattle.service.specs.World.{state, world};
ghost use Rattle.tiles.specs.Table.{spot_of};
ghost use Rattle.levels.specs.Tally.{tally_of};
ghost use Rattle.entries.specs.Table.{EntryTable, without_job};
ghost use Rattle.engine.specs.Events.{Ready};
ghost use Rattle.restoring.specs.Recovery.{Tallied, Undoable, recovered, recovered_job};
ghost use Rattle.closing.specs.Ending.{closed};

use layout::Whose;
use levels::Tally;
use service::Session;
use strict::Procedure;
use tiles::Spot;

// So many entries of a job are restored at once. Fewer are undone faster one after another: notes ask for two arrays and for two passes over the tiles,
// however few entries there are.
const MANY: usize = 96;

// The effect of a procedure on the tiles, with what is counted after it.
fn affect_counting(tiles: &mut [u32], tally: Tally, procedure: Procedure, spot: Spot) -> Tally
    requires { Tallied tiles.old tally × (spot ≡ spot_of spot.key (take tally.tiles tiles.old)) × (is_key spot.key ≡ true)
        × (length (report.apply (report.effect procedure) spot.key (take tally.tiles tiles.old)) ≤ length tiles.old) }
    ensures { (result ≡ tally_of (report.apply (report.effect procedure) spot.key (take tally.tiles tiles.old)))
        × (tiles.new ≡ padded (length tiles.old) (report.apply (report.effect procedure) spot.key (take tally.tiles tiles.old))) }
{
    engine::affect(tiles, tally.tiles, procedure, spot);
    levels::after(tally, procedure, spot)
}

// Runs one entry's recovery. Answers what is counted of the tiles after it.
fn recover(tiles: &mut [u32], tally: Tally, e: u64) -> Tally
    requires { Tallied tiles.old tally × (is_key (key_in e) ≡ true) × (length (recovered e (take tally.tiles tiles.old)) ≤ length tiles.old) }
    ensures { (result ≡ tally_of (recovered e (take tally.tiles tiles.old)))
        × (tiles.new ≡ padded (length tiles.old) (recovered e (take tally.tiles tiles.old))) }
{
    match restoring::recovery(layout::kind_in(e)) {
        Some(procedure) => {
            let spot = tiles::find(&tiles[..tally.tiles], layout::key_in(e));
            affect_counting(tiles, tally, procedure, spot)
        }
        None => tally,
    }
}

// Runs the recoveries of a job's entries, newest first, one after another: the loop is `restoring::note_job`'s, but it moves tiles and a tally, and no marks. Answers what is counted of the tiles after them.
fn undo_each(tiles: &mut [u32], tally: Tally, entries: &[u64], job: u8) -> Tally
    requires { Undoable tiles.old tally entries.now }
    ensures { (result ≡ tally_of (recovered_job job entries.now (take tally.tiles tiles.old)))
        × (tiles.new ≡ padded (length tiles.old) (recovered_job job entries.now (take tally.tiles tiles.old))) }
{
    let mut left = tally;
    for i in (0..entries.len()).rev() {
        let e = entries[i];
        if layout::job_in(e) == job {
            left = recover(tiles, left, e);
        }
    }
    left
}

// Whether a job has so many entries that its tiles are restored at once.
fn has_many(entries: &[u64], job: u8) -> bool {
    let own = entries
        .iter()
        .filter(|e| layout::job_in(**e) == job)
        .count();
    own >= MANY
}

// Runs the recoveries of a job's entries, newest first: one after another where they are few, and else all at once.
fn undo(tiles: &mut [u32], tally: Tally, entries: &[u64], job: u8) -> Tally
    requires { Undoable tiles.old tally entries.now }
    ensures { (result ≡ tally_of (recovered_job job entries.now (take tally.tiles tiles.old)))
        × (tiles.new ≡ padded (length tiles.old) (recovered_job job entries.now (take tally.tiles tiles.old))) }
{
    if has_many(entries, job) {
        restoring::restore(tiles, tally, entries, job)
    } else {
        undo_each(tiles, tally, entries, job)
    }
}

// The places spoken for without what a job's deletes speak for.
fn spoken_without(session: Session, tiles: &[u32], operations: &[u64], job: u8) -> usize
    requires { Tabled (world session tiles.now operations.now []) }
    ensures { result ≡ spoken_by session.rule (take session.tiles tiles.now) (others job (map op_in (take session.operations operations.now))) }
{
    let keys = &tiles[..session.tiles];
    let entries = &operations[..session.operations];
    session.spoken - rules::count_spoken(session.rule, keys, entries, Whose::Jobs(job))
}

// Takes a job's entries away and closes it, where so many places are spoken for without them.
fn clear_job(session: Session, operations: &mut [u64], job: u8, spoken: usize) -> Session
    requires { EntryTable operations.old session.operations × (job ≤ last_job) }
    ensures { (result ≡ closed session job (length (without_job job (take session.operations operations.old))) spoken)
        × (operations.new ≡ padded (length operations.old) (without_job job (take session.operations operations.old))) }
{
    let left = entries::close_gaps(operations, session.operations, job);
    let mut next = session;
    next.marks[usize::from(job)] = false;
    next.operations = left;
    next.spoken = spoken;
    next
}

// Closes a job, whose entries go with what they speak for: all that a commit does.
pub fn close_job(session: Session, tiles: &[u32], operations: &mut [u64], job: u8) -> Session
    requires { Ready (world session tiles.now operations.old []) (commit job) }
    ensures { world result tiles.now operations.new []
        ≡ with_state (world session tiles.now operations.old [])
        (perform (state (world session tiles.now operations.old [])) (commit job)) }
{
    let spoken = spoken_without(session, tiles, operations, job);
    clear_job(session, operations, job, spoken)
}

// Undoes a job, and then does what a commit does.
pub fn abort_job(session: Session, tiles: &mut [u32], operations: &mut [u64], job: u8) -> Session
    requires { Ready (world session tiles.old operations.old []) (abort job) }
    ensures { world result tiles.new operations.new []
        ≡ with_state (world session tiles.old operations.old [])
        (perform (state (world session tiles.old operations.old [])) (abort job)) }
{
    let spoken = spoken_without(session, tiles, operations, job);
    let tally = engine::tally_of(session);
    let left = undo(tiles, tally, &operations[..session.operations], job);
    let next = clear_job(session, operations, job, spoken);
    engine::counting(next, left)
}
