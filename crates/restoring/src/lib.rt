// The tiles of a job restored at once: what is to go and what is to come back is noted entry by entry, and then the tiles are moved in one pass.
#![tactic(auto)]

ghost use Rattle.std.specs.Prelude.{false, not, true, ◌≡◌, ◌+◌, ◌<◌, ◌≤◌, get_or, length, take};
ghost use Rattle.lists.specs.Lists.{padded};
ghost use Rattle.strict.specs.Operations as report;
ghost use Rattle.strict.specs.Tiles.{member};
ghost use Rattle.grid.specs.Tile.{is_key};
ghost use Rattle.service.specs.Entry.{key_in};
ghost use Rattle.search.specs.Table.{TileTable};
ghost use Rattle.runs.specs.Runs.{Kept};
ghost use Rattle.levels.specs.Tally.{Movable, tally_after, tally_of};
ghost use Rattle.restoring.specs.Notes.{Blank, MayNote, Foretold, marked_by, restored_by, unmarked};
ghost use Rattle.restoring.specs.Recovery.{Undoable, recovered, recovered_job, recovery_of};

use levels::Tally;
use service::{MOST_OPERATIONS, MOST_TILES};
use strict::Procedure;
use tiles::Spot;

// What is counted of the tiles as they will be, and how many of them come back.
#[derive(Clone, Copy)]
pub struct Notes {
    pub tally: Tally,
    pub coming: usize,
}

// Marks the tile at the place `at` as one that goes, or takes its mark away.
fn mark(marks: &mut [bool], at: usize, procedure: Procedure)
    requires { at < length marks.old }
    ensures { marks.new ≡ marked_by procedure at marks.old }
{
    match procedure {
        Procedure::Ins => marks[at] = false,
        Procedure::Del => marks[at] = true,
        Procedure::Mem => {}
    }
}

// Notes a procedure on a tile of the table, which will be there if it has no mark.
fn note_present(marks: &mut [bool], notes: Notes, procedure: Procedure, spot: Spot) -> Notes
    requires { (spot.at < length marks.old) × Movable notes.tally spot.key (not (get_or marks.old spot.at false)) }
    ensures { (result.tally ≡ tally_after notes.tally procedure spot.key (not (get_or marks.old spot.at false)))
        × (result.coming ≡ notes.coming) × (marks.new ≡ marked_by procedure spot.at marks.old) }
{
    let noted = Spot {
        there: !marks[spot.at],
        ..spot
    };
    mark(marks, spot.at, procedure);
    let tally = levels::after(notes.tally, procedure, noted);
    Notes { tally, ..notes }
}

// Notes a procedure on a tile that is not in the table, which will be there if it comes back.
fn note_absent(back: &mut [u32], notes: Notes, procedure: Procedure, key: u32) -> Notes
    requires { TileTable back.old notes.coming × (notes.coming < length back.old)
        × Movable notes.tally key (member key (take notes.coming back.old)) }
    ensures { (result.tally ≡ tally_after notes.tally procedure key (member key (take notes.coming back.old)))
        × (result.coming ≡ length (report.apply (report.effect procedure) key (take notes.coming back.old)))
        × (back.new ≡ padded (length back.old) (report.apply (report.effect procedure) key (take notes.coming back.old))) }
{
    let awaited = tiles::find(&back[..notes.coming], key);
    let coming = engine::affect(back, notes.coming, procedure, awaited);
    let tally = levels::after(notes.tally, procedure, awaited);
    Notes { tally, coming }
}

// Notes a procedure on a tile, which is looked for once among the tiles.
fn note(
    keys: &[u32],
    marks: &mut [bool],
    back: &mut [u32],
    notes: Notes,
    procedure: Procedure,
    key: u32,
) -> Notes
    requires { MayNote keys.now marks.old back.old notes × (is_key key ≡ true) }
    ensures { Foretold keys.now
        (report.apply (report.effect procedure) key (restored_by keys.now marks.old back.old notes)) marks.new back.new result
        × (result.coming ≤ notes.coming + 1) }
{
    let spot = tiles::find(keys, key);
    if spot.there {
        note_present(marks, notes, procedure, spot)
    } else {
        note_absent(back, notes, procedure, key)
    }
}

// The procedure that undoes what an entry of a kind did to the tiles.
pub fn recovery(kind: usize) -> Option<Procedure>
    ensures { result ≡ recovery_of kind }
{
    match kind {
        1 => Some(Procedure::Del),
        3 => Some(Procedure::Ins),
        _ => None,
    }
}

// Notes one entry's recovery.
fn note_recovery(keys: &[u32], marks: &mut [bool], back: &mut [u32], notes: Notes, e: u64) -> Notes
    requires { MayNote keys.now marks.old back.old notes × (is_key (key_in e) ≡ true) }
    ensures { Foretold keys.now
        (recovered e (restored_by keys.now marks.old back.old notes)) marks.new back.new result
        × (result.coming ≤ notes.coming + 1) }
{
    match recovery(layout::kind_in(e)) {
        Some(procedure) => note(keys, marks, back, notes, procedure, layout::key_in(e)),
        None => notes,
    }
}

// Notes the recoveries of a job's entries, newest first.
fn note_job(
    tiles: &[u32],
    tally: Tally,
    marks: &mut [bool],
    back: &mut [u32],
    entries: &[u64],
    job: u8,
) -> Notes
    requires { Undoable tiles.now tally entries.now × Blank marks.old back.old (length tiles.now) (length entries.now) }
    ensures { Foretold (take tally.tiles tiles.now)
        (recovered_job job entries.now (take tally.tiles tiles.now)) marks.new back.new result }
{
    let keys = &tiles[..tally.tiles];
    let mut notes = Notes { tally, coming: 0 };
    for i in (0..entries.len()).rev() {
        let e = entries[i];
        if layout::job_in(e) == job {
            notes = note_recovery(keys, marks, back, notes, e);
        }
    }
    notes
}

// Moves the tiles that have no mark to the front, and answers how many they are. A tile that does not stay is written and not counted: no branch
// depends on a mark.
fn move_up(tiles: &mut [u32], count: usize, marks: &[bool]) -> usize
    requires { (count ≤ length tiles.old) × (count ≤ length marks.now) }
    ensures { Kept (unmarked marks.now (take count tiles.old)) tiles.old count tiles.new result }
{
    let mut left: usize = 0;
    for i in 0..count {
        tiles[left] = tiles[i];
        left += usize::from(!marks[i]);
    }
    left
}

// Takes the marked tiles away, and answers how many are left.
fn sweep(tiles: &mut [u32], count: usize, marks: &[bool]) -> usize
    requires { TileTable tiles.old count × (count ≤ length marks.now) }
    ensures { (result ≡ length (unmarked marks.now (take count tiles.old)))
        × (tiles.new ≡ padded (length tiles.old) (unmarked marks.now (take count tiles.old))) }
{
    let left = move_up(tiles, count, marks);
    runs::wipe(tiles, left, count);
    left
}

// Moves the tiles as noted: the marked ones go, and then those that come back are merged in.
fn move_noted(tiles: &mut [u32], count: usize, marks: &[bool], back: &[u32], notes: Notes)
    requires { TileTable tiles.old count
        × Foretold (take count tiles.old) (restored_by (take count tiles.old) marks.now back.now notes) marks.now back.now notes
        × (length (restored_by (take count tiles.old) marks.now back.now notes) ≤ length tiles.old) }
    ensures { tiles.new
        ≡ padded (length tiles.old) (restored_by (take count tiles.old) marks.now back.now notes) }
{
    let left = sweep(tiles, count, marks);
    runs::affect_run(
        tiles,
        left,
        Procedure::Ins,
        &back[..notes.coming],
        notes.tally.tiles,
    );
}

// Notes what a job's recoveries do to the tiles, and does it.
fn restore_by(
    tiles: &mut [u32],
    tally: Tally,
    marks: &mut [bool],
    back: &mut [u32],
    entries: &[u64],
    job: u8,
) -> Tally
    requires { Undoable tiles.old tally entries.now × Blank marks.old back.old (length tiles.old) (length entries.now) }
    ensures { (result ≡ tally_of (recovered_job job entries.now (take tally.tiles tiles.old)))
        × (tiles.new ≡ padded (length tiles.old) (recovered_job job entries.now (take tally.tiles tiles.old))) }
{
    let notes = note_job(tiles, tally, marks, back, entries, job);
    move_noted(tiles, tally.tiles, marks, back, notes);
    notes.tally
}

// Runs the recoveries of a job's entries, newest first, all at once. Answers what is counted of the tiles after them.
pub fn restore(tiles: &mut [u32], tally: Tally, entries: &[u64], job: u8) -> Tally
    requires { Undoable tiles.old tally entries.now }
    ensures { (result ≡ tally_of (recovered_job job entries.now (take tally.tiles tiles.old)))
        × (tiles.new ≡ padded (length tiles.old) (recovered_job job entries.now (take tally.tiles tiles.old))) }
{
    let mut marks = [false; MOST_TILES];
    let mut back = [0u32; MOST_OPERATIONS];
    restore_by(tiles, tally, &mut marks, &mut back, entries, job)
}
