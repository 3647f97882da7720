// The tests of the rule that the entries of a job fail as one: what changed a tile goes on from what changed it before.
#![tactic(auto)]

ghost use Rattle.std.specs.Prelude.{◌&&◌, ◌||◌, not, true, map, ◌≡◌, ◌+◌, ◌<◌, ◌≤◌, drop, eqb, get_or, length};
ghost use Rattle.std.proofs.Math.Seq.{slice};
ghost use Rattle.strict.specs.Book.{counted_of, deleted};
ghost use Rattle.strict.specs.Tiles.{Ascending, member};
ghost use Rattle.strict.specs.declared.Rule.TheVariants.{Together};
ghost use Rattle.service.specs.Entry.{key_in, kind_in, op_in};
ghost use Rattle.service.specs.Sound.{settled_B};
ghost use Rattle.layout.specs.Whose.{meant};
ghost use Rattle.filter.specs.Filter.{elsewhere};
ghost use Rattle.settling.specs.Tests.{settled_at};
ghost use Rattle.chains.specs.Chains.{followed, linked, near_slot, passed};

use layout::Whose;

// The slot of a tile among those of the nearest entries, of which there are 16,384.
fn slot_of(key: u32) -> usize
    ensures { (result ≡ near_slot key) × (result < 16384) }
{
    filter::slot(key) / 4
}

// Whether an entry deleted the tile `key`.
fn is_delete_of(e: u64, key: u32) -> bool
    ensures { result ≡ (eqb (kind_in e) 3 && eqb key (key_in e)) }
{
    layout::kind_in(e) == 3 && key == layout::key_in(e)
}

// Whether some entry deleted the tile `key`.
pub fn is_deleted(entries: &[u64], key: u32) -> bool
    ensures { result ≡ deleted key (map op_in entries.now) }
{
    entries.iter().any(|e| is_delete_of(*e, key))
}

// Whether an entry is meant, and its tile is absent and none of the later ones deleted it.
fn is_last_absent(keys: &[u32], e: u64, later: &[u64], whose: Whose) -> bool
    requires { Ascending keys.now }
    ensures { result ≡ (meant whose (op_in e)
        && not (member (key_in e) keys.now || deleted (key_in e) (map op_in later.now))) }
{
    let key = layout::key_in(e);
    layout::is_meant(e, whose) && !tiles::is_present(keys, key) && !is_deleted(later, key)
}

// How many absent tiles have an unfinished delete, each counted once, at its last, where that is meant. From the last entry to the first, with the nearest
// later delete of each slot: before it none deleted a tile of that slot. A slot has how many entries there are from that one on, so that 0 stands for none.
pub fn count_absent(keys: &[u32], entries: &[u64], whose: Whose) -> usize
    requires { Ascending keys.now × (length entries.now ≤ 1024) }
    ensures { (result ≡ counted_of (meant whose) keys.now (map op_in entries.now)) × (result ≤ length entries.now) }
{
    let mut deletes = [0u16; 16384];
    let mut absent = 0;
    for i in (0..entries.len()).rev() {
        let e = entries[i];
        if layout::kind_in(e) == 3 {
            let s = slot_of(layout::key_in(e));
            let later = &entries[entries.len() - usize::from(deletes[s])..];
            if is_last_absent(keys, e, later, whose) {
                absent += 1;
            }
            deletes[s] = (entries.len() - i) as u16;
        }
    }
    absent
}

// Whether the later entry `f` decides nothing of what is asked of `e`, that changed its tile: it is on another tile, or of the same job and changed nothing.
fn is_passed(e: u64, f: u64) -> bool
    ensures { result ≡ passed e f }
{
    layout::key_in(e) != layout::key_in(f)
        || (layout::job_in(e) == layout::job_in(f) && !settling::is_changing(f))
}

// Whether `f` goes on from `e`: it is of the same job, and of the other kind.
fn is_linked(e: u64, f: u64) -> bool
    ensures { result ≡ linked e f }
{
    layout::job_in(e) == layout::job_in(f) && layout::kind_in(e) != layout::kind_in(f)
}

// Whether what comes after `e`, that changed its tile, goes on from it: the first that decides does, and where there is none the tile is as `e` left it.
// It is left at that first one: where deleted tiles are inserted again few are looked at.
fn is_followed(keys: &[u32], e: u64, later: &[u64]) -> bool
    requires { Ascending keys.now }
    ensures { result ≡ followed keys.now e later.now }
{
    for f in later {
        if !is_passed(e, *f) {
            return is_linked(e, *f);
        }
    }
    settling::as_left(keys, e)
}

// Whether an entry is settled, where all after it are, and none before `from` has its tile.
fn entry_chained(keys: &[u32], entries: &[u64], at: usize, from: usize) -> bool
    requires { Ascending keys.now × (at < from) × (from ≤ length entries.now)
        × (elsewhere (key_in (get_or entries.now at 0)) (slice (at + 1) from entries.now) ≡ true)
        × (settled_B Together keys.now (drop (at + 1) entries.now) ≡ true) }
    ensures { result ≡ settled_at Together keys.now (drop (at + 1) entries.now) (get_or entries.now at 0) }
{
    let e = entries[at];
    !settling::is_changing(e) || is_followed(keys, e, &entries[from..])
}

// Whether the tiles are as the entries left them, by the rule that those of a job fail as one. From the last entry to the first, with the nearest later
// entry of each slot: before it none has a tile of that slot. `count_absent` and `settling::is_settled` pass over the entries the same way, but
// with another table and another question: one function that is handed these as closures would be no shorter, and its clauses would name them all.
pub fn is_chained(keys: &[u32], entries: &[u64]) -> bool
    requires { Ascending keys.now × (length entries.now ≤ 1024) }
    ensures { result ≡ settled_B Together keys.now entries.now }
{
    let mut near = [0u16; 16384];
    for i in (0..entries.len()).rev() {
        let s = slot_of(layout::key_in(entries[i]));
        if !entry_chained(keys, entries, i, entries.len() - usize::from(near[s])) {
            return false;
        }
        near[s] = (entries.len() - i) as u16;
    }
    true
}
