// Whether lent tables are sound: service's `tabled_B` and `sound_B`, computed in an order in which each test may rely on those before it.
#![tactic(auto)]

ghost use Rattle.std.specs.Prelude.{[], ◌≡◌, true, ◌≤◌, length};
ghost use Rattle.lists.specs.Lists.{All};
ghost use Rattle.strict.specs.Tiles.{Ascending};
ghost use Rattle.grid.specs.Tile.{is_key};
ghost use Rattle.service.specs.Calls.{fresh, start_world};
ghost use Rattle.service.specs.Limits.{most_operations, most_tiles};
ghost use Rattle.service.specs.Sound.{every, sound_B, tabled_B};
ghost use Rattle.service.specs.World.{world};
ghost use Rattle.soundness.specs.Tests.{count_tests, fresh_tests};

use layout::Whose;
use service::{MOST_BYTES, MOST_OPERATIONS, MOST_TILES, SHORT_SIZE, Session};
use strict::Rule;

// Whether the lengths and the counts are in their ranges.
fn counts_fit(count: usize, used: usize, tiles: &[u32], operations: &[u64]) -> bool
    ensures { result ≡ every (count_tests count used tiles.now operations.now) }
{
    matches!(tiles.len(), 1..=MOST_TILES)
        && matches!(operations.len(), 1..=MOST_OPERATIONS)
        && count <= tiles.len()
        && used <= operations.len()
}

// Whether the tables and the open marks are sound, whatever the journal.
pub fn tables_sound(session: Session, tiles: &[u32], operations: &[u64]) -> bool
    ensures { result ≡ tabled_B (world session tiles.now operations.now []) }
{
    if !counts_fit(session.tiles, session.operations, tiles, operations) {
        return false;
    }
    let keys = &tiles[..session.tiles];
    let entries = &operations[..session.operations];
    scans::tiles_sound(tiles, session.tiles)
        && scans::entries_fit(&session.marks, entries)
        && scans::operations_clear(operations, session.operations)
        && rules::is_settled(session.rule, keys, entries)
        && counts_fresh(session, keys, entries, tiles.len())
}

// Whether the counts that a session holds are what a fresh count gives, and what is spoken for has its places.
fn counts_fresh(session: Session, keys: &[u32], entries: &[u64], places: usize) -> bool
    requires { Ascending keys.now × All (λ k. is_key k ≡ true) keys.now
        × (length entries.now ≤ most_operations) × (length keys.now ≤ most_tiles) }
    ensures { result ≡ every (fresh_tests session keys.now entries.now places) }
{
    let spoken = rules::count_spoken(session.rule, keys, entries, Whose::Anyones);
    keys.len() + spoken <= places
        && levels::same_levels(&session.levels, &levels::count_levels(keys))
        && session.spoken == spoken
}

// Whether a session and its lent tables are sound.
pub fn sound(session: Session, tiles: &[u32], operations: &[u64], journal: &[u8]) -> bool
    ensures { result ≡ sound_B (world session tiles.now operations.now journal.now) }
{
    tables_sound(session, tiles, operations)
        && journal.len() <= MOST_BYTES
        && session.journal <= journal.len()
        && SHORT_SIZE * scans::open_jobs(session) <= journal.len() - session.journal
}

// A session of these tiles, with no job open, nothing admitted and nothing written, and the levels counted.
pub fn fresh_session(rule: Rule, keys: &[u32]) -> Session
    requires { Ascending keys.now × All (λ k. is_key k ≡ true) keys.now }
    ensures { result ≡ fresh rule (length keys.now) keys.now }
{
    sessions::unopened_session(rule, keys.len(), levels::count_levels(keys))
}

// Whether a tile table with its count can start a session, by either rule alike: only the number of slots of the operation table counts, for its
// places are cleared.
pub fn can_start(tiles: &[u32], count: usize, operations: &[u64], journal: &[u8]) -> bool
    ensures { (rule : Rule) → result ≡ sound_B (start_world rule tiles.now count operations.now journal.now) }
{
    counts_fit(count, 0, tiles, operations)
        && scans::tiles_sound(tiles, count)
        && journal.len() <= MOST_BYTES
}
