// Whether the tiles are as the entries left them, by the rule that each entry fails alone.
#![tactic(auto)]

ghost use Rattle.std.specs.Prelude.{false, true, ◌≡◌};
ghost use Rattle.strict.specs.Tiles.{Ascending, member};
ghost use Rattle.strict.specs.declared.Rule.TheVariants.{Alone};
ghost use Rattle.service.specs.Entry.{key_in, kind_in};
ghost use Rattle.service.specs.Sound.{as_left, changing, settled_B};
ghost use Rattle.filter.specs.Filter.{elsewhere};
ghost use Rattle.settling.specs.Tests.{settled_at};

// Whether no entry has the tile `key`. It looks at all of them: a loop that is left early is not compiled to compare several at a time.
fn tile_free(entries: &[u64], key: u32) -> bool
    ensures { result ≡ elsewhere key entries.now }
{
    let mut free = true;
    for e in entries {
        if layout::key_in(*e) == key {
            free = false;
        }
    }
    free
}

// Whether an entry's tile is as its kind left it.
pub fn as_left(keys: &[u32], e: u64) -> bool
    requires { Ascending keys.now }
    ensures { result ≡ as_left (kind_in e) (member (key_in e) keys.now) }
{
    match layout::kind_in(e) {
        1 => tiles::is_present(keys, layout::key_in(e)),
        3 => !tiles::is_present(keys, layout::key_in(e)),
        _ => true,
    }
}

// Whether an entry changed its tile.
pub fn is_changing(e: u64) -> bool
    ensures { result ≡ changing (kind_in e) }
{
    matches!(layout::kind_in(e), 1 | 3)
}

// Whether an entry is settled: its tile is as it left it, and no later entry has the tile if it changed it. Where the filter says that none has, none is looked at.
fn entry_settled(keys: &[u32], e: u64, later: &[u64], seen: bool) -> bool
    requires { Ascending keys.now × (seen ≡ false → elsewhere (key_in e) later.now ≡ true) }
    ensures { result ≡ settled_at Alone keys.now later.now e }
{
    !is_changing(e) || as_left(keys, e) && (!seen || tile_free(later, layout::key_in(e)))
}

// Whether the tiles are as the entries left them, by the rule that each entry fails alone: no later one has a tile that an entry changed. From the last
// to the first, with a filter of the tiles seen: where a tile's bit is not set no later entry has it, and where it is set `tile_free` decides.
pub fn is_settled(keys: &[u32], entries: &[u64]) -> bool
    requires { Ascending keys.now }
    ensures { result ≡ settled_B Alone keys.now entries.now }
{
    let mut filter = [0; 1024];
    for i in (0..entries.len()).rev() {
        let e = entries[i];
        let key = layout::key_in(e);
        let seen = filter::is_met(&filter, key);
        if !entry_settled(keys, e, &entries[i + 1..], seen) {
            return false;
        }
        filter::meet(&mut filter, key);
    }
    true
}
