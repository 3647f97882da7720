// What differs by the session's rule, which is data in the session and no closure, one function for each: the test of the entries, the places spoken for, and who holds a new operation.
#![tactic(auto)]

ghost use Rattle.std.specs.Prelude.{map, ◌≡◌, ◌≤◌, length};
ghost use Rattle.strict.specs.Book.{spoken_of};
ghost use Rattle.strict.specs.Tiles.{Ascending};
ghost use Rattle.service.specs.Entry.{op_in};
ghost use Rattle.service.specs.Sound.{settled_B};
ghost use Rattle.layout.specs.Whose.{meant};
ghost use Rattle.entries.specs.Table.{first_place};
ghost use Rattle.rules.specs.Rules.{holds_by, wants_place};

use layout::Whose;
use strict::Rule;

// Whether the tiles are as the entries left them, and only such entries follow one that changed its tile as may.
pub fn is_settled(rule: Rule, keys: &[u32], entries: &[u64]) -> bool
    requires { Ascending keys.now × (length entries.now ≤ 1024) }
    ensures { result ≡ settled_B rule keys.now entries.now }
{
    match rule {
        Rule::Alone => settling::is_settled(keys, entries),
        Rule::Together => chains::is_chained(keys, entries),
    }
}

// How many tile places the unfinished deletes that are meant speak for.
pub fn count_spoken(rule: Rule, keys: &[u32], entries: &[u64], whose: Whose) -> usize
    requires { Ascending keys.now × (length entries.now ≤ 1024) }
    ensures { (result ≡ spoken_of rule (meant whose) keys.now (map op_in entries.now)) × (result ≤ 1024) }
{
    match rule {
        Rule::Alone => entries::count_reserved(entries, whose),
        Rule::Together => chains::count_absent(keys, entries, whose),
    }
}

// Whether an operation of this kind needs a tile place more.
pub fn needs_place(rule: Rule, entries: &[u64], kind: usize, key: u32) -> bool
    ensures { result ≡ wants_place rule (map op_in entries.now) kind key }
{
    match rule {
        Rule::Alone => kind == 1,
        Rule::Together => kind == 1 && !chains::is_deleted(entries, key),
    }
}

// The first entry, in order of admission, that holds a new operation of this job and kind on the tile `key`.
pub fn first_holder(rule: Rule, entries: &[u64], job: u8, kind: usize, key: u32) -> Option<usize>
    requires { (1 ≤ kind) × (kind ≤ 6) }
    ensures { result ≡ first_place (holds_by rule job kind key) entries.now }
{
    match rule {
        Rule::Alone => entries::first_holder(entries, kind, key),
        Rule::Together => entries::first_others_change(entries, job, key),
    }
}
