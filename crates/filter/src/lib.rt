// A filter over the tiles of entries: where the bit of a tile is not set, no entry that the filter has met has the tile. It stays a plain array: what it
// covers is said of it and of entries that stand elsewhere, so that a type of its own could not say it.
#![tactic(auto)]

ghost use Rattle.std.specs.Prelude.{false, true, List, ◌∷◌, ◌≡◌, ◌<◌, ◌/◌, ◌%◌, ℕ, eqb, length};
ghost use Rattle.service.specs.Entry.{key_in};
ghost use Rattle.filter.specs.Filter.{Covers, bit_in, elsewhere, slot_of};

// The slot of a tile in the filter, which has 65,536.
pub fn slot(key: u32) -> usize
    ensures { (result ≡ slot_of key) × (result < 65536) }
{
    (u64::from(key) * 2654435761 / 65536 % 65536) as usize
}

// Where the bit of a tile stands: in which word, and where in the word.
fn place_of(key: u32) -> (usize, usize)
    ensures word { (result.0 ≡ slot_of key / 64) × (result.0 < 1024) }
    ensures bit { (result.1 ≡ slot_of key % 64) × (result.1 < 64) }
{
    let h = slot(key);
    (h / 64, h % 64)
}

// Whether a bit of a word of the filter is set.
pub fn has_bit(word: u64, place: usize) -> bool
    requires { place < 64 }
    ensures { result ≡ eqb (bit_in word place) 1 }
{
    (word >> place) % 2 == 1
}

// A word with one bit more set.
pub fn with_bit(word: u64, place: usize) -> u64
    requires { place < 64 }
    ensures { (bit_in result place ≡ 1) × ((k : ℕ) → bit_in word k ≡ 1 → bit_in result k ≡ 1) }
{
    word | (1u64 << place)
}

// Whether the filter has met a tile. Where it has not, no entry that it covers has the tile.
pub fn is_met(seen: &[u64; 1024], key: u32) -> bool
    ensures { (es : List ℕ) → Covers seen.now es → result ≡ false → elsewhere key es ≡ true }
{
    let (w, place) = place_of(key);
    has_bit(seen[w], place)
}

// Has the filter meet a tile. It covers what it covered, and entries with the tile.
pub fn meet(seen: &mut [u64; 1024], key: u32)
    ensures { (e : ℕ) (es : List ℕ) → key_in e ≡ key → Covers seen.old es → Covers seen.new (e ∷ es) }
{
    let (w, place) = place_of(key);
    seen[w] = with_bit(seen[w], place);
}

// A filter that has met the tile of each entry.
pub fn meet_all(entries: &[u64]) -> [u64; 1024]
    ensures { (length result ≡ 1024) × Covers result entries.now }
{
    let mut met = [0; 1024];
    for e in entries {
        meet(&mut met, layout::key_in(*e));
    }
    met
}
