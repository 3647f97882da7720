// The table of commutativity as it is read: a constant, equal to the one of strict's specs/Commutativity.antt.
#![tactic(auto)]

ghost use Rattle.std.specs.Prelude.{◌≡◌, ◌<◌, ◌≤◌};
ghost use Rattle.strict.specs.Commutativity.{entry_at};

// Rows: the kind of the new operation. Columns: the recovery of an unfinished one, ins of the same tile,
// ins of another, del of the same, del of another, skip.
const COMMUTES: [[bool; 5]; 6] = [
    [false, true, false, true, true], // 1, ins of an absent tile
    [true, true, false, true, true], // 2, ins of a present tile
    [false, true, false, true, true], // 3, del of a present tile
    [false, true, true, true, true], // 4, del of an absent tile
    [true, true, false, true, true], // 5, mem ok
    [false, true, true, true, true], // 6, mem fail
];

// Whether a new operation of this kind, 1 to 6, commutes with the recovery of this column.
pub fn commutes(kind: usize, column: usize) -> bool
    requires { (1 ≤ kind) × (kind ≤ 6) × (column < 5) }
    ensures { result ≡ entry_at kind column }
{
    COMMUTES[kind - 1][column]
}
