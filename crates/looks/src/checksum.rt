// One number for a session with its tables, by which two implementations are compared.
ghost use Rattle.std.specs.Prelude.{◌<◌};

use sanbirogu::{Rule, Session};

fn folded(sum: u64, x: u64) -> u64
    requires { sum < 4294967291 }
    ensures { result < 4294967291 }
{
    (sum * 31 + x % 4294967291) % 4294967291
}

fn of_rule(rule: Rule) -> u64 {
    match rule {
        Rule::Alone => 1,
        Rule::Together => 2,
    }
}

// A sum with each number of a table, in order.
fn sum_with<T: Copy + Into<u64>>(before: u64, table: &[T]) -> u64
    requires { before < 4294967291 }
    ensures { result < 4294967291 }
{
    let mut sum = before;
    for &x in table {
        sum = folded(sum, x.into());
    }
    sum
}

// The marks, the three counts, the rule, the levels and the places spoken for.
fn sum_of_session(session: Session) -> u64
    ensures { result < 4294967291 }
{
    let marked = sum_with(0, &session.marks);
    let counted = sum_with(
        marked,
        &[
            session.tiles as u64,
            session.operations as u64,
            session.journal as u64,
            of_rule(session.rule),
        ],
    );
    let levelled = sum_with(counted, &session.levels.map(|tiles| tiles as u64));
    folded(levelled, session.spoken as u64)
}

// Those, and then every place of each table, in this order.
pub fn sum(session: Session, tiles: &[u32], operations: &[u64], journal: &[u8]) -> u64 {
    let tiled = sum_with(sum_of_session(session), tiles);
    sum_with(sum_with(tiled, operations), journal)
}

// Every byte, in order.
pub fn sum_of_bytes(bytes: &[u8]) -> u64 {
    sum_with(0, bytes)
}
