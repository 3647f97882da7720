// Starting a session, and one operation on it: each takes every input; its promise is one equation with service's specs/Calls.antt.
#![tactic(auto)]

ghost use Rattle.std.specs.Prelude.{Err, ◌≡◌};
ghost use Rattle.service.specs.Calls.{empty_session, operation_call, start_call};
ghost use Rattle.service.specs.World.{reported, world};

use grid::Address;
use service::{Done, Outcome, Reason, Session};
use strict::{Procedure, Rule};
use weighing::Weighed;

// A start that is refused: no job open, all counts 0, by the first rule.
fn refused_start(why: Reason) -> Outcome
    ensures { (result.reply ≡ Err why) × (result.session ≡ empty_session) }
{
    Outcome {
        reply: Err(why),
        session: sessions::empty_session(),
    }
}

// Starts from a tile table with its count, by a rule. Clears the operation table, and writes the record of the second rule in front.
pub fn start(
    tiles: &[u32],
    count: usize,
    operations: &mut [u64],
    journal: &mut [u8],
    rule: Rule,
) -> Outcome
    ensures { reported result tiles.now operations.new journal.new
        ≡ start_call rule tiles.now count operations.old journal.old }
{
    if !soundness::can_start(tiles, count, operations, journal) {
        return refused_start(Reason::NotSound);
    }
    let written = journal::rule_size(rule);
    if journal.len() < written {
        return refused_start(Reason::NoJournalRoom);
    }
    operations.fill(0);
    journal::write_rule(journal, rule);
    let begun = soundness::fresh_session(rule, &tiles[..count]);
    Outcome {
        reply: Ok(Done {
            answer: false,
            turns: 0,
            last: 0,
        }),
        session: performing::advanced(begun, written),
    }
}

// Inserts a tile, deletes it or asks whether it is there.
pub fn operation(
    session: Session,
    tiles: &mut [u32],
    operations: &mut [u64],
    journal: &mut [u8],
    job: u8,
    sheet: u16,
    procedure: Procedure,
    address: Address,
) -> Outcome
    ensures { reported result tiles.new operations.new journal.new
        ≡ operation_call (world session tiles.old operations.old journal.old) job sheet procedure address }
{
    match weighing::operation_decision(
        session, tiles, operations, journal, job, procedure, address,
    ) {
        Ok(Weighed { spot, turns }) => performing::carry_out(
            session, tiles, operations, journal, job, sheet, procedure, spot, turns,
        ),
        Err(why) => Outcome {
            reply: Err(why),
            session,
        },
    }
}
