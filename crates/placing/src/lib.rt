// The operations on a list of keys: judged as a whole before a byte is written, and then carried out, with one pass over the tiles.
#![tactic(auto)]

ghost use Rattle.std.specs.Prelude.{◌≡◌};
ghost use Rattle.strict.specs.Tiles.{Ascending};
ghost use Rattle.service.specs.World.{reported, world};
ghost use Rattle.rectangles.specs.Fitting.{Ahead};
ghost use Rattle.rectangles.specs.Rectangles.{carried_all};
ghost use Rattle.placing.specs.Passes.{Carries, list_call};

use service::{Outcome, Session};
use strict::Procedure;

// Carries out the operations on a run of keys that all may happen: what is written of each, and then the tiles in one pass.
fn place_run(
    session: Session,
    tiles: &mut [u32],
    operations: &mut [u64],
    journal: &mut [u8],
    job: u8,
    sheet: u16,
    procedure: Procedure,
    keys: &[u32],
) -> Session
    requires { Ahead job sheet procedure (world session tiles.old operations.old journal.old) keys.now
        (world session tiles.old operations.old journal.old) keys.now
        × Ascending keys.now }
    ensures { world result tiles.new operations.new journal.new
        ≡ carried_all (world session tiles.old operations.old journal.old) job sheet procedure keys.now }
{
    let reached = noting::note_all(
        session, tiles, operations, journal, job, sheet, procedure, keys,
    );
    runs::affect_run(tiles, session.tiles, procedure, keys, reached.tiles);
    reached
}

// Carries out the operations on a list of keys that all may happen, run after run: a rectangle has one, and two where it crosses 180 degrees.
fn place_all(
    session: Session,
    tiles: &mut [u32],
    operations: &mut [u64],
    journal: &mut [u8],
    job: u8,
    sheet: u16,
    procedure: Procedure,
    keys: &[u32],
) -> Session
    requires { Ahead job sheet procedure (world session tiles.old operations.old journal.old) keys.now
        (world session tiles.old operations.old journal.old) keys.now }
    ensures { world result tiles.new operations.new journal.new
        ≡ carried_all (world session tiles.old operations.old journal.old) job sheet procedure keys.now }
{
    let mut reached = session;
    let mut rest = keys;
    while !rest.is_empty() {
        let (run, later) = rest.split_at(runs::run_end(rest));
        reached = place_run(
            reached, tiles, operations, journal, job, sheet, procedure, run,
        );
        rest = later;
    }
    reached
}

// Carries out the operations on a list of keys, whole or not at all.
pub fn carry_list(
    session: Session,
    tiles: &mut [u32],
    operations: &mut [u64],
    journal: &mut [u8],
    job: u8,
    sheet: u16,
    procedure: Procedure,
    keys: &[u32],
) -> Outcome
    requires { Carries (world session tiles.old operations.old journal.old) job keys.now }
    ensures { reported result tiles.new operations.new journal.new
        ≡ list_call (world session tiles.old operations.old journal.old) job sheet procedure keys.now }
{
    let reply = judging::judge_list(session, tiles, operations, journal, job, procedure, keys);
    if reply.is_err() {
        return Outcome { reply, session };
    }
    Outcome {
        reply,
        session: place_all(
            session, tiles, operations, journal, job, sheet, procedure, keys,
        ),
    }
}
