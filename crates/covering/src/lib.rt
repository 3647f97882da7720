// A rectangle in one call: its shape is judged, its tiles are listed, and the list is carried out, whole or not at all.
#![tactic(auto)]

ghost use Rattle.std.specs.Prelude.{◌≡◌, ◌≤◌};
ghost use Rattle.service.specs.Claims.{Serves};
ghost use Rattle.service.specs.Told.{told};
ghost use Rattle.service.specs.World.{reported, world};
ghost use Rattle.rectangles.specs.Rectangles.{keys as keys_of, listed, procedure_for, rectangle_call};
ghost use Rattle.placing.specs.Passes.{list_call};
ghost use Rattle.covering.specs.Asking.{Asks, turns_added};

use address::Level;
use rectangles::{Change, Rectangle};
use service::{Done, Outcome, Reason, Reply, Session};
use shapes::Shape;
use strict::Procedure;

// The procedure of a change.
fn procedure_for(change: Change) -> Procedure
    ensures { result ≡ procedure_for change }
{
    match change {
        Change::Insert => Procedure::Ins,
        Change::Delete => Procedure::Del,
    }
}

// Lists the tiles of a rectangle that has a shape, and carries them out.
fn carry_rectangle(
    session: Session,
    tiles: &mut [u32],
    operations: &mut [u64],
    journal: &mut [u8],
    job: u8,
    sheet: u16,
    procedure: Procedure,
    r: Rectangle,
    shape: Shape,
) -> Outcome
    requires { Asks (world session tiles.old operations.old journal.old) job r shape }
    ensures { reported result tiles.new operations.new journal.new
        ≡ list_call (world session tiles.old operations.old journal.old) job sheet procedure (keys_of (listed r)) }
{
    let mut keys = [0u32; 256];
    shapes::list_tiles(r, shape, &mut keys);
    let list = &keys[..shape.n as usize];
    placing::carry_list(
        session, tiles, operations, journal, job, sheet, procedure, list,
    )
}

// What a rectangle tells, once its list has been: where that is done, the turns of its first column and of its last.
fn with_turns(reply: Reply, r: Rectangle) -> Reply
    requires { r.zoom ≤ 14 }
    ensures { told result ≡ turns_added r (told reply) }
{
    reply?;
    let level = Level { zoom: r.zoom };
    Ok(Done {
        answer: false,
        turns: level.turns(r.west),
        last: level.turns(r.east),
    })
}

// Judges the shape of a rectangle, and carries it out where it has one.
fn carry_shaped(
    session: Session,
    tiles: &mut [u32],
    operations: &mut [u64],
    journal: &mut [u8],
    job: u8,
    sheet: u16,
    change: Change,
    r: Rectangle,
) -> Outcome
    requires { Serves (world session tiles.old operations.old journal.old) job }
    ensures { reported result tiles.new operations.new journal.new
        ≡ rectangle_call (world session tiles.old operations.old journal.old) job sheet change r }
{
    match shapes::shape_of(r) {
        Ok(shape) => {
            let procedure = procedure_for(change);
            let done = carry_rectangle(
                session, tiles, operations, journal, job, sheet, procedure, r, shape,
            );
            Outcome {
                reply: with_turns(done.reply, r),
                session: done.session,
            }
        }
        Err(flaw) => Outcome {
            reply: Err(Reason::from(flaw)),
            session,
        },
    }
}

// Inserts or deletes all tiles of a rectangle. Its first three tests are those of a commit.
pub fn rectangle(
    session: Session,
    tiles: &mut [u32],
    operations: &mut [u64],
    journal: &mut [u8],
    job: u8,
    sheet: u16,
    change: Change,
    r: Rectangle,
) -> Outcome
    ensures { reported result tiles.new operations.new journal.new
        ≡ rectangle_call (world session tiles.old operations.old journal.old) job sheet change r }
{
    let gate = decisions::end_reply(session, tiles, operations, journal, job);
    if gate.is_err() {
        return Outcome {
            reply: gate,
            session,
        };
    }
    carry_shaped(session, tiles, operations, journal, job, sheet, change, r)
}
