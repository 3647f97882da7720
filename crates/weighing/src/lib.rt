// What an operation comes to, decided before anything is written.
#![tactic(auto)]

ghost use Rattle.service.specs.Sound.{Sound};
ghost use Rattle.service.specs.World.{world};
ghost use Rattle.weighing.specs.Decides.{Decides, Judges};

use grid::{Address, Keyed};
use service::{OPERATION_SIZE, Reason, SHORT_SIZE, Session};
use strict::Procedure;
use tiles::Spot;

// An operation that is to be performed: what the search for its tile found, and the turns of its column.
#[derive(Clone, Copy)]
pub struct Weighed {
    pub spot: Spot,
    pub turns: i32,
}

// What an operation with a key comes to, on sound tables.
fn judge_keyed(
    session: Session,
    tiles: &[u32],
    operations: &[u64],
    journal: &[u8],
    job: u8,
    procedure: Procedure,
    key: u32,
) -> Result<Spot, Reason>
    requires { Sound (world session tiles.now operations.now journal.now) }
    ensures { Judges (world session tiles.now operations.now journal.now) job procedure key result }
{
    let spot = admission::admit(session, tiles, operations, job, procedure, key)?;
    let left = journal.len() - session.journal;
    if left < OPERATION_SIZE + SHORT_SIZE * scans::open_jobs(session) {
        return Err(Reason::NoJournalRoom);
    }
    Ok(spot)
}

// What an operation comes to. Its first three tests are those of a commit.
pub fn operation_decision(
    session: Session,
    tiles: &[u32],
    operations: &[u64],
    journal: &[u8],
    job: u8,
    procedure: Procedure,
    address: Address,
) -> Result<Weighed, Reason>
    ensures { Decides (world session tiles.now operations.now journal.now) job procedure address result }
{
    decisions::end_reply(session, tiles, operations, journal, job)?;
    let Keyed { key, turns } = address::locate(address)?;
    let spot = judge_keyed(session, tiles, operations, journal, job, procedure, key)?;
    Ok(Weighed { spot, turns })
}
