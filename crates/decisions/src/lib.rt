// What an open or the end of a job replies, decided before anything is written.
#![tactic(auto)]

ghost use Rattle.std.specs.Prelude.{false, ◌≡◌, pos};
ghost use Rattle.service.specs.Calls.{end_refusals, open_refusals};
ghost use Rattle.service.specs.Told.{decided, done, told};
ghost use Rattle.service.specs.World.{world};

use service::{Done, LAST_JOB, Reason, Reply, SHORT_SIZE, Session};

// What an open replies.
pub fn open_reply(
    session: Session,
    tiles: &[u32],
    operations: &[u64],
    journal: &[u8],
    job: u8,
) -> Reply
    ensures { told result ≡ decided (open_refusals (world session tiles.now operations.now journal.now) job) (done false (pos 0)) }
{
    if !soundness::sound(session, tiles, operations, journal) {
        return Err(Reason::NotSound);
    }
    if LAST_JOB < job {
        return Err(Reason::NoSuchJob);
    }
    let place = job as usize;
    if session.marks[place] {
        return Err(Reason::AlreadyOpen);
    }
    let used = session.journal;
    let open = scans::open_jobs(session);
    if journal.len() - used < SHORT_SIZE + SHORT_SIZE * (open + 1) {
        return Err(Reason::NoJournalRoom);
    }
    Ok(Done {
        answer: false,
        turns: 0,
        last: 0,
    })
}

// What a commit or an abort replies.
pub fn end_reply(
    session: Session,
    tiles: &[u32],
    operations: &[u64],
    journal: &[u8],
    job: u8,
) -> Reply
    ensures { told result ≡ decided (end_refusals (world session tiles.now operations.now journal.now) job) (done false (pos 0)) }
{
    if !soundness::sound(session, tiles, operations, journal) {
        return Err(Reason::NotSound);
    }
    if LAST_JOB < job {
        return Err(Reason::NoSuchJob);
    }
    let place = job as usize;
    if !session.marks[place] {
        return Err(Reason::NotOpen);
    }
    Ok(Done {
        answer: false,
        turns: 0,
        last: 0,
    })
}
