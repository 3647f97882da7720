// The commands that call the service.
use crate::outside;
use sanbirogu::{Outcome, Session};
use script::Call;
use terminal::Output;

fn answered(out: &mut Output, outcome: Outcome) -> Session {
    answers::print_reply(out, "reply ", outcome.reply);
    outcome.session
}

fn answered_whole(out: &mut Output, outcome: Outcome) -> Session {
    answers::print_whole(out, outcome.reply);
    outcome.session
}

fn begin(
    out: &mut Output,
    session: Session,
    tiles: &[u32],
    operations: &mut [u64],
    journal: &mut [u8],
    count: usize,
    number: u8,
) -> Session {
    match outside::rule_of(number) {
        None => {
            answers::refuse(out);
            session
        }
        Some(rule) => answered(
            out,
            sanbirogu::start(tiles, count, operations, journal, rule),
        ),
    }
}

// Answers one call on what is lent.
pub fn answer(
    out: &mut Output,
    call: Call,
    session: Session,
    tiles: &mut [u32],
    operations: &mut [u64],
    journal: &mut [u8],
) -> Session {
    let outcome = match call {
        Call::Start { count, rule } => {
            return begin(out, session, tiles, operations, journal, count, rule)
        }
        Call::Rectangle {
            job,
            sheet,
            change,
            area,
        } => {
            return answered_whole(
                out,
                sanbirogu::rectangle(
                    session, tiles, operations, journal, job, sheet, change, area,
                ),
            )
        }
        Call::Open(job) => sanbirogu::open(session, tiles, operations, journal, job),
        Call::Commit(job) => sanbirogu::commit(session, tiles, operations, journal, job),
        Call::Abort(job) => sanbirogu::abort(session, tiles, operations, journal, job),
        Call::Operation {
            job,
            sheet,
            procedure,
            address,
        } => sanbirogu::operation(
            session, tiles, operations, journal, job, sheet, procedure, address,
        ),
    };
    answered(out, outcome)
}
