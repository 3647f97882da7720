// A session by itself, without its tables.
#![tactic(auto)]

ghost use Rattle.std.specs.Prelude.{◌≡◌};
ghost use Rattle.service.specs.Calls.{empty_session, unopened};
ghost use Rattle.service.specs.World.{count_at};

use address::Level;
use service::Session;
use strict::Rule;

// A session of so many tiles, with no job open, nothing admitted and nothing written.
pub fn unopened_session(rule: Rule, count: usize, levels: [usize; 11]) -> Session
    ensures { result ≡ unopened rule count levels }
{
    Session {
        rule,
        marks: [false; 64],
        tiles: count,
        operations: 0,
        journal: 0,
        levels,
        spoken: 0,
    }
}

// The session of no tiles, by the first rule.
pub fn empty_session() -> Session
    ensures { result ≡ empty_session }
{
    unopened_session(Rule::Alone, 0, [0; 11])
}

// The tiles of a zoom, as the session has them to hand: 0 where it is none.
pub fn tiles_of_zoom(session: Session, zoom: u8) -> usize
    ensures { result ≡ count_at session zoom }
{
    match zoom {
        Level::LOWEST..=Level::HIGHEST => session.levels[usize::from(zoom - Level::LOWEST)],
        _ => 0,
    }
}
