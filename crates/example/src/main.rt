// The README's example: three lent buffers, a tile and a sheet in one job, and what the journal then replays to.
#![tactic(auto)]

use answers::print_reply;
use sanbirogu::{Address, Change, Procedure, Rectangle, Rule};
use std::io;
use terminal::Output;

// A tile left of 180 degrees, and what a sheet covers that crosses it.
fn place() -> Address {
    Address {
        edition: 2,
        zoom: 4,
        column: -1,
        row: 5,
    }
}

fn covered() -> Rectangle {
    Rectangle {
        edition: 2,
        zoom: 8,
        west: -2,
        east: 1,
        top: 100,
        bottom: 103,
    }
}

fn main(rt: HostRuntime) -> io::Result<()> {
    let mut out = Output::new(rt.stdout());
    let mut tiles = [0u32; 4096];
    let mut operations = [0u64; 1024];
    let mut journal = [0u8; 65536];
    let begun = sanbirogu::start(&tiles, 0, &mut operations, &mut journal, Rule::Together);
    let opened = sanbirogu::open(begun.session, &tiles, &operations, &mut journal, 3);
    let put = sanbirogu::operation(
        opened.session,
        &mut tiles,
        &mut operations,
        &mut journal,
        3,
        1204,
        Procedure::Ins,
        place(),
    );
    print_reply(&mut out, "insert: ", put.reply);
    let put_all = sanbirogu::rectangle(
        put.session,
        &mut tiles,
        &mut operations,
        &mut journal,
        3,
        1205,
        Change::Insert,
        covered(),
    );
    let ended = sanbirogu::commit(put_all.session, &tiles, &mut operations, &mut journal, 3);
    print_reply(&mut out, "commit: ", ended.reply);
    let session = ended.session;
    writeln!(
        out,
        "tiles: {}, journal bytes: {}",
        session.tiles, session.journal
    );
    out.end()
}
