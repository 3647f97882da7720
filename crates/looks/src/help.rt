use terminal::Output;

// What each command is for, with its numbers.
pub fn print_commands(out: &mut Output) {
    out.write_all(
        b"\
lend TILES OPERATIONS BYTES   lend so many places (5000, 1200, 66000 at most), all 0
start COUNT RULE              start on the first COUNT tiles, by rule 1 or 2
open JOB                      open a job, 0 to 63
ins JOB SHEET EDITION ZOOM COLUMN ROW
                              insert a tile; del deletes it, mem asks for it;
                              edition 1 counts rows from the south, 2 from the north
insall JOB SHEET EDITION ZOOM WEST EAST TOP BOTTOM
                              insert a rectangle of tiles; delall deletes it
commit JOB                    commit a job; abort aborts it
address EDITION ZOOM COLUMN ROW
                              the key of a tile, and how far round its column goes
read PLACE                    the record at a place of the journal
replay COUNT LENGTH           replay so many journal bytes onto COUNT tiles
mend COUNT LENGTH ROOM        mend so many journal bytes into ROOM bytes
levels                        the tiles of each zoom, 4 to 14, and the places spoken for
sum                           one number for the session and all that is lent
show                          the session, its tables and its journal in words
help                          these lines
tile PLACE KEY                put a key into the tile table, past the service
entry PLACE ENTRY             put an entry into the operations table
byte PLACE BYTE               put a byte into the journal
tiles COUNT                   set the count of tiles; operations, journal alike
mark JOB BIT                  set an open mark, 0 or 1
rule RULE                     set the rule, 1 or 2
level ZOOM COUNT              set the count of a zoom, 4 to 14
spoken COUNT                  set the count of the places spoken for
Any other line is answered ? and changes nothing.
",
    );
}
