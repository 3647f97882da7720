// An entry of the operation table as one number: made of a sheet, a kind, a job and a key, and taken apart.
#![tactic(auto)]

ghost use Rattle.std.specs.Prelude.{◌≡◌, ◌≤◌};
ghost use Rattle.service.specs.Entry.{job_in, key_in, kind_in, op_in, pack_entry, sheet_in};
ghost use Rattle.layout.specs.Whose.{meant};

use service::{JOB_FACTOR, KIND_FACTOR, SHEET_FACTOR};

// Which of the entries are meant: all of them, or those of a job. As an `Option` of a job it would read worse: `None` would mean all.
#[derive(Clone, Copy)]
pub enum Whose {
    Anyones,
    Jobs(u8),
}

// sheet × 2^48 + kind × 2^40 + job × 2^32 + key
pub fn entry(sheet: u16, kind: usize, job: u8, key: u32) -> u64
    requires { kind ≤ 6 }
    ensures { result ≡ pack_entry sheet kind job key }
{
    u64::from(sheet) * SHEET_FACTOR
        + kind as u64 * KIND_FACTOR
        + u64::from(job) * JOB_FACTOR
        + u64::from(key)
}

pub fn sheet_in(e: u64) -> u16
    ensures { result ≡ sheet_in e }
{
    (e / SHEET_FACTOR) as u16
}

// A number, of which 1 to 6 are kinds: a lent entry may hold any from 0 to 255, and the report's `kind`, `pack_entry`, the table of commutativity and
// sanbirogu's `entry_kind` speak of the number.
pub fn kind_in(e: u64) -> usize
    ensures { result ≡ kind_in e }
{
    (e / KIND_FACTOR % 256) as usize
}

pub fn job_in(e: u64) -> u8
    ensures { result ≡ job_in e }
{
    (e / JOB_FACTOR % 256) as u8
}

pub fn key_in(e: u64) -> u32
    ensures { result ≡ key_in e }
{
    (e % JOB_FACTOR) as u32
}

// Whether an entry is one of those that are meant.
pub fn is_meant(e: u64, whose: Whose) -> bool
    ensures { result ≡ meant whose (op_in e) }
{
    match whose {
        Whose::Anyones => true,
        Whose::Jobs(job) => job == job_in(e),
    }
}
