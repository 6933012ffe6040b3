// What a file is by its kinds, before it is checked: a set or a table, and why one that is longer than any set is refused.
#![tactic(auto)]

ghost use Rattle.std.specs.Prelude.{◌≡◌, leb};
ghost use Rattle.records.specs.Bytes.{byte};
ghost use Rattle.records.specs.RefusalOf.{refusal_of};
ghost use Rattle.file_kinds.specs.Files.{is_dash, kind_seen, seen_as};
ghost use Rattle.file_kinds.specs.LongFiles.{last_kind_in, long_refusal};

use records::byte_at;
use records::refusals::Refusal;

// Whether a name is - alone.
pub fn is_dash(name: &[u8]) -> bool
    ensures { result ≡ is_dash name.now }
{
    name == b"-".as_slice()
}

// What a file seems to be, by its first byte, which is the kind of its first record.
#[derive(Clone, Copy)]
pub enum Seen {
    Empty,
    Set,
    Table,
    Neither,
}

// By the kind of its first record.
fn kind_seen(kind: u8) -> Seen
    ensures { result ≡ kind_seen kind }
{
    match kind {
        1..=6 => Seen::Set,
        33..=41 => Seen::Table,
        _ => Seen::Neither,
    }
}

pub fn seen_as(s: &[u8]) -> Seen
    ensures { result ≡ seen_as s.now }
{
    match s.first() {
        None => Seen::Empty,
        Some(&kind) => kind_seen(kind),
    }
}

// Whether the first record is of a table's kinds, from 33 on.
pub fn is_table(s: &[u8]) -> bool
    ensures { result ≡ leb 33 (byte s.now 0) }
{
    33 <= byte_at(s, 0)
}

// The last kind of the whole records after a kind that came before them; None where they descend from it or one is unknown.
pub fn last_kind(s: &[u8], before: Option<u8>) -> Option<u8>
    ensures { result ≡ last_kind_in s.now before }
{
    let mut last = before?;
    for i in 0..s.len() / 16 {
        let k = s[16 * i];
        if (k < last) | (6 < k) {
            return None;
        }
        last = k;
    }
    Some(last)
}

// Its parts are full but for the last; what they are full of is whole records.
pub fn long_refusal(size: usize, last: Option<u8>) -> Refusal
    ensures { refusal_of result ≡ long_refusal size last }
{
    if size % 16 != 0 {
        return Refusal::OddLength;
    }
    match last {
        None => Refusal::UnorderedKinds,
        Some(_) => Refusal::WrongAmounts,
    }
}
