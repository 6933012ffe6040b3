// Compares a chart set with its twin: the set is translated, and the same calls are made on both, from fresh runs: a cycle for each event mask, then a turn for
// each, then all cycles as one long run. Event masks of four bytes, little-endian, come from standard input; a last partial one is left out. After each call
// answers and runs are compared. It is proved that they never differ; here it is seen, on one's own set and events.
#![tactic(auto)]

ghost use Rattle.std.specs.Prelude.{◌≡◌, ◌*◌, ◌/◌, ◌≤◌, length};
ghost use Rattle.records.specs.Wrote.{Wrote};
ghost use Rattle.compare.specs.Masks.{masks_in};

use messages::files::refuse_set;
use messages::host::Host;
use messages::input::{Form, NAME_ROOM, argument, arguments, fill_or_tell, read_file};
use messages::words::{or_tell, print};
use records::sizes::{FILE_ROOM, LONGEST_TABLE};
use twins::Verdict;

// Whether it was written; else that is told.
fn print_number(rt: &impl Host, n: usize) -> bool {
    or_tell(rt, b"standard output", rt.print(n)).is_some()
}

// Whether they were alike: what was compared, and how many calls were made.
fn tell(rt: &impl Host, s: &[u8], what: &[u8], verdict: Verdict) -> bool {
    match verdict {
        Verdict::Refused(w) => {
            refuse_set(rt, s, w);
            false
        }
        Verdict::Alike(n) => {
            print(rt, what)
                && print(rt, b": alike, ")
                && print_number(rt, n)
                && print(rt, b" calls\n")
        }
        Verdict::Differ(k) => {
            rt.tell(what);
            rt.tell(b": set and twin differ at call ");
            let _ = rt.eprint(k);
            rt.tell(b"\n");
            false
        }
    }
}

// Of kinds, 0 is a turn; past their end calls are cycles.
fn compare_masks(rt: &impl Host, s: &[u8], masks: &[u32]) {
    let mut twin = [0u8; LONGEST_TABLE];
    let kinds = [0u8; 65536];
    let cycles = twins::compare(s, b"", masks, &mut twin);
    let by_cycles = cycles.verdict;
    if !tell(rt, s, b"cycles", by_cycles) {
        return;
    }
    let turns = twins::compare(s, &kinds, masks, &mut twin);
    let by_turns = turns.verdict;
    if !tell(rt, s, b"turns", by_turns) {
        return;
    }
    let played = twins::compare_plays(s, masks, &mut twin);
    let by_plays = played.verdict;
    tell(rt, s, b"long run", by_plays);
}

// As many masks as there are whole ones in the bytes, and room; answers how many.
fn put_masks(bytes: &[u8], masks: &mut [u32]) -> usize
    ensures wrote { Wrote masks.old 0 (masks_in result bytes.now) masks.new result }
    ensures upper_bound { result ≤ length masks.new }
    ensures value { length bytes.now ≤ 4 * length masks.old → result ≡ length bytes.now / 4 }
{
    let count = masks.len().min(bytes.len() / 4);
    for i in 0..count {
        masks[i] = records::u32_at(bytes, 4 * i);
    }
    count
}

fn compare_bytes(rt: &impl Host, s: &[u8], bytes: &[u8]) {
    let mut masks = [0u32; 65536];
    let count = put_masks(bytes, &mut masks);
    compare_masks(rt, s, &masks[..count]);
}

fn compare_file(rt: &impl Host, s: &[u8]) {
    let mut bytes = [0u8; 262144];
    let Ok(size) = fill_or_tell(rt, b"standard input", &mut rt.reader(), &mut bytes) else {
        return
    };
    compare_bytes(rt, s, &bytes[..size]);
}

fn compare_named(rt: &impl Host, name: &[u8]) {
    let mut file = [0u8; FILE_ROOM];
    let Ok(size) = read_file(rt, name, &mut file, Form::Set) else {
        return
    };
    compare_file(rt, &file[..size]);
}

fn main(rt: HostRuntime) {
    if !arguments(
        &rt,
        2,
        2,
        b"usage: compare SET\ncompares a chart set with its twin, call by call, by at most 65,536 event masks of four bytes from standard input\n",
    ) {
        return;
    }
    let mut name = [0u8; NAME_ROOM];
    let Some(size) = argument(&rt, 1, &mut name) else {
        return
    };
    compare_named(&rt, &name[..size]);
}
