// Replays a table of automata: the file named, or twin.bin in the folder that it is run in. Reads event masks of four bytes, little-endian, from standard
// input; plays a cycle for each mask and prints a line for each automaton's turn: cycle, automaton, edge, location after, variables. It stops at a refusal
// or fault, whose number and meaning go to standard error, at a partial mask, or at the end.
#![tactic(auto)]

ghost use Rattle.automata_steps.specs.Prepared.{Prepared};

use automata::runs::{Run, start};
use automata_files::check;
use automata_records::Shape;
use automata_steps::index::index_of;
use messages::files::refuse_table;
use messages::host::Host;
use messages::input::{Form, NAME_ROOM, argument, argument_count, arguments, next_mask, read_file};
use messages::words::{print, tell_stop};
use records::sizes::{FILE_ROOM, TABLE_KEYS, TABLE_RECORDS, TableHeads};
use replays::twins::cycle_into;

// A cycle for a mask: its lines go out, and then its refusal or fault, if it has one. None where there is no further one.
fn play_mask(
    rt: &impl Host,
    s: &[u8],
    shape: Shape,
    first: &TableHeads,
    next: &[u16],
    run: Run,
    mask: u32,
) -> Option<Run>
    requires { Prepared s.now shape first.now next.now }
{
    let mut text = [0u8; NAME_ROOM];
    let lined = cycle_into(s, shape, first, next, run, mask, &mut text);
    let size = lined.size;
    if !print(rt, &text[..size]) {
        return None;
    }
    match lined.answer {
        Ok(()) => Some(lined.run),
        Err(why) => {
            tell_stop(rt, why);
            None
        }
    }
}

// Refusal 14 ends any replay long before the count of turns does.
fn play(rt: &impl Host, s: &[u8], shape: Shape, first: &TableHeads, next: &[u16])
    requires { Prepared s.now shape first.now next.now }
{
    let mut input = rt.reader();
    let mut run = start(s, shape);
    for _ in 0..u64::MAX {
        let Some(mask) = next_mask(rt, &mut input) else {
            return
        };
        let Some(after) = play_mask(rt, s, shape, first, next, run, mask) else {
            return
        };
        run = after;
    }
}

// The file is checked once.
fn play_file(rt: &impl Host, s: &[u8]) {
    match check(s) {
        Err(w) => refuse_table(rt, s, w),
        Ok(shape) => {
            let mut first = [65535u16; TABLE_KEYS];
            let mut next = [65535u16; TABLE_RECORDS];
            index_of(s, shape, &mut first, &mut next);
            play(rt, s, shape, &first, &next);
        }
    }
}

fn play_named(rt: &impl Host, name: &[u8]) {
    let mut file = [0u8; FILE_ROOM];
    let Ok(size) = read_file(rt, name, &mut file, Form::Table) else {
        return
    };
    play_file(rt, &file[..size]);
}

fn main(rt: HostRuntime) {
    if !arguments(
        &rt,
        1,
        2,
        b"usage: replay_twin [TWIN]\nreplays an automata table, twin.bin where none is named, by event masks of four bytes from standard input\n",
    ) {
        return;
    }
    if argument_count(&rt, 2) < 2 {
        play_named(&rt, b"twin.bin");
        return;
    }
    let mut name = [0u8; NAME_ROOM];
    let Some(size) = argument(&rt, 1, &mut name) else {
        return
    };
    play_named(&rt, &name[..size]);
}
