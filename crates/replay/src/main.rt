// Replays a chart set: the file named, or set.bin in the folder that it is run in. Reads event masks of four bytes, little-endian, from standard
// input; plays a cycle for each mask and prints a line for each chart's turn: cycle, chart, transition or -, state after, variables. It stops at a refusal
// or fault, whose number and meaning go to standard error, at a partial mask, or at the end.
#![tactic(auto)]

ghost use Rattle.chart_steps.specs.Prepared.{Prepared};

use chart_files::check;
use chart_records::Shape;
use chart_runs::{Run, start};
use chart_steps::tables::{Tables, fill_tables, no_tables};
use messages::files::refuse_set;
use messages::host::Host;
use messages::input::{Form, NAME_ROOM, argument, argument_count, arguments, next_mask, read_file};
use messages::words::{print, tell_stop};
use records::sizes::FILE_ROOM;
use replays::sets::cycle_into;

// A cycle for a mask: its lines go out, and then its refusal or fault, if it has one. None where there is no further one.
fn play_mask(
    rt: &impl Host,
    s: &[u8],
    shape: Shape,
    tables: &Tables,
    run: Run,
    mask: u32,
) -> Option<Run>
    requires { Prepared s.now shape tables.now }
{
    let mut text = [0u8; NAME_ROOM];
    let lined = cycle_into(s, shape, tables, run, mask, &mut text);
    let size = lined.size;
    if !print(rt, &text[..size]) {
        return None;
    }
    match lined.answer {
        Ok(()) => Some(lined.run),
        Err(why) => {
            tell_stop(rt, why);
            None
        }
    }
}

// Refusal 14 ends any replay long before the count of turns does.
fn play(rt: &impl Host, s: &[u8], shape: Shape, tables: &Tables)
    requires { Prepared s.now shape tables.now }
{
    let mut input = rt.reader();
    let mut run = start(s, shape);
    for _ in 0..u64::MAX {
        let Some(mask) = next_mask(rt, &mut input) else {
            return
        };
        let Some(after) = play_mask(rt, s, shape, tables, run, mask) else {
            return
        };
        run = after;
    }
}

// The file is checked once.
fn play_file(rt: &impl Host, s: &[u8]) {
    match check(s) {
        Err(w) => refuse_set(rt, s, w),
        Ok(shape) => {
            let mut tables = no_tables();
            fill_tables(s, shape, &mut tables);
            play(rt, s, shape, &tables);
        }
    }
}

fn play_named(rt: &impl Host, name: &[u8]) {
    let mut file = [0u8; FILE_ROOM];
    let Ok(size) = read_file(rt, name, &mut file, Form::Set) else {
        return
    };
    play_file(rt, &file[..size]);
}

fn main(rt: HostRuntime) {
    if !arguments(
        &rt,
        1,
        2,
        b"usage: replay [SET]\nreplays a chart set, set.bin where none is named, by event masks of four bytes from standard input\n",
    ) {
        return;
    }
    if argument_count(&rt, 2) < 2 {
        play_named(&rt, b"set.bin");
        return;
    }
    let mut name = [0u8; NAME_ROOM];
    let Some(size) = argument(&rt, 1, &mut name) else {
        return
    };
    play_named(&rt, &name[..size]);
}
