// Leads a path of a set's twin back to the set's transitions. The path is a file of 16-bit numbers, little-endian, of edges, and 65535 for time. Prints a line
// for each edge that came of a transition: cycle, chart, transition. A refusal's number and meaning go to standard error, and nothing is printed.
#![tactic(auto)]

ghost use Rattle.std.specs.Prelude.{◌≡◌, ◌*◌, ◌/◌, ◌≤◌, length};
ghost use Rattle.records.specs.Wrote.{Wrote};
ghost use Rattle.lead_back.specs.Path.{numbers};

use messages::files::refuse_set;
use messages::host::Host;
use messages::input::{Form, NAME_ROOM, argument, arguments, fill_or_tell, open_input, read_file};
use messages::texts::row_into;
use messages::words::{or_tell, print};
use records::sizes::FILE_ROOM;

// Whether it was written.
fn print_row(rt: &impl Host, cycle: u32, chart: u32, transition: u32) -> bool {
    let mut text = [0u8; NAME_ROOM];
    let size = row_into(&mut text, cycle, chart, transition);
    print(rt, &text[..size])
}

fn print_rows(rt: &impl Host, rows: &[u32], count: usize)
    requires { 3 * count ≤ length rows.now }
{
    for k in 0..count {
        if !print_row(rt, rows[3 * k], rows[3 * k + 1], rows[3 * k + 2]) {
            return;
        }
    }
}

fn lead(rt: &impl Host, s: &[u8], path: &[u16], rows: &mut [u32]) {
    match calls::sets::path_back(s, path, rows) {
        Err(w) => refuse_set(rt, s, w),
        Ok(n) => print_rows(rt, rows, n),
    }
}

// As many numbers as there are whole pairs of bytes, and room; answers how many.
fn put_path(bytes: &[u8], path: &mut [u16]) -> usize
    ensures wrote { Wrote path.old 0 (numbers result bytes.now) path.new result }
    ensures upper_bound { result ≤ length path.new }
    ensures value { length bytes.now ≤ 2 * length path.old → result ≡ length bytes.now / 2 }
{
    let count = path.len().min(bytes.len() / 2);
    for i in 0..count {
        path[i] = records::u16_at(bytes, 2 * i);
    }
    count
}

// A path has no more rows than steps, so there is room for all.
fn lead_path(rt: &impl Host, s: &[u8], bytes: &[u8]) {
    let mut path = [0u16; 131072];
    let mut rows = [0u32; 393216];
    let count = put_path(bytes, &mut path);
    lead(rt, s, &path[..count], &mut rows);
}

// Whether the file is a path that the program has room for; else it says so.
fn is_path(rt: &impl Host, name: &[u8], size: usize) -> bool {
    if 262144 < size {
        rt.tell(name);
        rt.tell(b": a path of more than 131,072 numbers\n");
        return false;
    }
    if size % 2 != 0 {
        rt.tell(name);
        rt.tell(b": a single byte after the last number of the path\n");
        return false;
    }
    true
}

// One byte more than the longest path is asked for.
fn lead_file(rt: &impl Host, s: &[u8], name: &[u8]) {
    let Some(mut input) = or_tell(rt, name, open_input(rt, name)) else {
        return
    };
    let mut bytes = [0u8; 262145];
    let Ok(size) = fill_or_tell(rt, name, &mut input, &mut bytes) else {
        return
    };
    if is_path(rt, name, size) {
        lead_path(rt, s, &bytes[..size]);
    }
}

fn lead_named(rt: &impl Host, set: &[u8], path: &[u8]) {
    let mut file = [0u8; FILE_ROOM];
    let Ok(size) = read_file(rt, set, &mut file, Form::Set) else {
        return
    };
    lead_file(rt, &file[..size], path);
}

fn main(rt: HostRuntime) {
    if !arguments(
        &rt,
        3,
        3,
        b"usage: lead_back SET PATH\nleads a path of the set's twin back: a row of cycle, chart and transition for each edge that came of a transition\n",
    ) {
        return;
    }
    let mut set = [0u8; NAME_ROOM];
    let Some(set_size) = argument(&rt, 1, &mut set) else {
        return
    };
    let mut path = [0u8; NAME_ROOM];
    let Some(path_size) = argument(&rt, 2, &mut path) else {
        return
    };
    lead_named(&rt, &set[..set_size], &path[..path_size]);
}
