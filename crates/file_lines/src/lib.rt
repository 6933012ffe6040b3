// Files that are accepted, shown a line for each record or each guard in file order: an automata table where its first record is of a table's kind, else a
// chart set. A refusal is told as `check_file` tells it, and then nothing is shown.
#![tactic(auto)]

ghost use Rattle.std.specs.Prelude.{◌≡◌, true, false, ◌*◌, ◌/◌, ◌≤◌, ◌<◌, leb, length};
ghost use Rattle.records.specs.Bytes.{byte};
ghost use Rattle.listing.specs.Guards.{line_room};
ghost use Rattle.listing.specs.Listing.{number_of, HasNodes};

use file_kinds::is_table;
use listing::{LINE_ROOM, guard_into, line_into};
use messages::host::Host;
use messages::input::{Form, read_file};
use messages::words::print;
use records::sizes::{FILE_ROOM, TABLE_RECORDS};
use refusals::{tell_set, tell_table};

// What is shown of a file: all records, or its guards alone. Two values, and no closure from the caller: it would ask what `wanted_into` asks, of a file that
// only this crate has checked.
#[derive(Clone, Copy)]
pub enum Wanted {
    Records,
    Guards,
}

fn wanted_into(out: &mut [u8], wanted: Wanted, s: &[u8], nodes: &[u8], n: usize, i: u32) -> usize
    requires { HasNodes s.now nodes.now × (n < length s.now / 16) × (i ≡ number_of s.now (byte s.now (16 * n)) n) }
    ensures { result ≤ line_room }
{
    match wanted {
        Wanted::Records => line_into(out, s, nodes, n, i),
        Wanted::Guards => guard_into(out, s, nodes, n, i),
    }
}

// Whether what is wanted of record n went to standard output; i of its kind are before it.
fn print_record(rt: &impl Host, wanted: Wanted, s: &[u8], nodes: &[u8], n: usize, i: u32) -> bool
    requires { HasNodes s.now nodes.now × (n < length s.now / 16) × (i ≡ number_of s.now (byte s.now (16 * n)) n) }
{
    let mut text = [0u8; LINE_ROOM];
    let size = wanted_into(&mut text, wanted, s, nodes, n, i);
    print(rt, &text[..size])
}

// How many records of each kind are behind is counted. No set or table has more records.
fn print_records(rt: &impl Host, wanted: Wanted, s: &[u8], nodes: &[u8])
    requires { HasNodes s.now nodes.now }
{
    let mut counts = [0u32; 256];
    for n in 0..TABLE_RECORDS.min(s.len() / 16) {
        let kind = s[16 * n] as usize;
        if !print_record(rt, wanted, s, nodes, n, counts[kind]) {
            return;
        }
        counts[kind] += 1;
    }
}

fn show_set(rt: &impl Host, wanted: Wanted, s: &[u8])
    requires { leb 33 (byte s.now 0) ≡ false }
{
    match chart_files::check(s) {
        Err(w) => tell_set(rt, s, w),
        Ok(shape) => {
            let nodes = chart_records::fields::node_records(s, shape);
            print_records(rt, wanted, s, nodes);
        }
    }
}

fn show_table(rt: &impl Host, wanted: Wanted, s: &[u8])
    requires { leb 33 (byte s.now 0) ≡ true }
{
    match automata_files::check(s) {
        Err(_) => tell_table(rt, s),
        Ok(shape) => {
            let nodes = automata_records::fields::node_records(s, shape);
            print_records(rt, wanted, s, nodes);
        }
    }
}

fn show_bytes(rt: &impl Host, wanted: Wanted, s: &[u8]) {
    if is_table(s) {
        show_table(rt, wanted, s);
    } else {
        show_set(rt, wanted, s);
    }
}

// A file by its name; - is standard input.
pub fn show_file(rt: &impl Host, wanted: Wanted, name: &[u8]) {
    let mut file = [0u8; FILE_ROOM];
    let Ok(size) = read_file(rt, name, &mut file, Form::Either) else {
        return
    };
    show_bytes(rt, wanted, &file[..size]);
}
