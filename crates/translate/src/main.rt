// Translates a chart set into its automata twin, which it writes to a file, and tells the twin's length and how many records it has of each kind. The file is
// made, or emptied, only once the twin is there, and without --force never where an accepted chart set stands, such as the set itself under any name. Where the
// file is -, the twin goes to standard output, and nothing else does. A refusal's number and meaning go to standard error.
#![tactic(auto)]

ghost use Rattle.std.specs.Prelude.{◌≤◌, length};
ghost use Rattle.model.specs.Limits.{longest_table};

use automata_files::shape_of;
use automata_records::Shape;
use file_kinds::is_dash;
use messages::files::refuse_set;
use messages::host::Host;
use messages::input::{
    Form, NAME_ROOM, argument, argument_count, argument_or_empty, fill, path_of, read_file,
};
use messages::texts::written_into;
use messages::words::{or_tell, print};
use records::sizes::{FILE_ROOM, LONGEST_TABLE};
use std::io::Read;
use std::{fs, io};

fn print_written(rt: &impl Host, size: u32, shape: Shape) {
    let mut text = [0u8; NAME_ROOM];
    let length = written_into(&mut text, size, shape);
    print(rt, &text[..length]);
}

fn put_file(rt: &impl Host, name: &[u8], bytes: &[u8]) -> io::Result<()> {
    fs::write(rt, path_of(name)?, bytes)
}

// Whether all of it was written; else that is told.
fn write_file(rt: &impl Host, name: &[u8], bytes: &[u8]) -> bool {
    or_tell(rt, name, put_file(rt, name, bytes)).is_some()
}

// Whether what is read is an accepted set. No set fills the buffer.
fn is_set(input: &mut impl Read) -> bool {
    let mut file = [0u8; FILE_ROOM];
    match fill(input, &mut file) {
        Ok(size) => chart_files::check(&file[..size]).is_ok(),
        Err(_) => false,
    }
}

fn open_named<R: Host>(rt: &R, name: &[u8]) -> io::Result<R::File> {
    fs::open(rt, path_of(name)?)
}

// Whether the file of that name is there, can be read, and is an accepted set. The buffer is cleared only where there is one.
fn holds_set(rt: &impl Host, name: &[u8]) -> bool {
    match open_named(rt, name) {
        Ok(mut input) => is_set(&mut input),
        Err(_) => false,
    }
}

// Whether the file may be written; else it is told why not.
fn may_write(rt: &impl Host, name: &[u8], force: bool) -> bool {
    if force {
        return true;
    }
    if holds_set(rt, name) {
        rt.tell(name);
        rt.tell(b": an accepted chart set stands there; --force writes over it\n");
        return false;
    }
    true
}

fn write_twin(rt: &impl Host, name: &[u8], force: bool, twin: &[u8])
    requires { length twin.now ≤ longest_table }
{
    if is_dash(name) {
        print(rt, twin);
        return;
    }
    if !may_write(rt, name, force) {
        return;
    }
    if !write_file(rt, name, twin) {
        return;
    }
    if let Ok(shape) = shape_of(twin) {
        print_written(rt, twin.len() as u32, shape);
    }
}

// No twin is longer than this.
fn translate_into(rt: &impl Host, s: &[u8], name: &[u8], force: bool, twin: &mut [u8])
    requires { length twin.old ≤ longest_table }
{
    match calls::sets::translate(s, twin) {
        Err(w) => refuse_set(rt, s, w),
        Ok(n) => write_twin(rt, name, force, &twin[..n]),
    }
}

fn translate_file(rt: &impl Host, s: &[u8], name: &[u8], force: bool) {
    let mut twin = [0u8; LONGEST_TABLE];
    translate_into(rt, s, name, force, &mut twin);
}

fn translate_named(rt: &impl Host, set: &[u8], twin: &[u8], force: bool) {
    let mut file = [0u8; FILE_ROOM];
    let Ok(size) = read_file(rt, set, &mut file, Form::Set) else {
        return
    };
    translate_file(rt, &file[..size], twin, force);
}

// The names are the arguments of those numbers.
fn translate_arguments(rt: &impl Host, set_at: usize, twin_at: usize, force: bool) {
    let mut set = [0u8; NAME_ROOM];
    let Some(set_size) = argument(rt, set_at, &mut set) else {
        return
    };
    let mut twin = [0u8; NAME_ROOM];
    let Some(twin_size) = argument(rt, twin_at, &mut twin) else {
        return
    };
    translate_named(rt, &set[..set_size], &twin[..twin_size], force);
}

fn is_force(word: &[u8]) -> bool {
    word == b"--force".as_slice()
}

// Whether the first argument is --force.
fn forced(rt: &impl Host) -> bool {
    let mut word = [0u8; NAME_ROOM];
    let size = argument_or_empty(rt, 1, &mut word);
    is_force(&word[..size])
}

fn main(rt: HostRuntime) {
    let count = argument_count(&rt, 5);
    if (count == 4) & forced(&rt) {
        translate_arguments(&rt, 2, 3, true);
    } else if (count == 3) & !forced(&rt) {
        translate_arguments(&rt, 1, 2, false);
    } else {
        rt.tell(
            b"usage: translate [--force] SET TWIN\ntranslates a chart set into its automata twin, which is written to the file TWIN; over an accepted chart set only with --force\n",
        );
    }
}
