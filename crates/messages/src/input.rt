// Arguments and files: a file named by an argument, - for standard input, read whole; one that is longer than any set or table is refused as it is read.
ghost use Rattle.std.specs.Prelude.{◌≡◌, ◌≤◌, ◌<◌, IfErr, IfOk, IfSome, None, Some, length};
ghost use Rattle.records.specs.Bytes.{four};
ghost use Rattle.messages.specs.Counts.{IsPrefixLen};

use crate::files::tell_file;
use crate::host::Host;
use crate::words::{or_tell, tell_failed};
use file_kinds::{Seen, is_dash, is_table, last_kind, long_refusal, seen_as};
use records::refusals::Refusal;
use std::env::FillError;
use std::io::{Error, Read};
use std::{fs, io, str};

// Holds any path. Here and in the programs buffers have a fixed size: a file or name that is longer is refused as it is read, and nothing fails by memory.
pub const NAME_ROOM: usize = 4096;

// The system's numbers of errors that this layer finds itself.
const INVALID_ARGUMENT: i32 = 22;

const NAME_TOO_LONG: i32 = 36;

const NOT_TEXT: i32 = 84;

// What is read: a file that was opened, or standard input.
#[derive(Drop)]
pub enum Source<F, I> {
    File(F),
    Input(I),
}

impl<F: Read, I: Read> Read for Source<F, I> {
    fn read(&mut self, buf: &mut [u8]) -> io::Result<usize> {
        match self {
            Source::File(file) => file.read(buf),
            Source::Input(input) => input.read(buf),
        }
    }
}

// Why a read failed, and how many bytes had come before it.
#[derive(Clone, Copy)]
pub struct ReadFailed {
    pub why: Error,
    pub size: usize,
}

// What a file is read as; either is told by the first record's kind. A value that is passed on, and no choice of a step: what is said of a refused file
// depends on it and on what the file seems to be.
#[derive(Clone, Copy)]
pub enum Form {
    Set,
    Table,
    Either,
}

// ---- arguments

fn is_argument(rt: &impl Host, i: usize) -> bool {
    let mut start = [0u8; 1];
    match rt.arg(i, &mut start) {
        Ok(_) => true,
        Err(FillError::TooLong) => true,
        Err(FillError::NotPresent) => false,
    }
}

// How many there are, the program's own name among them, of which no more than `most` are counted.
pub fn argument_count(rt: &impl Host, most: usize) -> usize
    ensures { result ≤ most }
{
    for i in 0..most {
        if !is_argument(rt, i) {
            return i;
        }
    }
    most
}

// Whether there are from `least` to `most`, the program's own name among them; else its usage is told.
pub fn arguments(rt: &impl Host, least: usize, most: usize, usage: &[u8]) -> bool {
    let count = argument_count(rt, most.saturating_add(1));
    if (count < least) | (most < count) {
        rt.tell(usage);
        return false;
    }
    true
}

fn argument_error(why: FillError) -> Error {
    Error::from_raw_os_error(match why {
        FillError::NotPresent => INVALID_ARGUMENT,
        FillError::TooLong => NAME_TOO_LONG,
    })
}

// The length of an argument, which is put at the start of `name`; None where it does not fit, which is told.
pub fn argument(rt: &impl Host, i: usize, name: &mut [u8]) -> Option<usize>
    ensures { IfSome result (λ n. IsPrefixLen n name.new) }
{
    or_tell(rt, b"file name", rt.arg(i, name).map_err(argument_error))
}

// The length of an argument at the start of `word`; one that is missing or does not fit counts as empty.
pub fn argument_or_empty(rt: &impl Host, i: usize, word: &mut [u8]) -> usize
    ensures { IsPrefixLen result word.new }
{
    rt.arg(i, word).unwrap_or(0)
}

// ---- reading

// Reads until the buffer is full or the input ends; answers how many bytes there are, also where a read fails.
pub fn fill(input: &mut impl Read, buf: &mut [u8]) -> Result<usize, ReadFailed>
    ensures filled { IfOk result (λ n. IsPrefixLen n buf.new) }
    ensures failed { IfErr result (λ f. IsPrefixLen f.size buf.new) }
{
    let mut size = 0;
    while size < buf.len() {
        match input.read(&mut buf[size..]) {
            Ok(0) => return Ok(size),
            Ok(more) => size += more,
            Err(why) => return Err(ReadFailed { why, size }),
        }
    }
    Ok(size)
}

// How many bytes there are; where a read fails that is told, and Err has how many had come.
pub fn fill_or_tell(
    rt: &impl Host,
    name: &[u8],
    input: &mut impl Read,
    buf: &mut [u8],
) -> Result<usize, usize>
    ensures filled { IfOk result (λ n. IsPrefixLen n buf.new) }
    ensures failed { IfErr result (λ n. IsPrefixLen n buf.new) }
{
    match fill(input, buf) {
        Ok(size) => Ok(size),
        Err(failed) => {
            tell_failed(rt, name, failed.why);
            Err(failed.size)
        }
    }
}

// The event mask in the first four bytes; None where there are fewer.
pub fn mask_in(bytes: &[u8]) -> Option<u32>
    ensures partial { length bytes.now < 4 → result ≡ None }
    ensures whole { 4 ≤ length bytes.now → result ≡ Some (four bytes.now 0) }
{
    if bytes.len() < 4 {
        return None;
    }
    Some(records::u32_at(bytes, 0))
}

// The next event mask of standard input; None at a partial one, at the end, and where a read fails, which is told.
pub fn next_mask(rt: &impl Host, input: &mut impl Read) -> Option<u32> {
    let mut mask = [0u8; 4];
    let size = fill_or_tell(rt, b"standard input", input, &mut mask).ok()?;
    mask_in(&mask[..size])
}

// ---- files that are longer than any set or table

// A set with more than the first part, which is more than the most of all kinds together: it is read on, as refusals 1 and 2 depend on its end.
fn refuse_long(
    rt: &impl Host,
    input: &mut impl Read,
    name: &[u8],
    form: Form,
    seen: Seen,
    buf: &mut [u8],
) {
    let mut kind = last_kind(buf, Some(1));
    for _ in 0..u64::MAX {
        let Ok(size) = fill_or_tell(rt, name, input, buf) else {
            return
        };
        kind = last_kind(&buf[..size], kind);
        if size < buf.len() {
            tell_file(rt, long_refusal(size, kind), form, seen);
            return;
        }
    }
}

// A table of that length is refused whatever its end.
fn refuse_full(rt: &impl Host, input: &mut impl Read, name: &[u8], buf: &mut [u8], form: Form) {
    let table = match form {
        Form::Set => false,
        Form::Table => true,
        Form::Either => is_table(buf),
    };
    let seen = seen_as(buf);
    if table {
        tell_file(rt, Refusal::BadTable, form, seen);
    } else {
        refuse_long(rt, input, name, form, seen, buf);
    }
}

// A name as a path, which is text.
pub fn path_of(name: &[u8]) -> io::Result<&str> {
    str::from_utf8(name).map_err(|_why| Error::from_raw_os_error(NOT_TEXT))
}

// Opens a file for reading, by its name; - is standard input.
pub fn open_input<R: Host>(rt: &R, name: &[u8]) -> io::Result<Source<R::File, R::Reader>> {
    if is_dash(name) {
        return Ok(Source::Input(rt.reader()));
    }
    Ok(Source::File(fs::open(rt, path_of(name)?)?))
}

// Reads a file into a buffer that is longer than any set or table; answers how many bytes it has. Where it is missing, unreadable or fills the buffer, that is
// told, and Err has how many bytes had come before a read failed.
pub fn read_file(rt: &impl Host, name: &[u8], buf: &mut [u8], form: Form) -> Result<usize, usize>
    ensures read { IfOk result (λ n. IsPrefixLen n buf.new) }
    ensures failed { IfErr result (λ n. IsPrefixLen n buf.new) }
{
    let Some(mut input) = or_tell(rt, name, open_input(rt, name)) else {
        return Err(0)
    };
    let size = fill_or_tell(rt, name, &mut input, buf)?;
    if size < buf.len() {
        return Ok(size);
    }
    refuse_full(rt, &mut input, name, buf, form);
    Err(0)
}
