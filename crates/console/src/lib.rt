// What the programs share: lengths and table on standard input, a file that an argument names, an operation's answer on standard output,
// and complaints on standard error. An input of any length is judged by its true length, though no more is held of it than an accepted one
// can have.
#![tactic(auto)]

ghost use Rattle.std.specs.Prelude.{◌≡◌, length, IfSome};
ghost use Rattle.table_checks.specs.Refusal.{number_of};
ghost use Rattle.certifier.specs.Listing.{refusal_line};
ghost use Rattle.console.specs.Steps.{Held, IsPrefixLen, TakesStart, Within};

use std::io::{Read, Stderr};
use std::rt::Files;
use std::{fs, io};
use table_checks::Refusal;

// More than the lengths and the longest accepted table.
pub const BUFFER: usize = 4096;

// What is read at a time of an input that is only counted.
const CHUNK: usize = 65_536;

// What a program has of the system: standard input and output, and standard error, to which complaints go as bytes.
pub trait Streams: io::Input + Print {
    type Errors: Print + Drop;

    fn errors(&self) -> Self::Errors;
}

impl Streams for HostRuntime {
    type Errors = Stderr;

    fn errors(&self) -> Stderr {
        self.stderr()
    }
}

// What reading a stream came to.
#[derive(Clone, Copy)]
enum Stream {
    // The whole of it, of so many bytes.
    Whole(usize),
    // As much as the buffer holds or more: so many bytes.
    Longer(usize),
    Unreadable,
}

// Reads the input on standard input, the lengths and behind them the table, to the start of the buffer, and answers how many bytes it has.
// Where it is longer than any, or cannot be read, this is said, and there is none.
pub fn read_input(rt: &impl Streams, program: &[u8], buffer: &mut [u8]) -> Option<usize>
    ensures { IfSome result (λ size. IsPrefixLen size buffer.new) }
{
    match read(rt, buffer) {
        Stream::Whole(size) => Some(size),
        Stream::Longer(size) => {
            print_size(rt, program, buffer, size);
            None
        }
        Stream::Unreadable => {
            complain(rt, program, b": standard input cannot be read\n");
            None
        }
    }
}

// Reads standard input to its end.
fn read(rt: &impl Streams, buffer: &mut [u8]) -> Stream
    ensures { Within result (length buffer.new) }
{
    let mut input = rt.reader();
    match fill(&mut input, buffer) {
        Stream::Longer(size) => read_rest(&mut input, size),
        stream => stream,
    }
}

// Reads the file at a path, of which no more is held than the buffer holds. Where it cannot be read, this is said.
pub fn read_file(
    rt: &(impl Streams + Files),
    program: &[u8],
    path: &[u8],
    buffer: &mut [u8],
) -> Option<usize>
    ensures { IfSome result (λ size. IsPrefixLen size buffer.new) }
{
    match fill_from(rt, path, buffer) {
        Stream::Whole(size) => Some(size),
        Stream::Longer(size) => Some(size),
        Stream::Unreadable => {
            complain(rt, program, b": the file cannot be read\n");
            None
        }
    }
}

// Reads the file at a path to its end, or until the buffer is full. A file is opened by text: one whose path is other bytes cannot be read.
fn fill_from(files: &impl Files, path: &[u8], buffer: &mut [u8]) -> Stream
    ensures { Held result (length buffer.new) }
{
    let Ok(path) = str::from_utf8(path) else {
        return Stream::Unreadable;
    };
    match fs::open(files, path) {
        Ok(mut file) => fill(&mut file, buffer),
        Err(_) => Stream::Unreadable,
    }
}

// Reads a stream to its end, or until the buffer is full.
fn fill<R: Read>(stream: &mut R, buffer: &mut [u8]) -> Stream
    ensures held { Held result (length buffer.new) }
    ensures bytes { TakesStart result (R.remaining stream.old) (R.remaining stream.new) buffer.new }
{
    let end = buffer.len();
    let mut done = 0;
    // No range: it goes on by as many bytes as were read.
    while done < end {
        match stream.read(&mut buffer[done..end]) {
            Ok(0) => return Stream::Whole(done),
            Ok(count) => done += count,
            Err(_) => return Stream::Unreadable,
        }
    }
    Stream::Longer(done)
}

// Reads what is left of a stream after so many bytes, and counts it. A proved loop has to end, and nothing says that the
// stream does: so its turns are counted, up to a number that no run uses up.
fn read_rest(stream: &mut impl Read, size: usize) -> Stream
    ensures { Within result size }
{
    let mut total = size;
    let mut chunk = [0u8; CHUNK];
    for _ in 0..u64::MAX {
        match stream.read(&mut chunk) {
            Ok(0) => return Stream::Longer(total),
            Ok(count) => total = total.saturating_add(count),
            Err(_) => return Stream::Unreadable,
        }
    }
    Stream::Unreadable
}

// Prints the refusal of an input of so many bytes by its start: by its lengths, or by its table's size.
fn print_size(rt: &impl Streams, program: &[u8], start: &[u8], size: usize) {
    if let Err(refusal) = lengths_file::check_size(start, size) {
        print_refusal(rt, program, refusal);
    }
}

// Prints what an operation wrote, or its refusal.
pub fn print_answer(rt: &impl Streams, program: &[u8], answer: Result<usize, Refusal>, out: &[u8]) {
    match answer {
        Ok(n) => {
            if let Some(text) = out.get(..n) {
                print(rt, program, text);
            }
        }
        Err(refusal) => print_refusal(rt, program, refusal),
    }
}

// The line of a refusal.
fn refusal_line(refusal: Refusal) -> [u8; certifier::REFUSAL_LINE]
    ensures { result ≡ refusal_line (number_of refusal.cause) refusal.place }
{
    let mut line = [0u8; certifier::REFUSAL_LINE];
    let _ = certifier::write_refusal(row_judgement::Refusal::from(refusal), &mut line);
    line
}

// Prints the line of a refusal.
fn print_refusal(rt: &impl Streams, program: &[u8], refusal: Refusal) {
    print(rt, program, &refusal_line(refusal));
}

// Prints text, and says on standard error where it cannot be written.
fn print(rt: &impl Streams, program: &[u8], text: &[u8]) {
    if rt.write_all(text).is_err() {
        complain(rt, program, b": standard output cannot be written\n");
    }
}

// Says what is wrong, behind the program's name. Where that cannot be written either, there is nobody left to tell.
fn complain(rt: &impl Streams, program: &[u8], what: &[u8]) {
    let errors = rt.errors();
    let _ = errors.write_all(program);
    let _ = errors.write_all(what);
}
