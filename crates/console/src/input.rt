// The words that the program was started with, files opened by their names, and bytes read from what is open. No contract can say which
// bytes the system gives.
ghost use Rattle.std.specs.Prelude.{◌≤◌, length, take};
ghost use Rattle.std.specs.Io.KnownBytes.{Consumes};
ghost use Rattle.io.specs.Counts.{IsPrefixLen};

use std::env::FillError;
use std::fs::File;
use std::io::Read;
use std::rt::{Env, Files};
use std::str;

// How many words the program was started with, its own name among them.
pub fn word_count(rt: &impl Env) -> usize {
    (0..usize::MAX)
        .find(|&i| !is_word(rt, i))
        .unwrap_or(usize::MAX)
}

// Whether there is a word of this number. One that is longer than the buffer is there too.
fn is_word(rt: &impl Env, i: usize) -> bool {
    let mut room = [0u8; 1];
    matches!(rt.arg(i, &mut room), Ok(_) | Err(FillError::TooLong))
}

// Puts word `i` at the start of a buffer, and answers its length; 0 where it is missing or longer than the buffer. Word 0 is the
// program's name.
pub fn word(rt: &impl Env, i: usize, buffer: &mut [u8]) -> usize
    ensures { IsPrefixLen result buffer.new }
{
    rt.arg(i, buffer).unwrap_or(0)
}

// Opens a file for reading; `None` where it cannot be opened, or where its name is not UTF-8, as `std` asks of a path.
pub fn open<R: Files>(rt: &R, name: &[u8]) -> Option<R::File> {
    let path = str::from_utf8(name).ok()?;
    File::open(rt, path).ok()
}

// Reads until a buffer is full, the input ends or a read fails, and answers how many bytes it put at the start of the buffer. With an empty
// buffer it makes no call. This stays a `while` over how much has been read: std's `read_exact` tells nothing of a reader that ends early.
pub fn read_full<R: Read>(reader: &mut R, buffer: &mut [u8]) -> usize
    ensures count { IsPrefixLen result buffer.new }
    ensures bytes { Consumes (R.remaining reader.old) (R.remaining reader.new) (take result buffer.new) }
{
    let mut done = 0;
    while done < buffer.len() {
        let n = read_some(reader, &mut buffer[done..]);
        if n == 0 {
            return done;
        }
        done += n;
    }
    done
}

// One read; 0 where the input has ended or the read fails.
fn read_some<R: Read>(reader: &mut R, buffer: &mut [u8]) -> usize
    ensures count { IsPrefixLen result buffer.new }
    ensures bytes { Consumes (R.remaining reader.old) (R.remaining reader.new) (take result buffer.new) }
{
    reader.read(buffer).unwrap_or(0)
}
