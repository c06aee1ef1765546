// What a program is asked by: its arguments' words and numbers, and the files that they name. It is for the programs alone.
// No contract can say what is read: what stands here is proved safe.
#![tactic(auto)]

use files::{Source, Stream};
use std::io;

// ---- words

// The number that a word is, of one to nine digits.
pub fn number(word: &[u8]) -> Option<usize> {
    if 9 < word.len() || !word.iter().all(|b| b.is_ascii_digit()) {
        return None;
    }
    std::str::from_utf8(word).ok()?.parse().ok()
}

// ---- arguments

// Whether an argument is this word.
pub fn asked(rt: &HostRuntime, at: usize, name: &[u8]) -> bool {
    let mut word = files::buffer();
    let n = files::arg(rt, at, &mut word);
    &word[..n] == name
}

// An argument as a number.
pub fn number_arg(rt: &HostRuntime, at: usize) -> Option<usize> {
    let mut word = files::buffer();
    let n = files::arg(rt, at, &mut word);
    number(&word[..n])
}

// ---- files

// The name of a file and a colon, before what is told of it: that which argument `at` has, or standard input for argument 0.
pub fn name(rt: &HostRuntime, at: usize) {
    if at == 0 {
        let _ = eprint!(rt; "standard input: ");
        return;
    }
    let mut path = files::buffer();
    let n = files::arg(rt, at, &mut path);
    let _ = files::write_all(rt, Stream::Errors, &path[..n]);
    let _ = eprint!(rt; ": ");
}

// Opens the file that an argument names, to be read; none where that fails, which is told.
pub fn open(rt: &HostRuntime, at: usize) -> Option<Source> {
    let mut path = files::buffer();
    let n = files::arg(rt, at, &mut path);
    match files::open_read(rt, &path[..n]) {
        Ok(file) => Some(file),
        Err(error) => {
            files::fail(rt, &path[..n], error);
            None
        }
    }
}

// Whether a read fails where a file seems to end, as it does where the file is a directory.
pub fn read_fails(file: &mut Source) -> bool {
    files::failure(file).is_some()
}

// The same of the file that an argument names, or of standard input for argument 0; it is told.
pub fn unreadable(rt: &HostRuntime, at: usize, file: &mut Source) -> bool {
    match files::failure(file) {
        None => false,
        Some(error) => {
            unread(rt, at, error);
            true
        }
    }
}

// Tells why the file that an argument names, or standard input for argument 0, cannot be read.
pub fn unread(rt: &HostRuntime, at: usize, error: io::Error) {
    if at == 0 {
        files::fail(rt, b"standard input", error);
        return;
    }
    let mut path = files::buffer();
    let n = files::arg(rt, at, &mut path);
    files::fail(rt, &path[..n], error);
}
