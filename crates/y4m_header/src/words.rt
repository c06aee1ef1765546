// The words of a header, one after the other: what each may be, what it says, and where the line ends or offends.
ghost use Rattle.std.specs.Prelude.{◌≡◌, not, ◌&&◌, ◌≤◌, ◌<◌, is_some, None, length, drop};
ghost use Rattle.laws.specs.Index.{pick};
ghost use Rattle.def.specs.declared.Refusal.TheVariants.{Stream};
ghost use Rattle.sheet_lines.specs.Lines.{same_line};
ghost use Rattle.y4m_rules.specs.Words.{progressive, format};
ghost use Rattle.y4m_rules.specs.Header.{nothing, with_i, with_c, value_ok, said_with, word_ok, tell, ending, words, header_in};
ghost use Rattle.y4m_rules.specs.Misreads.{misread};
ghost use Rattle.y4m_header.specs.Values.{told_by, words_of, head_length};

use crate::Header;
use crate::numbers::{count_before, number_in, ratio_in};
use def::Refusal;
use y4m_rules::{Misread, Said};

// A header that is malformed at a place.
fn malformed(at: usize) -> Misread
    ensures { result ≡ misread Stream at }
{
    Misread {
        refusal: Refusal::Stream,
        at,
    }
}

// ---- what a value says, by its letter; each letter once

// A value that may come once: none where it has come before, or is malformed.
fn once<T: Copy>(seen: Option<T>, value: Option<T>) -> Option<T>
    ensures { result ≡ pick (is_some seen) None value }
{
    if seen.is_some() { None } else { value }
}

fn told_i(mut said: Said, value: &[u8]) -> Option<Said>
    ensures { result ≡ told_by (not said.i && same_line progressive value.now) (with_i said) }
{
    if said.i | (value != b"p".as_slice()) {
        return None;
    }
    said.i = true;
    Some(said)
}

fn told_c(mut said: Said, value: &[u8]) -> Option<Said>
    ensures { result ≡ told_by (not said.c && same_line format value.now) (with_c said) }
{
    if said.c | (value != b"420p10".as_slice()) {
        return None;
    }
    said.c = true;
    Some(said)
}

// A letter and its value: X is skipped, and any other letter is malformed.
fn told_letter(said: Said, letter: u8, value: &[u8]) -> Option<Said>
    ensures { result ≡ told_by (value_ok letter value.now said) (said_with letter value.now said) }
{
    match letter {
        b'X' => Some(said),
        b'W' => Some(Said {
            w: Some(once(said.w, number_in(value))?),
            ..said
        }),
        b'H' => Some(Said {
            h: Some(once(said.h, number_in(value))?),
            ..said
        }),
        b'F' => Some(Said {
            f: Some(once(said.f, ratio_in(value))?),
            ..said
        }),
        b'I' => told_i(said, value),
        b'A' => Some(Said {
            a: Some(once(said.a, ratio_in(value))?),
            ..said
        }),
        b'C' => told_c(said, value),
        _ => None,
    }
}

// A word, which has a letter.
fn told_word(said: Said, word: &[u8]) -> Option<Said>
    ensures { result ≡ told_by (word_ok word.now said) (tell word.now said) }
{
    if word.len() == 0 {
        return None;
    }
    told_letter(said, word[0], &word[1..])
}

// ---- the line

// The header that ends with a newline at `at`: W, H and C have to have come.
fn ending(said: Said, at: usize) -> Result<Header, Misread>
    requires { at < 256 }
    ensures { result ≡ words_of (ending said at) }
{
    let (Some(w), Some(h), true) = (said.w, said.h, said.c) else {
        return Err(malformed(at));
    };
    let (f, g) = said.f.unwrap_or((0, 0));
    let (a, b) = said.a.unwrap_or((0, 0));
    Ok(Header {
        w,
        h,
        f,
        g,
        a,
        b,
        next: at + 1,
    })
}

// The words after the magic one, in the bytes that a header may have.
// kept: a `while`, as a turn takes a word, whose length says where the next one starts.
fn words_in(head: &[u8]) -> Result<Header, Misread>
    requires { (9 ≤ length head.now) × (length head.now ≤ 256) }
    ensures { result ≡ words_of (words 256 9 (drop 9 head.now) nothing) }
{
    let mut said = Said::default();
    let mut at = 9;
    while at < head.len() {
        if head[at] == b'\n' {
            return ending(said, at);
        }
        let from = at + 1;
        let end = from + count_before(&head[from..], b' ', b'\n');
        let Some(next) = told_word(said, &head[from..end]) else {
            return Err(malformed(from));
        };
        said = next;
        at = end;
    }
    Err(malformed(at))
}

// How many of n bytes a header may have.
fn head_length(n: usize) -> usize
    ensures { result ≡ head_length n }
{
    if n < 256 { n } else { 256 }
}

// The header at the start of a stream.
pub(crate) fn header_in(s: &[u8]) -> Result<Header, Misread>
    ensures { result ≡ words_of (header_in s.now) }
{
    let n = head_length(s.len());
    let head = &s[..n];
    let first = count_before(head, b' ', b'\n');
    if &head[..first] != b"YUV4MPEG2".as_slice() {
        return Err(malformed(0));
    }
    words_in(head)
}
