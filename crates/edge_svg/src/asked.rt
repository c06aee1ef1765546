// What the arguments ask for: options, and words that are none. No word is a sheet from standard input, one names a sheet, four are W, H, LIMIT and a map.
use tree_file::Tree;

#[derive(Clone, Copy)]
pub(crate) enum Form {
    Sheet,
    // a map by its bytes, and whether it is mended
    Bytes(Tree, bool),
    Digits(Tree),
}

#[derive(Clone, Copy)]
pub(crate) struct Asked {
    pub(crate) numbers: bool,
    pub(crate) form: Form,
    // where the file's name is among the arguments, 0 for standard input
    pub(crate) file: usize,
}

// ---- words

#[derive(Clone, Copy, PartialEq, Eq)]
enum Word {
    Numbers,
    Torn,
    Digits,
    Unknown,
    // no option
    Plain,
}

fn kind_of(word: &[u8]) -> Word {
    match word {
        b"--numbers" => Word::Numbers,
        b"--torn" => Word::Torn,
        b"--digits" => Word::Digits,
        [b'-', ..] => Word::Unknown,
        _ => Word::Plain,
    }
}

fn kind_at(rt: &HostRuntime, at: usize) -> Word {
    let mut word = files::buffer();
    let n = files::arg(rt, at, &mut word);
    kind_of(&word[..n])
}

// Whether such a word is among the arguments.
fn given(rt: &HostRuntime, kind: Word) -> bool {
    (1..files::arg_count(rt)).any(|at| kind_at(rt, at) == kind)
}

// Where the n-th word that is no option is, from 0 on.
fn place(rt: &HostRuntime, n: usize) -> Option<usize> {
    (1..files::arg_count(rt))
        .filter(|at| kind_at(rt, *at) == Word::Plain)
        .nth(n)
}

fn number(rt: &HostRuntime, n: usize) -> Option<usize> {
    words::number_arg(rt, place(rt, n)?)
}

// ---- the arguments

// A map with its three numbers.
fn map(rt: &HostRuntime, torn: bool, digits: bool) -> Option<Form> {
    let w = number(rt, 0)?;
    let h = number(rt, 1)?;
    let limit = number(rt, 2)?;
    let tree = Tree { w, h, limit };
    if (limit != 5) & (limit != 6) | (torn & digits) {
        return None;
    }
    Some(if digits {
        Form::Digits(tree)
    } else {
        Form::Bytes(tree, torn)
    })
}

pub(crate) fn arguments(rt: &HostRuntime) -> Option<Asked> {
    if place(rt, 4).is_some() || given(rt, Word::Unknown) {
        return None;
    }
    let numbers = given(rt, Word::Numbers);
    let torn = given(rt, Word::Torn);
    let digits = given(rt, Word::Digits);
    if let Some(file) = place(rt, 3) {
        let form = map(rt, torn, digits)?;
        return Some(Asked {
            numbers,
            form,
            file,
        });
    }
    if place(rt, 1).is_some() || torn || digits {
        return None;
    }
    Some(Asked {
        numbers,
        form: Form::Sheet,
        file: place(rt, 0).unwrap_or(0),
    })
}
