// The words among the arguments, each with the place of the value after it.
ghost use Rattle.std.specs.Prelude.{◌-◌};
ghost use Rattle.std.specs.Iterator.{at_most};

// What a split tree's file has.
#[derive(Clone, Copy)]
pub enum Form {
    Sheet,
    Digits,
    Map,
}

// What a word is.
#[derive(Clone, Copy)]
pub(crate) enum Word {
    Tree(Form),
    Strengths,
    Qp,
    Limit,
    Keep,
    Bands,
    Grey,
    Moved,
    Unknown,
    Name,
}

fn word_of(word: &[u8]) -> Word {
    match word {
        b"--sheet" => Word::Tree(Form::Sheet),
        b"--digits" => Word::Tree(Form::Digits),
        b"--map" => Word::Tree(Form::Map),
        b"--strengths" => Word::Strengths,
        b"--qp" => Word::Qp,
        b"--limit" => Word::Limit,
        b"--keep" => Word::Keep,
        b"--bands" => Word::Bands,
        b"--grey" => Word::Grey,
        b"--moved" => Word::Moved,
        [b'-', ..] => Word::Unknown,
        _ => Word::Name,
    }
}

// What argument `at` is.
fn word_at(rt: &HostRuntime, at: usize) -> Word {
    let mut word = files::buffer();
    let n = files::arg(rt, at, &mut word);
    word_of(&word[..n])
}

// Whether a value stands after it.
pub(crate) fn has_value(word: Word) -> bool {
    !matches!(
        word,
        Word::Bands | Word::Grey | Word::Moved | Word::Unknown | Word::Name
    )
}

// A word at its place, and the place of the value after it; none where there are no arguments more.
#[derive(Clone, Copy)]
pub(crate) struct Placed {
    pub(crate) word: Word,
    pub(crate) at: usize,
    pub(crate) value: Option<usize>,
}

// The words from a place on that are no values.
#[derive(Drop)]
pub(crate) struct Words<'a> {
    rt: &'a HostRuntime,
    at: usize,
    count: usize,
}

pub(crate) fn words_of(rt: &HostRuntime) -> Words<'_> {
    Words {
        rt,
        at: 1,
        count: files::arg_count(rt),
    }
}

impl Iterator for Words<'_> {
    type Item = Placed;

    ghost remaining = { λ s. at_most (s.count - s.at) };

    fn next(&mut self) -> Option<Placed> {
        let at = self.at;
        let count = self.count;
        if count <= at {
            return None;
        }
        let word = word_at(self.rt, at);
        let after = at + 1;
        let value = if after < count { Some(after) } else { None };
        self.at = if has_value(word) & (after < count) {
            after + 1
        } else {
            after
        };
        Some(Placed { word, at, value })
    }
}
