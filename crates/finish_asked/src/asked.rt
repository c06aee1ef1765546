// What the arguments ask for, and what is told where they cannot be taken. A file is asked for by the place of its name among the arguments.
use crate::words_asked::{Form, Placed, Word, has_value, words_of};
use files::Stream;
use say::Stop;

// The file of the split tree.
#[derive(Clone, Copy)]
pub(crate) struct TreeFile {
    pub(crate) form: Form,
    pub(crate) at: usize,
}

#[derive(Clone, Copy)]
pub struct Asked {
    pub(crate) tree: TreeFile,
    pub(crate) strengths: Option<usize>,
    // 0 for standard input
    // kept: no plainer as an Option, since each call of `words` takes such a place
    pub stream: usize,
    pub qp: u8,
    pub limit: u8,
    pub bands: bool,
    pub grey: bool,
    pub moved: bool,
}

// What the words said so far.
#[derive(Clone, Copy)]
struct Said {
    tree: Option<TreeFile>,
    strengths: Option<usize>,
    stream: Option<usize>,
    qp: Option<u8>,
    limit: Option<u8>,
    bands: bool,
    grey: bool,
    moved: bool,
}

// Whether the first argument asks for help.
pub fn help(rt: &HostRuntime) -> bool {
    words::asked(rt, 1, b"--help") | words::asked(rt, 1, b"-h")
}

// ---- what is told

// Some words of argument `at`, between quotes.
pub(crate) fn quote(rt: &HostRuntime, at: usize) {
    let mut word = files::buffer();
    let n = files::arg(rt, at, &mut word);
    let _ = eprint!(rt; "'");
    let _ = files::write_all(rt, Stream::Errors, &word[..n]);
    let _ = eprint!(rt; "'");
}

// What is wrong with argument `at`; nothing is asked for then.
fn wrong(rt: &HostRuntime, at: usize, what: &str) -> Stop {
    let _ = eprint!(rt; "finish: ");
    quote(rt, at);
    let _ = eprintln!(rt; " {what}");
    Stop::Failed
}

fn lacks(rt: &HostRuntime, what: &str) -> Stop {
    let _ = eprintln!(rt; "finish: {what}");
    Stop::Failed
}

// ---- values

fn qp_at(rt: &HostRuntime, at: usize) -> Result<u8, Stop> {
    match words::number_arg(rt, at) {
        Some(n) if n <= 51 => Ok(n as u8),
        _ => Err(wrong(rt, at, "is no QP: a number from 0 to 51 is asked for")),
    }
}

fn limit_at(rt: &HostRuntime, at: usize) -> Result<u8, Stop> {
    if words::asked(rt, at, b"5") {
        return Ok(5);
    }
    if words::asked(rt, at, b"6") {
        return Ok(6);
    }
    Err(wrong(rt, at, "is no transform limit: 5 or 6 is asked for"))
}

impl Said {
    // One word more. The rectangles of --keep are read where the picture's size is known.
    fn with(&mut self, rt: &HostRuntime, placed: Placed) -> Result<(), Stop> {
        let at = placed.at;
        let value = match placed.value {
            Some(value) => value,
            None if has_value(placed.word) => {
                return Err(wrong(rt, at, "asks for a value after it"));
            }
            None => at,
        };
        match placed.word {
            Word::Tree(_) if self.tree.is_some() => {
                return Err(wrong(rt, value, "is a second split tree: one is asked for"));
            }
            Word::Tree(form) => self.tree = Some(TreeFile { form, at: value }),
            Word::Strengths => self.strengths = Some(value),
            Word::Qp => self.qp = Some(qp_at(rt, value)?),
            Word::Limit => self.limit = Some(limit_at(rt, value)?),
            Word::Keep => (),
            Word::Bands => self.bands = true,
            Word::Grey => self.grey = true,
            Word::Moved => self.moved = true,
            Word::Unknown => return Err(wrong(rt, at, "is no option")),
            Word::Name if self.stream.is_some() => {
                return Err(wrong(rt, at, "is a second stream: one is asked for"));
            }
            Word::Name => self.stream = Some(at),
        }
        Ok(())
    }

    // What has to be said, and what a sheet says itself.
    fn complete(self, rt: &HostRuntime) -> Result<Asked, Stop> {
        let Some(tree) = self.tree else {
            return Err(lacks(rt, "the split tree is missing: --sheet, --digits or --map"));
        };
        let Some(qp) = self.qp else {
            return Err(lacks(rt, "the QP is missing: --qp"));
        };
        if matches!(tree.form, Form::Sheet) & self.limit.is_some() {
            return Err(lacks(
                rt,
                "a sheet has its own transform limit: --limit is not for it",
            ));
        }
        Ok(Asked {
            tree,
            strengths: self.strengths,
            stream: self.stream.unwrap_or(0),
            qp,
            limit: self.limit.unwrap_or(6),
            bands: self.bands,
            grey: self.grey,
            moved: self.moved,
        })
    }
}

// ---- all arguments

// What cannot be taken is told.
pub fn arguments(rt: &HostRuntime) -> Result<Asked, Stop> {
    let mut said = Said {
        tree: None,
        strengths: None,
        stream: None,
        qp: None,
        limit: None,
        bands: false,
        grey: false,
        moved: false,
    };
    for placed in words_of(rt) {
        said.with(rt, placed)?;
    }
    said.complete(rt)
}
