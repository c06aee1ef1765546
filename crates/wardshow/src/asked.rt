// What the arguments ask for.
use ward::{Run, Window};

#[derive(Clone, Copy)]
pub(crate) struct Asked {
    pub(crate) window: Window,
    pub(crate) run: Run,
    pub(crate) pgm: bool,
    // where the file's name is, 0 for standard input
    // kept: no plainer as an Option, since each call of `words` takes such a place
    pub(crate) file: usize,
}

// What a word after the window's edges is.
#[derive(Clone, Copy)]
enum Word {
    Preview,
    Pgm,
    Name,
}

fn word_at(rt: &HostRuntime, at: usize) -> Word {
    let mut word = files::buffer();
    let n = files::arg(rt, at, &mut word);
    match &word[..n] {
        b"--preview" => Word::Preview,
        b"--pgm" => Word::Pgm,
        _ => Word::Name,
    }
}

// None where an edge is no number, or where a second file is named.
pub(crate) fn arguments(rt: &HostRuntime) -> Option<Asked> {
    let window = Window {
        left: words::number_arg(rt, 1)?,
        top: words::number_arg(rt, 2)?,
        right: words::number_arg(rt, 3)?,
        bottom: words::number_arg(rt, 4)?,
    };
    let mut asked = Asked {
        window,
        run: Run::Full,
        pgm: false,
        file: 0,
    };
    for at in 5..files::arg_count(rt) {
        match word_at(rt, at) {
            Word::Preview => asked.run = Run::Preview,
            Word::Pgm => asked.pgm = true,
            Word::Name if asked.file == 0 => asked.file = at,
            Word::Name => return None,
        }
    }
    Some(asked)
}
