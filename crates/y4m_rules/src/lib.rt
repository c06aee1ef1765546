// What a YUV4MPEG2 stream is, and what is said of it where it is read. specs/ has its header line and its frames, as they are written and as they are
// read, and proofs/ that what is written is read as it was, and the laws of bytes, digits and samples that the code is proved by.
#![tactic(auto)]

ghost use Rattle.std.specs.Prelude.{◌≡◌};
ghost use Rattle.y4m_rules.specs.Misreads.{misread};

use def::Refusal;

// Why a stream is refused, and the place that offends, which only `Refusal::Stream` names: with any other it is 0.
#[derive(Clone, Copy)]
pub struct Misread {
    pub refusal: Refusal,
    pub at: usize,
}

impl From<Refusal> for Misread {
    ghost from_gives = { λ r m. m ≡ misread r 0 };

    fn from(refusal: Refusal) -> Misread {
        Misread { refusal, at: 0 }
    }
}

// What the words of a header have said so far: the sides, F and A as two numbers each; and whether I and C, which have one value each, have come.
#[derive(Clone, Copy, Default)]
pub struct Said {
    pub w: Option<usize>,
    pub h: Option<usize>,
    pub f: Option<(usize, usize)>,
    pub a: Option<(usize, usize)>,
    pub i: bool,
    pub c: bool,
}
