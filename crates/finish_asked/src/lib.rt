// What `finish` is asked: its arguments, and the files that are read once, before the first frame. It is for that program alone.
// No contract can say what is read or written: what stands here is proved safe.
#![tactic(auto)]

use y4m_file::Header;

mod asked; // asked.rt: the arguments
mod keep; // keep.rt: the blocks that are kept
mod lent; // lent.rt: what is lent beside a frame
mod strengths; // strengths.rt: the strength entries
mod tree; // tree.rt: the split tree
mod words_asked; // words_asked.rt: the words among the arguments

pub use asked::{Asked, arguments, help};
pub use lent::lend;
pub use strengths::{entry, largest};

// What is asked for, and what the stream's header says. The transform limit that is asked for is the tree's, once that is read.
#[derive(Clone, Copy)]
pub struct Job {
    pub asked: Asked,
    pub header: Header,
}
