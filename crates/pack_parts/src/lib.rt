// Split maps in their compact form one after the other: a writer and a reader, each a lent part of a buffer, and the position in it, in bits.
// There is no Rust beside it.
#![tactic(auto)]

ghost use Rattle.std.specs.Prelude.{◌≡◌};
ghost use Rattle.def.specs.Answers.{answer_number};
ghost use Rattle.pack_parts.specs.Held.{written, wrote, taken, passed};

use def::Refusal;
use pack::put_map;
use unpack::get_map;

#[derive(Drop)]
pub struct Writer<'a> {
    pub buf: &'a mut [u8],
    pub at: usize,
}

#[derive(Drop)]
pub struct Reader<'a> {
    pub src: &'a [u8],
    pub at: usize,
}

// A writer at the start of a lent part.
pub fn write_to<'a>(buf: &'a mut [u8]) -> Writer<'a>
    ensures { (result.buf ≡ buf.entry) × (result.at ≡ 0) }
{
    Writer { buf: buf, at: 0 }
}

// A reader at the start of a lent part.
pub fn read_from<'a>(src: &'a [u8]) -> Reader<'a>
    ensures { (result.src ≡ src.entry) × (result.at ≡ 0) }
{
    Reader { src, at: 0 }
}

// A map is written, and the position moves on behind it; where it is refused, buffer and position are as they were.
pub fn write_map<'s, 'a, 'b>(
    writer: &'s mut Writer<'a>,
    w: usize,
    h: usize,
    splits: &'b [u8],
) -> Result<(), Refusal>
    ensures { (answer_number result ≡ (written writer.old w h splits.now).number) × (writer.new ≡ wrote writer.old w h splits.now) }
{
    let at = writer.at;
    let placed = put_map(w, h, splits, &mut *writer.buf, at);
    writer.at = placed.at;
    placed.answer
}

// A map is read, and the position moves on behind it; where it is refused, map and position are as they were.
pub fn read_map<'s, 'a, 'b>(
    reader: &'s mut Reader<'a>,
    w: usize,
    h: usize,
    map: &'b mut [u8],
) -> Result<(), Refusal>
    ensures { (answer_number result ≡ (taken reader.old w h map.old).number) × (reader.new ≡ passed reader.old w h map.old) × (map.new ≡ (taken reader.old w h map.old).map) }
{
    let src = reader.src;
    let at = reader.at;
    let placed = get_map(w, h, src, at, map);
    reader.at = placed.at;
    placed.answer
}
