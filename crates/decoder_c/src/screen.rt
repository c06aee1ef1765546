// The ward screen: a row of a window, by its turn.
ghost use Rattle.std.specs.Prelude.{◌≡◌};
ghost use Rattle.laws.specs.Call.{Gives};
ghost use Rattle.ward.specs.RowCall as call;
ghost use Rattle.decoder_c.specs.Flags.{format_of};
ghost use Rattle.decoder_c.specs.Screen.{run_of, seen_of, numbers_of, row_outcome};

use def::Format;
use ward::{Rowed, Run, Turn, Window};

fn chroma_format(colour: bool) -> Format
    ensures { result ≡ format_of colour }
{
    if colour { Format::Colour } else { Format::Grey }
}

fn run_of(preview: bool) -> Run
    ensures { result ≡ run_of preview }
{
    if preview { Run::Preview } else { Run::Full }
}

// An answer in numbers: the turn's run is the caller's own.
#[derive(Drop)]
struct Seen {
    number: u8,
    plane: usize,
    row: usize,
    written: usize,
}

fn row_numbers(r: Rowed) -> Seen
    ensures { seen_of result ≡ numbers_of (call.reading_of r) }
{
    let plane = r.next.plane;
    let row = r.next.row;
    match r.written {
        Ok(written) => Seen {
            number: 0,
            plane,
            row,
            written,
        },
        Err(r) => Seen {
            number: def::refusal_number(r),
            plane,
            row,
            written: 0,
        },
    }
}

#[unsafe(no_mangle)]
pub extern "C" fn lomsakeun_ward_row(
    preview: bool,
    turn_plane: &mut usize,
    turn_row: &mut usize,
    plane: usize,
    row: usize,
    colour: bool,
    w: usize,
    h: usize,
    y: &[u16],
    u: &[u16],
    v: &[u16],
    left: usize,
    top: usize,
    right: usize,
    bottom: usize,
    out: &mut [u8],
    written: &mut usize,
) -> u8
    ensures { Gives row_outcome
        (record {
          turn = record { run = run_of preview; plane = turn_plane.old; row = turn_row.old };
          plane = plane;
          row = row;
          format = format_of colour;
          w = w;
          h = h;
          y = y.now;
          u = u.now;
          v = v.now;
          window = record { left = left; top = top; right = right; bottom = bottom };
          out = out.old;
        })
        (record {
          seen = record { number = result; plane = turn_plane.new; row = turn_row.new; written = written.new };
          out = out.new;
        }) }
{
    let turn = Turn {
        run: run_of(preview),
        plane: *turn_plane,
        row: *turn_row,
    };
    let window = Window {
        left,
        top,
        right,
        bottom,
    };
    let format = chroma_format(colour);
    let seen = row_numbers(turn.row(plane, row, format, w, h, y, u, v, window, out));
    *turn_plane = seen.plane;
    *turn_row = seen.row;
    *written = seen.written;
    seen.number
}
