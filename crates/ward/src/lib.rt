// The ward screen: 8-bit rows of a window in finished planes, at full size or half, one at a time: Y, then U, then V, top first.
// What it refuses is in `ward_check`, and the samples of a row are in `ward_rows`.
// There is no Rust beside it. It stands above the face and goes by the latter's statements.
#![tactic(auto)]

ghost use Rattle.std.specs.Prelude.{◌≡◌, ◌<◌, length};
ghost use Rattle.laws.specs.Call.{Gives};
ghost use Rattle.ward_check.specs.Sizes.{rows_of};
ghost use Rattle.ward.specs.Turns.{first_turn, next_turn};
ghost use Rattle.ward.specs.RowCall as call;
ghost use Rattle.ward.specs.Fits.{Fits};

use decoder::{Format, Refusal};
use ward_check::{across_run, in_plane};
use ward_rows::put_row;

// The two runs, and a crop window.
pub use ward_check::{Run, Window};

// Which row of a run comes next: of plane 0, 1 or 2, that is of Y, U or V. A value that is handed back after each call.
#[derive(Clone, Copy)]
pub struct Turn {
    pub run: Run,
    pub plane: usize,
    pub row: usize,
}

// How many samples the row has, or why it is refused; and the turn that comes next, where it is refused the turn as it was.
#[derive(Clone, Copy)]
pub struct Rowed {
    pub written: Result<usize, Refusal>,
    pub next: Turn,
}

// ---- the turn

impl Turn {
    // The start of a run.
    pub fn first(run: Run) -> Turn
        ensures { result ≡ first_turn run }
    {
        Turn {
            run,
            plane: 0,
            row: 0,
        }
    }

    // The turn after this row.
    fn after(self, c: Window) -> Turn
        requires { (c.top < c.bottom) × (self.row < rows_of self.run c self.plane) × (self.plane < 3) }
        ensures { result ≡ next_turn c self }
    {
        let run = self.run;
        let plane = self.plane;
        let row = self.row;
        let rows = across_run(run, in_plane(plane, c.bottom - c.top));
        if row + 1 < rows {
            return Turn {
                run,
                plane,
                row: row + 1,
            };
        }
        Turn {
            run,
            plane: plane + 1,
            row: 0,
        }
    }

    // This row of its plane, where only the samples can be refused.
    fn given(self, w: usize, p: &[u16], c: Window, out: &mut [u8]) -> Rowed
        requires { Fits self w c (length p.now) (length out.old) }
        ensures { record { reading = call.reading_of result; out = out.new } ≡ call.given self w c p.now out.old }
    {
        let run = self.run;
        let plane = self.plane;
        let row = self.row;
        let n = in_plane(plane, c.right - c.left);
        let stride = in_plane(plane, w);
        let x = in_plane(plane, c.left);
        let y = in_plane(plane, c.top);
        if !put_row(run, p, stride, x, y, n, row, out) {
            return Rowed {
                written: Err(Refusal::Sample),
                next: self,
            };
        }
        Rowed {
            written: Ok(across_run(run, n)),
            next: self.after(c),
        }
    }

    // The row of a plane whose turn it is: its samples stand first in a buffer of w bytes.
    pub fn row(
        self,
        plane: usize,
        row: usize,
        format: Format,
        w: usize,
        h: usize,
        y: &[u16],
        u: &[u16],
        v: &[u16],
        window: Window,
        out: &mut [u8],
    ) -> Rowed
        ensures { Gives call.outcome
            (record {
              turn = self;
              plane = plane;
              row = row;
              format = format;
              w = w;
              h = h;
              y = y.now;
              u = u.now;
              v = v.now;
              window = window;
              out = out.old;
            })
            (record { reading = call.reading_of result; out = out.new }) }
    {
        let run = self.run;
        let found = ward_check::checked_row(
            run,
            self.plane,
            self.row,
            plane,
            row,
            format,
            w,
            h,
            y.len(),
            u.len(),
            v.len(),
            window,
            out.len(),
        );
        match found {
            Err(r) => Rowed {
                written: Err(r),
                next: self,
            },
            Ok(()) => match plane {
                0 => self.given(w, y, window, out),
                1 => self.given(w, u, window, out),
                _ => self.given(w, v, window, out),
            },
        }
    }
}
