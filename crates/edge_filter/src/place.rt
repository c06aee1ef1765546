// The passes, and where an edge's lines lie in a plane.
ghost use Rattle.std.specs.Prelude.{◌≡◌, ◌+◌, ◌-◌, ◌*◌, ◌≤◌, ◌<◌, get_or};
ghost use Rattle.split.specs.Edges.{edge};
ghost use Rattle.split.specs.Edges as edges;
ghost use Rattle.split.specs.Rows.{cross_of, along_of};
ghost use Rattle.def.specs.declared.Component.TheVariants.{Luma, Chroma};
ghost use Rattle.df_rules.specs.Places.{step_across, step_along};
ghost use Rattle.edge_filter.specs.Edges.{pass_of, lines_place, cross_in, along_in, place_from};

use window::Place;

// The vertical pass filters the edges between columns, the horizontal those between rows.
#[derive(Clone, Copy)]
pub enum Pass {
    Vertical,
    Horizontal,
}

pub fn is_horizontal(pass: Pass) -> bool
    ensures { edges.pass_of result ≡ pass_of pass }
{
    match pass {
        Pass::Vertical => false,
        Pass::Horizontal => true,
    }
}

// In a plane of `wide` a row: from one place to the next across the pass's edges.
fn step_across(pass: Pass, wide: usize) -> usize
    ensures { (result ≡ step_across (pass_of pass) wide) × (result ≤ wide + 1) }
{
    match pass {
        Pass::Vertical => 1,
        Pass::Horizontal => wide,
    }
}

// And along them.
fn step_along(pass: Pass, wide: usize) -> usize
    ensures { (result ≡ step_along (pass_of pass) wide) × (result ≤ wide + 1) }
{
    match pass {
        Pass::Vertical => wide,
        Pass::Horizontal => 1,
    }
}

// The place (x, y) across the pass's edges.
fn cross_of(pass: Pass, x: usize, y: usize) -> usize
    ensures { result ≡ cross_of (pass_of pass) (edge x y) }
{
    match pass {
        Pass::Vertical => x,
        Pass::Horizontal => y,
    }
}

// And along them.
fn along_of(pass: Pass, x: usize, y: usize) -> usize
    ensures { result ≡ along_of (pass_of pass) (edge x y) }
{
    match pass {
        Pass::Vertical => y,
        Pass::Horizontal => x,
    }
}

// Two samples before x, or at 0 where there are not two.
fn two_before(x: usize) -> usize
    ensures { result ≡ x - 2 }
{
    if x < 2 { 0 } else { x - 2 }
}

// The lines that start at `along`, two samples before `across`.
fn place(pass: Pass, wide: usize, across: usize, along: usize) -> Place
    requires { (wide ≤ 4096) × (across ≤ 65535) × (along ≤ 65535) }
    ensures { result ≡ lines_place (pass_of pass) wide across along }
{
    let step = step_across(pass, wide);
    let next = step_along(pass, wide);
    let at = along * next + two_before(across) * step;
    Place {
        at: at as u32,
        step: step as u32,
        next: next as u32,
    }
}

// ---- edge i of a list

fn wide(x: u16) -> usize
    ensures { (result ≡ x) × (result ≤ 65535) }
{
    x as usize
}

// A number of a list.
fn number_at(list: &[u16; 512], i: usize) -> usize
    requires { i < 512 }
    ensures { (result ≡ get_or list.now i 0) × (result ≤ 65535) }
{
    wide(list[i])
}

// Where Q's first luma sample lies across the pass's edges.
pub(crate) fn cross_at(pass: Pass, list: &[u16; 512], i: usize) -> usize
    requires { i < 256 }
    ensures { (result ≡ cross_in (pass_of pass) list.now i) × (result ≤ 65535) }
{
    cross_of(pass, number_at(list, 2 * i), number_at(list, 2 * i + 1))
}

// And along them.
pub(crate) fn along_at(pass: Pass, list: &[u16; 512], i: usize) -> usize
    requires { i < 256 }
    ensures { (result ≡ along_in (pass_of pass) list.now i) × (result ≤ 65535) }
{
    along_of(pass, number_at(list, 2 * i), number_at(list, 2 * i + 1))
}

// Where its lines lie in luma.
pub(crate) fn luma_place(pass: Pass, columns: usize, list: &[u16; 512], i: usize) -> Place
    requires { (columns ≤ 1024) × (i < 256) }
    ensures { result ≡ place_from Luma (pass_of pass) columns list.now i }
{
    place(
        pass,
        4 * columns,
        cross_at(pass, list, i),
        along_at(pass, list, i),
    )
}

// And in chroma.
pub(crate) fn chroma_place(pass: Pass, columns: usize, list: &[u16; 512], i: usize) -> Place
    requires { (columns ≤ 1024) × (i < 256) }
    ensures { result ≡ place_from Chroma (pass_of pass) columns list.now i }
{
    place(
        pass,
        2 * columns,
        cross_at(pass, list, i) / 2,
        along_at(pass, list, i) / 2,
    )
}
