// What deblocking refuses, and in which order: 1, 2, 3, then 4 or 5 as the walk meets them, 15, 6, 7. The Rust takes all of it to be right, and has no grey
// pictures.
ghost use Rattle.std.specs.Prelude.{true, ◌≡◌, ◌≤◌};
ghost use Rattle.laws.specs.Call.{Gives};
ghost use Rattle.def.specs.Picture.{size_ok};
ghost use Rattle.def.proofs.Sizes.{Sized};
ghost use Rattle.df_check.specs.Checks.{lengths_ok, least_offset, most_offset, offset_ok, settings_ok, keep_ok, qps_ok, planes_ok, from_lengths, check_of};

use crate::Settings;
use def::{Format, Refusal, in_format, roots_along};

// ---- 2: lengths

// How long each lent slice is.
#[derive(Drop)]
struct Lengths {
    y: usize,
    u: usize,
    v: usize,
    words: usize,
    splits: usize,
    motion: usize,
    refs: usize,
    keep: usize,
    table0: usize,
    table1: usize,
    strengths: usize,
}

// Of planes and maps of `lent` rows of luma samples, and of the split bytes of `own` rows.
fn lengths_ok(format: Format, w: usize, lent: usize, own: usize, n: Lengths) -> bool
    requires { Sized w lent × Sized w own }
    ensures { result ≡ lengths_ok format w lent own n }
{
    let chroma = in_format(format, w / 2 * (lent / 2));
    let table = in_format(format, 70);
    let units = w / 4 * (lent / 4);
    let roots = roots_along(w) * roots_along(own);
    (n.y == w * lent)
        & (n.u == chroma)
        & (n.v == chroma)
        & (n.words == units)
        & (n.splits == 1024 * roots)
        & (n.motion == 4 * units)
        & (n.refs == 2 * units)
        & (n.keep == units)
        & (n.table0 == table)
        & (n.table1 == table)
        & (n.strengths == 208)
}

// ---- 3: settings

// The least and the most that an offset may be.
fn least_offset(format: Format) -> i8
    ensures { result ≡ least_offset format }
{
    match format {
        Format::Grey => 0,
        Format::Colour => -12,
    }
}

fn most_offset(format: Format) -> i8
    ensures { result ≡ most_offset format }
{
    match format {
        Format::Grey => 0,
        Format::Colour => 12,
    }
}

fn offset_ok(format: Format, offset: i8) -> bool
    ensures { result ≡ offset_ok format offset }
{
    (least_offset(format) <= offset) & (offset <= most_offset(format))
}

fn settings_ok(s: Settings) -> bool
    ensures { result ≡ settings_ok s }
{
    let format = s.format;
    ((s.limit == 5) | (s.limit == 6))
        & offset_ok(format, s.u_offset)
        & offset_ok(format, s.v_offset)
}

// ---- 15: keep marks

// No way out at the first that fails, so that many marks are compared at a time.
fn keep_ok(keep: &[u8]) -> bool
    ensures { result ≡ keep_ok keep.now }
{
    let mut ok = true;
    for i in 0..keep.len() {
        ok = ok & (keep[i] <= 1);
    }
    ok
}

// ---- 6: QPs

// No way out at the first that fails, so that many words are compared at a time.
fn qps_ok(words: &[u32]) -> bool
    ensures { result ≡ qps_ok words.now }
{
    let mut ok = true;
    for i in 0..words.len() {
        let qp = def::get_qp(words[i]) as u32;
        ok = ok & (qp <= 51);
    }
    ok
}

// ---- 7: samples. A grey picture's U and V have none

fn planes_ok(y: &[u16], u: &[u16], v: &[u16]) -> bool
    ensures { result ≡ planes_ok y.now u.now v.now }
{
    samples::samples_ok(y) & samples::samples_ok(u) & samples::samples_ok(v)
}

// ---- from the lengths on

// Of `lent` rows of luma samples that are lent the last `own` are the call's own, and the first `before` are not judged. Of motion, references, tables and
// strengths only the lengths are looked at.
pub(crate) fn from_lengths(
    w: usize,
    h: usize,
    lent: usize,
    own: usize,
    before: usize,
    y: &[u16],
    u: &[u16],
    v: &[u16],
    words: &[u32],
    splits: &[u8],
    motion: usize,
    refs: usize,
    keep: &[u8],
    table0: usize,
    table1: usize,
    strengths: usize,
    settings: Settings,
) -> Result<(), Refusal>
    requires { (size_ok w lent ≡ true) × (size_ok w own ≡ true) × (before ≤ lent) }
    ensures { result ≡ from_lengths lent own before
        (record {
          w = w;
          h = h;
          y = y.now;
          u = u.now;
          v = v.now;
          words = words.now;
          splits = splits.now;
          motion = motion;
          refs = refs;
          keep = keep.now;
          table0 = table0;
          table1 = table1;
          strengths = strengths;
          settings = settings;
        }) }
{
    let lengths = Lengths {
        y: y.len(),
        u: u.len(),
        v: v.len(),
        words: words.len(),
        splits: splits.len(),
        motion,
        refs,
        keep: keep.len(),
        table0,
        table1,
        strengths,
    };
    let format = settings.format;
    if !lengths_ok(format, w, lent, own, lengths) {
        return Err(Refusal::Length);
    }
    if !settings_ok(settings) {
        return Err(Refusal::Setting);
    }
    split::check(w, own, splits)?;
    let units = w / 4 * (before / 4);
    if !keep_ok(&keep[units..]) {
        return Err(Refusal::Keep);
    }
    if !qps_ok(&words[units..]) {
        return Err(Refusal::Qp);
    }
    let luma = w * before;
    let chroma = in_format(format, w / 2 * (before / 2));
    if !planes_ok(&y[luma..], &u[chroma..], &v[chroma..]) {
        return Err(Refusal::Sample);
    }
    Ok(())
}

// ---- a whole picture

pub fn checked(
    w: usize,
    h: usize,
    y: &[u16],
    u: &[u16],
    v: &[u16],
    words: &[u32],
    splits: &[u8],
    motion: usize,
    refs: usize,
    keep: &[u8],
    table0: usize,
    table1: usize,
    strengths: usize,
    settings: Settings,
) -> Result<(), Refusal>
    ensures { Gives check_of
        (record {
          w = w;
          h = h;
          y = y.now;
          u = u.now;
          v = v.now;
          words = words.now;
          splits = splits.now;
          motion = motion;
          refs = refs;
          keep = keep.now;
          table0 = table0;
          table1 = table1;
          strengths = strengths;
          settings = settings;
        })
        result }
{
    if !def::size_ok(w, h) {
        return Err(Refusal::Size);
    }
    from_lengths(
        w, h, h, h, 0, y, u, v, words, splits, motion, refs, keep, table0, table1, strengths,
        settings,
    )
}
