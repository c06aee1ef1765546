// Recorded cases, as the programs that replay them read them: decimal numbers one after another, with other bytes between.
#![tactic(auto)]

ghost use Rattle.std.specs.Prelude.{◌≡◌, ◌-◌, ◌%◌, ◌≤◌, ◌<◌, min, length};
ghost use Rattle.laws.specs.Index.{tabulate};
ghost use Rattle.cases.specs.Numbers.{number_byte, first, value_of, number_at, place_after, signed_of, Filled, Took};

// A number as it is written: its sign, its size below 2 ^ 60, and the place after it.
// kept: the sign beside the size, since `number_at` and `signed_of` of specs/ speak of both, and a type without a sign reads the size alone.
#[derive(Clone, Copy)]
pub struct Written {
    pub negative: bool,
    pub size: usize,
    pub next: usize,
}

// A digit, or the minus before one; or, where `wanted` is false, any other byte.
fn number_byte(b: u8, wanted: bool) -> bool
    ensures { result ≡ number_byte b wanted }
{
    let is = matches!(b, b'-' | b'0'..=b'9');
    if wanted { is } else { !is }
}

// The first place from `at` on where a number's byte stands, or where none does; or the end.
fn until(s: &[u8], at: usize, wanted: bool) -> usize
    requires { at ≤ length s.now }
    ensures { (result ≡ first wanted s.now (length s.now - at) at) × (at ≤ result) × (result ≤ length s.now) }
{
    for i in at..s.len() {
        if number_byte(s[i], wanted) {
            return i;
        }
    }
    s.len()
}

// What the digits from `from` to `to` come to, modulo 2 ^ 60.
fn value(s: &[u8], from: usize, to: usize) -> usize
    requires { (from ≤ to) × (to ≤ length s.now) }
    ensures { result ≡ value_of s.now from (to - from) }
{
    let mut v: usize = 0;
    for b in &s[from..to] {
        v = (10 * v + usize::from(*b) % 48) % 1152921504606846976;
    }
    v
}

// The first number from `at` on.
pub fn number(s: &[u8], at: usize) -> Written
    ensures { result ≡ number_at s.now at }
{
    if s.len() < at {
        return Written {
            negative: false,
            size: 0,
            next: at,
        };
    }
    let start = until(s, at, true);
    let stop = until(s, start, false);
    if start == stop {
        return Written {
            negative: false,
            size: 0,
            next: stop,
        };
    }
    if s[start] == b'-' {
        return Written {
            negative: true,
            size: value(s, start + 1, stop),
            next: stop,
        };
    }
    Written {
        negative: false,
        size: value(s, start, stop),
        next: stop,
    }
}

// A type whose values stand in a case as numbers.
pub trait FromWritten: Copy {
    ghost use Rattle.cases.specs.declared.Written.{Written};

    // What a written number is read as.
    ghost read: { Written → Self };

    fn from_written(n: Written) -> Self
        ensures { result ≡ read n };
}

impl FromWritten for u8 {
    ghost read = { λ n. n.size % 256 };

    fn from_written(n: Written) -> u8 {
        (n.size % 256) as u8
    }
}

impl FromWritten for u16 {
    ghost read = { λ n. n.size % 65536 };

    fn from_written(n: Written) -> u16 {
        (n.size % 65536) as u16
    }
}

impl FromWritten for u32 {
    ghost read = { λ n. n.size % 4294967296 };

    fn from_written(n: Written) -> u32 {
        (n.size % 4294967296) as u32
    }
}

// A number with its sign, of those down to -m and below m.
fn signed(n: Written, m: usize) -> i32
    requires { (1 ≤ m) × (m ≤ 32768) }
    ensures { result ≡ signed_of m n }
{
    if n.negative {
        return 0 - (n.size % (m + 1)) as i32;
    }
    (n.size % m) as i32
}

impl FromWritten for i8 {
    ghost read = { signed_of 128 };

    fn from_written(n: Written) -> i8 {
        signed(n, 128) as i8
    }
}

impl FromWritten for i16 {
    ghost read = { signed_of 32768 };

    fn from_written(n: Written) -> i16 {
        signed(n, 32768) as i16
    }
}

// The next numbers of s from `at` on, one for each place of out. It answers the place after them.
pub fn fill<T: FromWritten>(s: &[u8], at: usize, out: &mut [T]) -> usize
    ensures { Filled T.read s.now at out.old out.new result }
{
    let mut place = at;
    for v in out.iter_mut() {
        let n = number(s, place);
        *v = T::from_written(n);
        place = n.next;
    }
    place
}

// A slice of a case: its length, and the place after its elements.
#[derive(Drop)]
pub struct Part {
    pub len: usize,
    pub next: usize,
}

// A slice of a case, its length first, into the front of room, as far as room goes.
pub fn slice<T: FromWritten>(s: &[u8], at: usize, room: &mut [T]) -> Part
    ensures { Took T.read s.now at room.old room.new result }
{
    let n = number(s, at);
    let len = n.size.min(room.len());
    let next = fill(s, n.next, &mut room[..len]);
    Part { len, next }
}

// A text of numbers, and how far it has been read.
#[derive(Drop)]
pub struct Case<'a> {
    pub text: &'a [u8],
    pub at: usize,
}

impl Case<'_> {
    // The next number, without its sign.
    pub fn number(&mut self) -> usize
        ensures text { self.new.text ≡ self.old.text }
        ensures value { result ≡ (number_at self.old.text.now self.old.at).size }
        ensures next { self.new.at ≡ (number_at self.old.text.now self.old.at).next }
    {
        let n = number(self.text, self.at);
        self.at = n.next;
        n.size
    }

    // The next number as a value of a type.
    pub fn read<T: FromWritten>(&mut self) -> T
        ensures text { self.new.text ≡ self.old.text }
        ensures value { result ≡ T.read (number_at self.old.text.now self.old.at) }
        ensures next { self.new.at ≡ (number_at self.old.text.now self.old.at).next }
    {
        let n = number(self.text, self.at);
        self.at = n.next;
        T::from_written(n)
    }

    // The next slice, its length first, at the front of room, as far as room goes.
    pub fn slice<'b, T: FromWritten>(&mut self, room: &'b mut [T]) -> &'b mut [T]
        ensures text { self.new.text ≡ self.old.text }
        ensures next { let n = number_at self.old.text.now self.old.at in
            self.new.at ≡ place_after self.old.text.now n.next (min n.size (length room.old)) }
        ensures value { let n = number_at self.old.text.now self.old.at in
            result.now ≡ tabulate (min n.size (length room.old)) (λ k. T.read (number_at self.old.text.now (place_after self.old.text.now n.next k))) }
    {
        let part = slice(self.text, self.at, &mut *room);
        self.at = part.next;
        &mut room[..part.len]
    }
}
