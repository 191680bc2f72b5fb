// Bytes of a slice. No fold ends early, so that the compiler can take many bytes at a time.
ghost use Rattle.std.specs.Prelude.{◌≡◌, ◌+◌, ◌≤◌, ℕ, Bool, length, take, drop};
ghost use Rattle.machine.specs.Lists.{all, same, pasted, put_in, is_digit, is_space};
ghost use Rattle.field.specs.Bytes.{Answers};
ghost use Rattle.format.specs.Cutting.{next_line};
ghost use Rattle.format.specs.Fields.{printable, left_justified};

// The part from at, of that width or as much as there is.
pub fn part(s: &[u8], at: usize, width: usize) -> &[u8]
    ensures { result.now ≡ take width (drop at s.now) }
{
    let rest = s.get(at..).unwrap_or(&[]);
    rest.get(..width).unwrap_or(rest)
}

// The next line from at, or as many bytes of it as there are.
pub fn next_line(bytes: &[u8], at: usize) -> &[u8]
    ensures { result.now ≡ next_line (drop at bytes.now) }
{
    let rest = bytes.get(at..).unwrap_or(&[]);
    let cut = format::cut_of(rest);
    part(rest, 0, cut.bytes)
}

// Whether each byte passes.
fn every<F: Fn(u8) -> bool>(s: &[u8], passes: F) -> bool
    requires { F.IsAlwaysCallable passes }
    ensures { (p : ℕ → Bool) → Answers (F.post passes) p → result ≡ all p s.now }
{
    s.iter().fold(true, |ok, b| ok & passes(*b))
}

// Only bytes from 32 to 126.
pub(crate) fn is_printable(s: &[u8]) -> bool
    ensures { result ≡ all printable s.now }
{
    every(s, |b| matches!(b, b' '..=b'~'))
}

pub fn is_digits(s: &[u8]) -> bool
    ensures { result ≡ all is_digit s.now }
{
    every(s, |b| b.is_ascii_digit())
}

// Only spaces.
pub fn is_blank(s: &[u8]) -> bool
    ensures { result ≡ all is_space s.now }
{
    every(s, |b| b == b' ')
}

pub fn is_same(a: &[u8], b: &[u8]) -> bool
    ensures { result ≡ same a.now b.now }
{
    a.len() == b.len() && a.iter().zip(b).fold(true, |same, (x, y)| same & (x == y))
}

// A first byte that is no space.
pub(crate) fn is_left_justified(s: &[u8]) -> bool
    ensures { result ≡ left_justified s.now }
{
    s.first().is_some_and(|b| *b != b' ')
}

// Byte by byte: copy_from_slice would have the library for other languages ask for one more function of C's.
fn copy(text: &[u8], at: usize, room: &mut [u8])
    requires { at + length text.now ≤ length room.old }
    ensures { room.new ≡ pasted room.old at text.now }
{
    for i in 0..text.len() {
        room[at + i] = text[i];
    }
}

// A text in a room from an offset on. Where it does not fit, the room stays as it was.
pub fn put(text: &[u8], at: usize, room: &mut [u8])
    ensures { room.new ≡ put_in room.old at text.now }
{
    if at <= room.len() && text.len() <= room.len() - at {
        copy(text, at, room);
    }
}
