// Parts of a slice, classes of bytes, and the walk over bytes of one class.
ghost use Rattle.std.specs.Prelude.{◌≡◌};
ghost use Rattle.text.specs.Bytes.{blank, member};
ghost use Rattle.text.specs.Bytes.{part as bytes_part, pass as bytes_pass};

// The bytes start..end of s; none where that is no part of s.
pub fn part(s: &[u8], start: usize, end: usize) -> &[u8]
    ensures { result.now ≡ bytes_part start end s.now }
{
    if start <= end && end <= s.len() {
        &s[start..end]
    } else {
        &s[..0]
    }
}

// A blank; a byte of a word; a byte of a line.
#[derive(Clone, Copy)]
pub enum Class {
    Blank,
    Ink,
    InLine,
}

pub fn is_member(c: Class, b: u8) -> bool
    ensures { result ≡ member c b }
{
    match c {
        Class::Blank => is_blank(b),
        Class::Ink => !is_blank(b),
        Class::InLine => b != 10,
    }
}

// The first place at or after `from` whose byte is not of the class; where there is none, the end of s,
// or `from` where that is past the end.
pub fn pass(c: Class, s: &[u8], from: usize) -> usize
    ensures { result ≡ bytes_pass (member c) s.now from }
{
    if s.len() < from {
        return from;
    }
    let rest = &s[from..];
    let run = rest.iter().position(|b| !is_member(c, *b));
    from + run.unwrap_or(rest.len())
}

// Space, tab, carriage return.
#[tactic(auto, unfolding(crate::specs::Bytes::blank))]
fn is_blank(b: u8) -> bool
    ensures { result ≡ blank b }
{
    matches!(b, b' ' | b'\t' | b'\r')
}
