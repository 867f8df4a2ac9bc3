// Bytes in hex: two digits for each byte, the higher one first.
ghost use Rattle.std.specs.Prelude.{◌≡◌, ◌+◌, ◌*◌, ◌<◌, ◌≤◌, length};
ghost use Rattle.text.specs.Put.{Put, Appended};
ghost use Rattle.record_program.specs.Hex.{digit_of, byte_text, hex_of, value_of, pair_value, HexRead};

// A digit for a number below 16, in lower case.
fn digit(n: u8) -> u8
    requires { n < 16 }
    ensures { result ≡ digit_of n }
{
    if n < 10 {
        return 48 + n;
    }
    87 + n
}

// Puts a byte behind the first `at` bytes of out, and answers where it ends.
fn put_byte(out: &mut [u8], at: usize, b: u8) -> usize
    ensures { Put out.old at (byte_text b) out.new result }
{
    text::put_text(out, at, &[digit(b / 16), digit(b % 16)])
}

// The same for all the bytes, where there is room for them.
pub fn put_hex(out: &mut [u8], at: usize, bytes: &[u8]) -> usize
    ensures { at + 2 * length bytes.now ≤ length out.old → Appended out.old at (hex_of bytes.now) out.new result }
{
    let mut end = at;
    for b in bytes {
        end = put_byte(out, end, *b);
    }
    end
}

// What a digit stands for, in either case, if it is one.
fn value(c: u8) -> Option<u8>
    ensures { result ≡ value_of c }
{
    match c {
        b'0'..=b'9' => Some(c - 48),
        b'A'..=b'F' => Some(c - 55),
        b'a'..=b'f' => Some(c - 87),
        _ => None,
    }
}

// What the two digits of a byte stand for.
fn pair(a: u8, b: u8) -> Option<u8>
    ensures { result ≡ pair_value (value_of a) (value_of b) }
{
    let high = value(a)?;
    let low = value(b)?;
    Some(16 * high + low)
}

// Puts the bytes that w spells in hex at the front of out, where there is room for them, and answers how many they are.
pub fn read_hex(w: &[u8], out: &mut [u8]) -> Option<usize>
    ensures { length w.now ≤ 2 * length out.old → HexRead w.now out.new result }
{
    let n = w.len() / 2;
    if out.len() < n || w.len() % 2 != 0 {
        return None;
    }
    for (i, b) in out[..n].iter_mut().enumerate() {
        *b = pair(w[2 * i], w[2 * i + 1])?;
    }
    Some(n)
}
