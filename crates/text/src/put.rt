// Texts and numbers that are put into a buffer one behind another.
ghost use Rattle.std.specs.Prelude.{◌+◌, ◌≤◌, length};
ghost use Rattle.text.specs.Put.{Put, Appended, decimal, next_text};

// Puts the text behind the first `at` bytes of out, and answers where it ends. Where it does not fit,
// out stays as it is, and the answer is `at`.
pub fn put_text(out: &mut [u8], at: usize, text: &[u8]) -> usize
    ensures { Put out.old at text.now out.new result }
{
    if out.len() < at || out.len() - at < text.len() {
        return at;
    }
    append(out, at, text)
}

// The same for a number in decimal.
pub fn put_number(out: &mut [u8], at: usize, n: u64) -> usize
    ensures { Put out.old at (decimal n) out.new result }
{
    let mut digits = [0u8; 20];
    let k = io::decimal(n, &mut digits);
    put_text(out, at, &digits[..k])
}

// The same for a blank and a number, where there is room for both.
pub fn put_next(out: &mut [u8], at: usize, n: u64) -> usize
    ensures { at + length (next_text n) ≤ length out.old → Appended out.old at (next_text n) out.new result }
{
    let from = put_text(out, at, b" ");
    put_number(out, from, n)
}

// The same for a text that fits.
fn append(out: &mut [u8], at: usize, text: &[u8]) -> usize
    requires { at + length text.now ≤ length out.old }
    ensures { Appended out.old at text.now out.new result }
{
    let end = at + text.len();
    out[at..end].copy_from_slice(text);
    end
}
