// Text and numbers put into a buffer, piece after piece. Each function answers the index past what it put.
#![tactic(auto)]

ghost use Rattle.std.specs.Prelude.{◌≡◌, ◌∷◌, ◌+◌, ◌*◌, ◌≤◌, length};
ghost use Rattle.buffer.specs.Text.{Put, decimal, after_blanks, line};

// The bytes of `text`, from index `at` on. One by one: by `copy_from_slice` an archive for C would need `memmove`.
pub fn put(out: &mut [u8], at: usize, text: &[u8]) -> usize
    requires { at + length text.now ≤ length out.old }
    ensures text { Put out.old at text.now out.new result }
{
    for i in 0..text.len() {
        out[at + i] = text[i];
    }
    at + text.len()
}

// A blank and n in decimal: at most 21 bytes.
fn put_number(out: &mut [u8], at: usize, n: u64) -> usize
    requires { at + 21 ≤ length out.old }
    ensures text { Put out.old at (32 ∷ decimal n) out.new result }
    ensures end { result ≤ at + 21 }
{
    let mut digits = [0; 20];
    let k = io::decimal(n, &mut digits);
    let start = put(out, at, b" ");
    put(out, start, &digits[..k])
}

// Each number after a blank.
fn put_numbers(out: &mut [u8], at: usize, numbers: &[u64]) -> usize
    requires { at + 21 * length numbers.now ≤ length out.old }
    ensures text { Put out.old at (after_blanks numbers.now) out.new result }
    ensures end { result ≤ at + 21 * length numbers.now }
{
    let mut end = at;
    for &n in numbers {
        end = put_number(out, end, n);
    }
    end
}

// A line: a name, each number after a blank, and a line feed.
pub fn put_line(out: &mut [u8], at: usize, name: &[u8], numbers: &[u64]) -> usize
    requires { at + (length name.now + 21 * length numbers.now + 1) ≤ length out.old }
    ensures text { Put out.old at (line name.now numbers.now) out.new result }
    ensures end { result ≤ at + (length name.now + 21 * length numbers.now + 1) }
{
    let first = put(out, at, name);
    let last = put_numbers(out, first, numbers);
    put(out, last, b"\n")
}
