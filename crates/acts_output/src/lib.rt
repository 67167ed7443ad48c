// The output's lines, written into a lent buffer at an index; each function returns the index after what it wrote.
// Kept: put_decimal. `write!` would need a `fmt::Write` of our own over the buffer, which is no shorter, and a proof that std's decimals are `text`.
#![tactic(auto)]

ghost use Rattle.std.specs.Prelude.{◌≡◌, [], ◌∷◌, ◌+◌, ◌<◌, ◌≤◌, length};
ghost use Rattle.acts_fields.specs.Decimal.{last_digit, decimal};
ghost use Rattle.acts_fields.specs.Bytes.{Written, Stored};
ghost use Rattle.acts_output.specs.Output.{heading, field, result_line};

use acts_fields::bytes::put_bytes;
use search_rows::MAX_ROWS;

mod rows;

pub use rows::put_rows;

// The most bytes of a line of output: five numbers of 64 bits, each with a byte behind it.
pub const MAX_LINE: usize = 105;
// The most bytes that a line of input prints.
pub const MAX_PRINTED: usize = MAX_ROWS * MAX_LINE;

fn last_digit(n: u64) -> u8
    ensures { result ≡ last_digit n }
{
    b'0' + (n % 10) as u8
}

// The last digit of n.
fn put_digit(out: &mut [u8], at: usize, n: u64) -> usize
    requires { at < length out.old }
    ensures { Stored out.old out.new at result (last_digit n ∷ []) }
{
    out[at] = last_digit(n);
    at + 1
}

// The digits of n, which has at most k + 1 of them.
fn put_decimal(out: &mut [u8], at: usize, n: u64, k: usize) -> usize
    requires { at + k < length out.old }
    ensures { (Stored out.old out.new at result (decimal k n)) × (result ≤ at + k + 1) }
{
    if k == 0 || n < 10 {
        return put_digit(out, at, n);
    }
    let e = put_decimal(out, at, n / 10, k - 1);
    put_digit(out, e, n)
}

// A number in decimal and the byte b behind it.
fn put_field(out: &mut [u8], at: usize, n: u64, b: u8) -> usize
    requires { at + 21 ≤ length out.old }
    ensures { (Stored out.old out.new at result (field n b)) × (result ≤ at + 21) }
{
    let e = put_decimal(out, at, n, 19);
    out[e] = b;
    e + 1
}

// A line of output: line number, code, identifier, squared distance, leaves read.
pub fn put_result(
    out: &mut [u8],
    at: usize,
    line: u64,
    code: u64,
    id: u64,
    dist: u64,
    leaves: u64,
) -> usize
    requires { at + 105 ≤ length out.old }
    ensures { (Written out.old out.new at result (result_line line code id dist leaves)) × (result ≤ at + 105) }
{
    let a = put_field(out, at, line, b' ');
    let b = put_field(out, a, code, b' ');
    let c = put_field(out, b, id, b' ');
    let e = put_field(out, c, dist, b' ');
    put_field(out, e, leaves, b'\n')
}

// The output's names.
pub fn put_heading(out: &mut [u8], at: usize) -> usize
    requires { at + 25 ≤ length out.old }
    ensures { Written out.old out.new at result heading }
{
    put_bytes(out, at, b"line code id dist leaves\n")
}
