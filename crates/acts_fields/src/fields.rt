// Fields: decimal numbers with no leading zeros and no -0. An unreadable field gives none.
ghost use Rattle.std.specs.Prelude.{◌≡◌, ◌≤◌};
ghost use Rattle.acts_fields.specs.Fields.{with_digit, value_from, ill_formed, natural, negative, signed};

// The value a with the digit b behind it.
fn with_digit(cap: u32, a: u32, b: u8) -> Option<u32>
    ensures { result ≡ with_digit cap a b }
{
    if !b.is_ascii_digit() {
        return None;
    }
    let v = u64::from(a) * 10 + u64::from(b - b'0');
    if v <= u64::from(cap) {
        Some(v as u32)
    } else {
        None
    }
}

// The value of a run of digits.
fn value_of(f: &[u8], cap: u32) -> Option<u32>
    ensures { result ≡ value_from cap 0 f.now }
{
    let mut v = 0;
    for b in f {
        v = with_digit(cap, v, *b)?;
    }
    Some(v)
}

// Whether a field has no digits, or a zero before another digit.
fn ill_formed(f: &[u8]) -> bool
    ensures { result ≡ ill_formed f.now }
{
    f.is_empty() || f[0] == b'0' && 1 < f.len()
}

// A number from 0 to the cap.
pub fn read_natural(f: &[u8], cap: u32) -> Option<u32>
    ensures { result ≡ natural cap f.now }
{
    if ill_formed(f) {
        return None;
    }
    value_of(f, cap)
}

// Minus m.
#[tactic(auto, using(crate::proofs::DigitLaws::negative_none))]
fn negated(m: u32) -> Option<i16>
    requires { m ≤ 32768 }
    ensures { result ≡ negative m }
{
    if m == 0 {
        return None;
    }
    Some((-i64::from(m)) as i16)
}

// A number from -32,768 to 32,767.
pub fn read_signed(f: &[u8]) -> Option<i16>
    ensures { result ≡ signed f.now }
{
    match f.strip_prefix(b"-") {
        Some(digits) => negated(read_natural(digits, 32768)?),
        None => {
            let n = read_natural(f, 32767)?;
            Some(n as i16)
        }
    }
}
