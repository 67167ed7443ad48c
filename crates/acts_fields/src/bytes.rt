// Bytes: where one first stands, and a run of them put into a lent buffer.
ghost use Rattle.std.specs.Prelude.{◌≡◌, ◌+◌, ◌≤◌, min, length, drop, position, nat_eq};
ghost use Rattle.acts_fields.specs.Bytes.{until, Stored};

// Where b first stands in s.
fn first(s: &[u8], b: u8) -> Option<usize>
    ensures { result ≡ position (λ x. nat_eq x b) s.now }
{
    s.iter().position(|x| *x == b)
}

// Where b first stands in s from index at on, or the end.
pub fn find(s: &[u8], at: usize, b: u8) -> usize
    requires { at ≤ length s.now }
    ensures { (result ≡ at + until b (drop at s.now)) × (result ≤ length s.now) }
{
    match first(&s[at..], b) {
        Some(i) => at + i,
        None => s.len(),
    }
}

// The index after e, at most len.
pub fn past(e: usize, len: usize) -> usize
    requires { e ≤ len }
    ensures { result ≡ min (e + 1) len }
{
    e.saturating_add(1).min(len)
}

// Stores the bytes w in out from index at on, and returns the index after them.
pub fn put_bytes(out: &mut [u8], at: usize, w: &[u8]) -> usize
    requires { at + length w.now ≤ length out.old }
    ensures { Stored out.old out.new at result w.now }
{
    let end = at + w.len();
    out[at..end].copy_from_slice(w);
    end
}
