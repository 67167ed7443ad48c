// The line of names.
ghost use Rattle.std.specs.Prelude.{◌≡◌};
ghost use Rattle.acts_text.specs.Names.{features_in, names_in};

// The bytes of `act id k stage stamp`; behind them a coordinate takes 3 up to c9, and 4 from c10 on.
const LEAD: usize = 20;
// The bytes of a line of ten names.
const TEN: usize = LEAD + 30;

// How many coordinates a line of names of n bytes has, if one has n bytes.
fn features_in(n: usize) -> Option<usize>
    ensures { result ≡ features_in n }
{
    if n <= LEAD {
        None
    } else if n <= TEN {
        ((n - LEAD) % 3 == 0).then_some((n - LEAD) / 3)
    } else {
        ((n - TEN) % 4 == 0).then_some(10 + (n - TEN) / 4)
    }
}

// The d of a line of names.
pub fn read_names(line: &[u8]) -> Option<usize>
    ensures { result ≡ names_in line.now }
{
    let all = b"act id k stage stamp c0 c1 c2 c3 c4 c5 c6 c7 c8 c9 c10 c11 c12 c13 c14 c15";
    if all.starts_with(line) {
        features_in(line.len())
    } else {
        None
    }
}
