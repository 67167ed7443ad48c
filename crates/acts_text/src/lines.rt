// Lines of values: leading columns `act id k stage stamp`, then the coordinates.
ghost use Rattle.std.specs.Prelude.{◌≡◌, ◌≤◌, length, option_and_then, option_map};
ghost use Rattle.acts_text.specs.Acts.{numbered};
ghost use Rattle.acts_text.specs.Lines.{max_features, field_length, Cut, fields, number, coordinates, padded, act_of};

use crate::{Act, ActLine};
use acts_fields::bytes::{find, past};
use acts_fields::fields::{read_natural, read_signed};

// The most bytes of a readable line.
pub const LIMIT: usize = 256;
// The most coordinates.
pub const MAX_FEATURES: usize = 16;

// Where the field that a line begins with ends, where n more fields come.
#[tactic(auto, using(crate::proofs::CellLaws::field_length_last, crate::proofs::CellLaws::field_space))]
fn field_end(line: &[u8], n: usize) -> usize
    ensures { (result ≡ field_length n line.now) × (result ≤ length line.now) }
{
    if n == 0 {
        line.len()
    } else {
        find(line, 0, b' ')
    }
}

// The field that a line begins with and what is behind it, where n more fields come.
fn field(line: &[u8], n: usize) -> (&[u8], &[u8])
    ensures { Cut n line.now result.0.now result.1.now }
{
    let e = field_end(line, n);
    (&line[..e], &line[past(e, line.len())..])
}

// The act whose number a field is.
fn read_kind(f: &[u8]) -> Option<Act>
    ensures { result ≡ option_and_then numbered (number f.now) }
{
    Act::try_from(read_natural(f, u32::MAX)?).ok()
}

// The stamp that a field is.
fn read_stamp(f: &[u8]) -> Option<u32>
    ensures { result ≡ number f.now }
{
    read_natural(f, u32::MAX)
}

// The d coordinates that fields say, then zeros.
fn read_coordinates(line: &[u8], d: usize) -> Option<[i16; MAX_FEATURES]>
    requires { d ≤ max_features }
    ensures { result ≡ option_map padded (coordinates (fields d line.now)) }
{
    let mut coords = [0i16; MAX_FEATURES];
    let mut rest = line;
    for i in 0..d {
        let (f, behind) = field(rest, d - 1 - i);
        let z = read_signed(f)?;
        coords[i] = z;
        rest = behind;
    }
    Some(coords)
}

// What a line says, where d coordinates are named.
#[tactic(auto, using(crate::proofs::CellLaws::act_out))]
pub fn read_act(line: &[u8], d: usize) -> Option<ActLine>
    ensures { result ≡ act_of d line.now }
{
    if line.len() > LIMIT || d > MAX_FEATURES {
        return None;
    }
    let (act, rest) = field(line, d + 4);
    let (id, rest) = field(rest, d + 3);
    let (k, rest) = field(rest, d + 2);
    let (stage, rest) = field(rest, d + 1);
    let (stamp, rest) = field(rest, d);
    Some(ActLine {
        act: read_kind(act)?,
        id: read_natural(id, u32::MAX)?,
        k: read_natural(k, u32::MAX)?,
        stage: read_natural(stage, u32::MAX)?,
        stamp: read_stamp(stamp)?,
        d,
        coords: read_coordinates(rest, d)?,
    })
}
