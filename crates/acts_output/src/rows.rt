// The lines of a question's rows.
ghost use Rattle.std.specs.Prelude.{◌≡◌, ◌+◌, ◌≤◌, length};
ghost use Rattle.search_rows.specs.Held.{rows_in};
ghost use Rattle.acts_output.specs.Output.{row_lines};
ghost use Rattle.acts_output.specs.Puts.{rows_lent, most_printed, Puts};

use crate::put_result;
use search_rows::row_of;

// A line for each of the first rows of upper and lower words.
pub fn put_rows(
    out: &mut [u8],
    at: usize,
    number: u64,
    leaves: u64,
    highs: &[u64],
    lows: &[u64],
    count: usize,
) -> usize
    requires { (at + most_printed ≤ length out.old) × (count ≤ rows_lent) × (count ≤ length highs.now) × (count ≤ length lows.now) }
    ensures { Puts (λ t. t ≡ row_lines number 0 leaves (rows_in highs.now lows.now count))
        most_printed out.old out.new at result }
{
    let mut end = at;
    for i in 0..count {
        let row = row_of(highs[i], lows[i]);
        end = put_result(out, end, number, 0, row.id as u64, row.distance, leaves);
    }
    end
}
