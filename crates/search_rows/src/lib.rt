// The candidates of a question: the best rows so far, in row order, held in two lent arrays.
#![tactic(auto)]

ghost use Rattle.std.specs.Prelude.{◌≡◌, ◌+◌, ◌≤◌, length};
ghost use Rattle.search_rows.specs.Rows.{row_order, row_of, age_of, high_of, low_of, distance_in, FitsWords};
ghost use Rattle.search_rows.specs.Held.{behind_all, GivesWay, Held, Offered};

// The most rows that a question may ask for.
pub const MAX_ROWS: usize = 64;

// A row (01, 02): the squared distance, weighted where weights are asked for, the identifier and the stamp of a record, and the position of the leaf that holds it.
// Its 24 bytes have no gap.
#[repr(C)]
#[derive(Clone, Copy)]
pub struct Row {
    pub distance: u64,
    pub id: u32,
    pub stamp: u32,
    pub position: u64,
}

// The latest stamp.
const LATEST: u32 = 4294967295;

// A row is held in two words: in the upper one its distance and the first 28 bits of its age, in the lower one the last 4 bits of
// its age, its identifier and its position. There is room for so many of each; the first bits of an age have as much as a position.
const AGES: u64 = 16;

const IDS: u64 = 4294967296;

const POSITIONS: u64 = 268435456;

// The two words of a row; their order, the upper first, is that of rows.
#[derive(Clone, Copy)]
struct Words {
    high: u64,
    low: u64,
}

// How far from the latest stamp a stamp is: the later, the lower.
fn age(stamp: u32) -> u64
    ensures { result ≡ age_of stamp }
{
    u64::from(LATEST - stamp)
}

impl Words {
    fn of(row: Row) -> Words
        requires { FitsWords row }
        ensures words { (result.high ≡ high_of row) × (result.low ≡ low_of row) }
        ensures again { row_of result.high result.low ≡ row }
    {
        let tie = age(row.stamp) % AGES * IDS + u64::from(row.id);
        Words {
            high: row.distance * POSITIONS + age(row.stamp) / AGES,
            low: tie * POSITIONS + row.position,
        }
    }
}

// The distance of the row of an upper word.
pub fn distance_in(high: u64) -> u64
    ensures { result ≡ distance_in high }
{
    high / POSITIONS
}

// The row of two words.
// Kept: a function of two numbers and no `From<Words>`, since callers read the words from the two arrays lent to `offer`.
pub fn row_of(high: u64, low: u64) -> Row
    ensures { result ≡ row_of high low }
{
    let tie = low / POSITIONS;
    let age = high % POSITIONS * AGES + tie / IDS;
    let id = (tie % IDS) as u32;
    let stamp = LATEST - age as u32;
    Row {
        distance: high / POSITIONS,
        id,
        stamp,
        position: low % POSITIONS,
    }
}

// Whether there is a row before index i that is not before the row of these words.
// Kept: the order of words by hand. The derived one reads both words of each row, without a branch: with it a question of one feature took 17 % more
// instructions, of two features 8 %.
fn gives_way(highs: &[u64], lows: &[u64], i: usize, words: Words) -> bool
    requires { (i ≤ length highs.now) × (i ≤ length lows.now) }
    ensures { GivesWay highs.now lows.now i (row_of words.high words.low) result }
{
    i > 0 && (highs[i - 1] > words.high || (highs[i - 1] == words.high && lows[i - 1] >= words.low))
}

// Puts the row of these words in among the n rows, from the last on; those behind it move up by one.
// Kept: a `while`, which stops where a row stays and hands its place to the two lines behind it.
fn slide(highs: &mut [u64], lows: &mut [u64], n: usize, words: Words)
    requires { Held highs.old lows.old n (n + 1) }
    ensures { Offered highs.old lows.old n (n + 1) (row_of words.high words.low) (n + 1)
        highs.new lows.new }
{
    let mut i = n;
    while gives_way(highs, lows, i, words) {
        highs[i] = highs[i - 1];
        lows[i] = lows[i - 1];
        i -= 1;
    }
    highs[i] = words.high;
    lows[i] = words.low;
}

// Whether there are k rows, the k-th of them nearer than a distance: a row that far is behind all of them. So is every row of a
// span whose bound is that distance: the stop test of the visit.
pub fn behind(highs: &[u64], n: usize, k: usize, distance: u64) -> bool
    requires { k ≤ length highs.now }
    ensures { result ≡ behind_all highs.now n k distance }
{
    k <= n && k > 0 && distance_in(highs[k - 1]) < distance
}

// Offers a row to the n rows: it is put in in row order, and the first k are kept. Returns the number of rows then.
pub fn offer(highs: &mut [u64], lows: &mut [u64], n: usize, k: usize, row: Row) -> usize
    requires { FitsWords row × Held highs.old lows.old n k }
    ensures { Offered highs.old lows.old n k row result highs.new lows.new }
{
    let words = Words::of(row);
    if n < k {
        slide(highs, lows, n, words);
        return n + 1;
    }
    if !gives_way(highs, lows, n, words) {
        return n;
    }
    slide(highs, lows, n - 1, words);
    n
}
