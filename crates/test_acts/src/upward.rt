// The examples of 01 with one feature: the identifiers 1 to 17 at 1 to 17, inserted upward, in 3 and in 4 pages.
ghost use Rattle.std.specs.Prelude.{◌≤◌};

use crate::common::{NEAREST, Question, checked, delete, make, number_of};
use crate::{lent, stages, weights};
use geometry::MAX_COORDINATE;
use index_refusals::Epoch;
use pagestore::{PAGE_SIZE, free_count, fresh_page};
use search_rows::{MAX_ROWS, row_of};
use test_parts::answers::Reply;
use test_parts::listing::leaves;
use test_parts::places::coordinate;
use test_parts::show::{Document, title};

// Inserts identifier n at n; stamps are so many seconds apart. The midnight that ends n January 2000 is n days after the first.
fn insert_one(index: &mut [u8], n: u16, apart: u32) -> u64
    requires { (n ≤ 17) × (apart ≤ 86400) }
{
    let epoch = Epoch {
        id: u32::from(n),
        stage: 0,
        stamp: apart * u32::from(n),
    };
    number_of(index::insert(index, epoch, &[coordinate(MAX_COORDINATE + n)]))
}

// Inserts 1 to 16. Returns how many were carried out.
fn insert_sixteen(index: &mut [u8], apart: u32) -> u64
    requires { apart ≤ 86400 }
{
    let mut done = 0;
    for n in 1..=16 {
        done += u64::from(insert_one(index, n, apart) == 0);
    }
    done
}

// The leaves, and of each how many records it has, the first and the last.
fn show_leaves(rt: &impl Print, index: &[u8], said: &[(u64, u64, u64)]) {
    let pages = leaves(index);
    let pages = pages.as_slice();
    Document::Book.line(rt, "  leaves", pages.len() as u64, said.len() as u64);
    for (page, (n, first, last)) in pages.iter().zip(said) {
        Document::Book.leaf(rt, index, *page, *n, *first, *last);
    }
}

// The 17 inserts; `said` is what 01 says of the last one.
pub fn fill(rt: &impl Print, index: &mut [u8], daily: bool, said: u64) {
    let book = Document::Book;
    let apart = if daily { 86400 } else { 0 };
    make(rt, index, "make", 1, 0);
    book.line(
        rt,
        "inserts of 1 to 16 carried out",
        insert_sixteen(index, apart),
        16,
    );
    book.line(rt, "insert of 17", insert_one(index, 17, apart), said);
}

fn show_check(rt: &impl Print, index: &[u8]) {
    let (number, page) = checked(index);
    Document::Book.line(rt, "check", number, 0);
    Document::Book.line(rt, "  page", page, 0);
}

// The question for the k nearest of a point, and what 01 says of the rows and of the leaves.
fn ask(rt: &impl Print, index: &[u8], x: i16, k: usize, rows: u64, leaves: u64) -> Reply {
    let question = Question {
        point: &[x],
        k,
        ..NEAREST
    };
    let _ = println!(rt; "from {x}, k {k}");
    let reply = question.reply(index, MAX_ROWS);
    Document::Book.answer(rt, reply.answer, 0, rows, leaves);
    reply
}

fn questions(rt: &impl Print, index: &[u8]) {
    ask(rt, index, 9, 1, 1, 1);
    let reply = ask(rt, index, 9, 2, 2, 2);
    let rows = [reply.first(), row_of(reply.highs[1], reply.lows[1])];
    Document::Book.rows(rt, &rows, &[(9, 0), (8, 1)]);
    ask(rt, index, 1, 9, 9, 1);
    ask(rt, index, 1, 18, 17, 2);
}

// One leaf is left, and its page: 2 of the 3 pages after the header were freed. Space set free is used again.
fn fewer(rt: &impl Print, index: &mut [u8]) {
    let book = Document::Book;
    delete(rt, index, "delete of 17", 17, 0);
    show_leaves(rt, index, &[(8, 1, 8), (8, 9, 16)]);
    delete(rt, index, "delete of 16", 16, 0);
    show_leaves(rt, index, &[(15, 1, 15)]);
    book.line(rt, "  pages free", u64::from(free_count(index)), 2);
    book.line(
        rt,
        "  the first never used",
        u64::from(fresh_page(index)),
        4,
    );
    book.line(rt, "insert of 16", insert_one(index, 16, 0), 0);
    book.line(rt, "insert of 17", insert_one(index, 17, 0), 0);
    show_leaves(rt, index, &[(9, 1, 9), (8, 10, 17)]);
}

pub fn run(rt: &impl Print) {
    let mut three = [0u8; 3 * PAGE_SIZE];
    title(rt, "3 pages, d 1, identifiers 1 to 17 at 1 to 17");
    fill(rt, &mut three, false, 9);
    show_check(rt, &three);
    let mut four = [0u8; 4 * PAGE_SIZE];
    title(rt, "4 pages, the same");
    fill(rt, &mut four, false, 0);
    show_check(rt, &four);
    show_leaves(rt, &four, &[(9, 1, 9), (8, 10, 17)]);
    questions(rt, &four);
    lent::run(rt, &four);
    stages::ask_two_leaves(rt, &four);
    weights::ask_two_leaves(rt, &four);
    fewer(rt, &mut four);
}
