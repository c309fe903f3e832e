// The step program of document 01: R = 0, an empty table of 256 rows, providers 1 to 3 with Local SMSs, code 303555 owned by 1, and the
// filter (3, 303555). Event records from standard input; a line for each, then a line for each version. [Z1]
#![tactic(auto)]

use model::{Provider, Version, limit};
use reading::fill;
use record::RECORD;
use std::io::Read;
use tray::MESSAGE_SIZE;
use words::ROW;

const RETRIES: u8 = 0;

const ROWS: usize = 256;

// Bytes of the table, and of the smallest tray.
const TABLE_BYTES: usize = ROWS * ROW;

const LEAST_TRAY: usize = limit::PLACES * MESSAGE_SIZE;

const CODES_AT: usize = 8;

const FILTERS_AT: usize = 4104;
// A place of four bytes.
const PLACE: u64 = 0x1_0000_0000;

// A line: TN, number, status, size of failed. A print that fails is passed over, here and below.
fn print_version(out: &impl Print, v: Version) {
    let _ = println!(out;
        "{} {} {} {}",
        v.id.tn.0,
        v.id.number,
        v.status,
        systems::size(v.cast.failed)
    );
}

// The code 303555 of provider 1, and the filter (3, 303555): each the first place of its list, with the free one behind it.
fn put_books(books: &mut [u8; books::BOOK_BYTES]) {
    octets::put_u64(books, CODES_AT, (303_555 * 64 + 1) * PLACE);
    octets::put_u64(books, FILTERS_AT, (3 * 1_048_576 + 303_555) * PLACE);
}

// A line for each event, with the list lent for it: place from 1, outcome, message count.
fn print_events(
    out: &impl Print,
    input: &mut impl Read,
    table: &mut [u8],
    list: [Provider; 3],
    books: &[u8],
    tray: &mut [u8],
) {
    for place in 1..u64::MAX {
        let mut event = [0u8; RECORD];
        let (Ok(n) | Err(n)) = fill(input, &mut event);
        if n == 0 {
            return;
        }
        let a = sample::step_of_three(table, list, books, RETRIES, &event[..n], tray);
        let _ = println!(out; "{place} {} {}", a.outcome, a.count);
    }
}

// A line for each version, up to the first free row.
fn print_table(out: &impl Print, table: &[u8]) {
    for i in 0..table.len() / ROW {
        let w = rows::words(table, i);
        if words::blank(w) {
            return;
        }
        print_version(out, row::version_of(w));
    }
}

fn main(rt: HostRuntime) {
    let mut table = [0u8; TABLE_BYTES];
    let mut books = [0u8; books::BOOK_BYTES];
    let mut tray = [0u8; LEAST_TRAY];
    put_books(&mut books);
    print_events(
        &rt,
        &mut rt.stdin(),
        &mut table,
        sample::built_in(),
        &books,
        &mut tray,
    );
    print_table(&rt, &table);
}
