// A place of provider list or books at fault, in words: "filter 1 (5, 303555): provider 5 is absent". docs/FAULTS.md has all clauses.
use faults::Fault;
use model::limit;

// The largest provider, as a word.
const PROVIDERS: u64 = limit::PROVIDERS as u64;

// Place i of codes or filters, which begin at `at`.
fn four_bytes(books: &[u8], at: usize, i: usize) -> u64 {
    if books.len() != books::BOOK_BYTES || at > books::FILTERS_AT || i >= books::ROW_PLACES {
        return 0;
    }
    octets::u32_at(books, at + 4 * i)
}

// Place i of the pairs.
fn eight_bytes(books: &[u8], i: usize) -> u64 {
    if books.len() != books::BOOK_BYTES || i >= books::SPLIT_PLACES {
        return 0;
    }
    octets::u64_at(books, books::SPLITS_AT + 8 * i)
}

fn say_provider(out: &impl Print, f: Fault, byte: u8) {
    let _ = println!(out; "provider {}: the byte is {byte}, not 0, 1 or 3", f.place);
}

fn say_code(out: &impl Print, f: Fault, code: u64, owner: u64) {
    let second = f.second;
    let _ = print!(out; "code {} ({code}, owner {owner}): ", f.place);
    let _ = match f.clause {
        5 => println!(out; "used, and place {second} before it is free"),
        6 => println!(out; "no code"),
        7 if owner == 0 => println!(out; "owner 0 is none"),
        7 => println!(out; "owner {owner} is absent"),
        _ => println!(out; "not above code {second}"),
    };
}

fn say_filter(out: &impl Print, f: Fault, provider: u64, code: u64) {
    let second = f.second;
    let _ = print!(out; "filter {} ({provider}, {code}): ", f.place);
    let _ = match f.clause {
        9 => println!(out; "used, and place {second} before it is free"),
        10 if provider == 0 || provider > PROVIDERS => println!(out; "provider {provider} is none"),
        10 => println!(out; "provider {provider} is absent"),
        11 => println!(out; "no code"),
        _ => println!(out; "not above filter {second}"),
    };
}

fn say_pair(out: &impl Print, f: Fault, one: u64, other: u64) {
    let second = f.second;
    let _ = print!(out; "pair {} ({one}, {other}): ", f.place);
    let _ = match f.clause {
        13 => println!(out; "used, and place {second} before it is free"),
        14 => println!(out; "one of its codes is none"),
        15 => println!(out; "both codes are the same"),
        _ => println!(out; "one of its codes stands in pair {second}"),
    };
}

// A fault at no place.
fn say_whole(out: &impl Print, f: Fault, bytes: usize) {
    let _ = match f.clause {
        1 => println!(out; "provider list: more than 63 bytes"),
        3 => println!(out; "books: {bytes} bytes, not 8,712"),
        _ => println!(out; "books: the first eight bytes are not zero"),
    };
}

pub fn say(out: &impl Print, f: Fault, providers: &[u8], books: &[u8]) {
    if f.place == 0 {
        say_whole(out, f, books.len());
        return;
    }
    let i = (f.place - 1) as usize;
    match f.clause {
        5..=8 => {
            let w = four_bytes(books, books::CODES_AT, i);
            say_code(out, f, w / 64, w % 64);
        }
        9..=12 => {
            let w = four_bytes(books, books::FILTERS_AT, i);
            say_filter(out, f, w / 1048576, w % 1048576);
        }
        13..=16 => {
            let w = eight_bytes(books, i);
            say_pair(out, f, w / 4294967296, w % 4294967296);
        }
        _ => say_provider(out, f, providers.get(i).copied().unwrap_or(0)),
    }
}
