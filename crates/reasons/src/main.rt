// Says of each provider whether a broadcast for a TN asks its Local SMS, and if not, why. Thin over `classes`, which decides.
#![tactic(auto)]

mod event;
mod question;
mod texts;

use model::{Tn, limit};
use program::{Program, Told};
use question::{BOOKS, PROVIDERS, Question, TN};
use texts::Class;

// Providers at most, and so classes, and bytes of a provider list.
const MOST_PROVIDERS: usize = limit::PROVIDERS as usize;

const LONGER: &str = "the file is longer than any that is sound";

// The code that a code is paired with, if any.
fn partner(books: &[u8], code: u64) -> Option<u64> {
    if books.len() != books::BOOK_BYTES {
        return None;
    }
    match books::partner(books, code) {
        0 => None,
        partner => Some(partner),
    }
}

// What was asked, and the class of each provider.
fn say(out: &impl Print, q: Question, books: &[u8], classes: &[u8; MOST_PROVIDERS]) {
    let code = books::code_of(Tn(q.tn));
    texts::say_question(out, q, code, partner(books, code));
    for (i, class) in classes.iter().enumerate() {
        let _ = println!(out; "provider {}: {}", i + 1, Class(*class));
    }
}

fn answer(out: &impl Print, program: Program<'_>, q: Question, providers: &[u8], books: &[u8]) {
    let mut classes = [0u8; MOST_PROVIDERS];
    let said = classes::write(providers, books, q.tn, &mut classes);
    match said {
        0 => say(out, q, books, &classes),
        1 => {
            program.say(
                "provider list or books are unsound: \
                examples/inspect.sh TABLE PROVIDERS BOOKS says where, also with /dev/null as TABLE",
            );
        }
        _ => {
            program.say_of(TN, "no TN: ten digits, the first and the fourth 2 to 9");
        }
    }
}

// Reads the two files, and goes on if both were read.
fn run(out: &impl Print, program: Program<'_>) -> Result<(), Told> {
    let mut providers = [0u8; MOST_PROVIDERS];
    let mut books = [0u8; books::BOOK_BYTES];
    let providers = program.load(PROVIDERS, &mut providers, LONGER);
    let books = program.load(BOOKS, &mut books, LONGER);
    let (providers, books) = (providers?, books?);
    let q = question::ask(program)?;
    answer(out, program, q, providers, books);
    Ok(())
}

fn main(rt: HostRuntime) {
    let program = Program::new(rt, "reasons", 0);
    if !question::fits(program) {
        program.say("usage: reasons PROVIDERS BOOKS tn TN");
        program.say("usage: reasons PROVIDERS BOOKS event EVENTS [PLACE]");
        return;
    }
    let _ = run(&rt, program);
}
