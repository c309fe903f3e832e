// Says in words where a table, a provider list or books are unsound, or that they are sound. Thin over `unsound`, which finds it.
#![tactic(auto)]

mod entry;
mod version;

ghost use Rattle.std.specs.Prelude.{◌≡◌, length};

use model::limit;
use program::{Program, Told};
use words::ROW;

// A table of 4,096 rows, a provider list and books, and a byte more each: what is longer is told as it is.
const TABLE: usize = limit::ROWS * ROW + 1;

const PROVIDERS: usize = limit::PROVIDERS as usize + 1;

const BOOKS: usize = books::BOOK_BYTES + 1;

const LONGER: &str = "the file is longer than any that is sound";

fn free_rows() -> [u8; TABLE]
    ensures { 327681 ≡ length result }
{
    [0; TABLE]
}

fn say_sound(out: &impl Print, table: &[u8]) {
    let rows = table.len() / ROW;
    if let Some(used) = scan::verdict(table) {
        let _ = println!(out; "sound: {used} of {rows} rows used");
    }
}

// Provider list and books first, since the table's fault may be theirs.
fn inspect(out: &impl Print, table: &[u8], providers: &[u8], books: &[u8]) {
    let of_books = unsound::books(providers, books);
    let of_table = unsound::table(table, providers, books);
    if of_books.clause != 0 {
        entry::say(out, of_books, providers, books);
    }
    if of_table.clause == 0 {
        say_sound(out, table);
    }
    if of_table.clause != 0 && of_table.clause != 32 {
        version::say(out, of_table, table);
    }
}

// Reads the three files, and goes on if all of them were read.
fn run(out: &impl Print, program: Program<'_>) -> Result<(), Told> {
    let mut table = free_rows();
    let mut providers = [0u8; PROVIDERS];
    let mut books = [0u8; BOOKS];
    let table = program.load(1, &mut table, LONGER);
    let providers = program.load(2, &mut providers, LONGER);
    let books = program.load(3, &mut books, LONGER);
    inspect(out, table?, providers?, books?);
    Ok(())
}

fn main(rt: HostRuntime) {
    let program = Program::new(rt, "inspect", 0);
    if !program.has_just(3) {
        program.say("usage: inspect TABLE PROVIDERS BOOKS");
        return;
    }
    let _ = run(&rt, program);
}
