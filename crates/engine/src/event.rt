// One event on a sound table: its facts are gathered, the rules decide, the rows are changed and the mail delivered.
ghost use Rattle.std.specs.Prelude.{◌≡◌, true, ◌≤◌, ◌<◌, length};
ghost use Rattle.std.proofs.Math.Option.{some};
ghost use Rattle.model.specs.Numbers.{code_of};
ghost use Rattle.model.specs.Books.{owner_of, sound_splits, most_retries};
ghost use Rattle.model.specs.Record.{is_create, is_broadcast};
ghost use Rattle.model.specs.Selection.{selected_for};
ghost use Rattle.model.specs.Sound.{sound_lines};
ghost use Rattle.model.specs.Step.{rule};
ghost use Rattle.model.specs.declared.Version.{Version};
ghost use Rattle.rows.specs.Table.{decode};
ghost use Rattle.lines.specs.Lines.{line_by};
ghost use Rattle.table.specs.Survey.{the_one, Surveyed};
ghost use Rattle.books.specs.Packed.{book_bytes, splits_of, decode_books, sound_bytes};
ghost use Rattle.scan.specs.Sound.{SoundTable};
ghost use Rattle.tray.specs.Tray.{places_in};
ghost use Rattle.engine.specs.Event.{Ready, Did, line_rows, given_to, KnownTo};

use model::{Event, Marks};
use outcomes::Answer;
use rules::Known;
use table::survey::{Facts, Placed};
use words::ROW;

// The owner of a create's code; no other kind asks.
fn owner(marks: Marks, books: &[u8], e: Event) -> u8
    requires { sound_bytes marks books.now ≡ true }
    ensures { is_create e.kind ≡ true → result ≡ owner_of (decode_books marks books.now) (code_of e.tn) }
{
    if rules::is_create(e.kind) {
        return books::owner(books, books::code_of(e.tn));
    }
    0
}

// Whom a broadcast of the version asks, by the TN of its row; no other kind does.
fn selected(marks: Marks, books: &[u8], e: Event, asked: Option<Placed>) -> u64
    requires { sound_bytes marks books.now ≡ true }
    ensures { is_broadcast e.kind ≡ true → (v : Version) → the_one asked ≡ some v
        → result ≡ selected_for (decode_books marks books.now) v.id.tn }
{
    if opening::is_broadcast(e.kind) {
        if let Some(p) = asked {
            let code = books::code_of(p.version.id.tn);
            return selection::classify(marks, books, code).selected;
        }
    }
    0
}

// What books, R and table say beside the versions.
fn known(marks: Marks, books: &[u8], most: u8, free: bool, e: Event, asked: Option<Placed>) -> Known
    requires { sound_bytes marks books.now ≡ true }
    ensures { KnownTo marks books.now most free e asked result }
{
    Known {
        most,
        absent: judge::absent(marks, e),
        owner: owner(marks, books, e),
        free,
        selected: selected(marks, books, e, asked),
    }
}

// The facts of the versions of the event's line, under either of its names.
fn surveyed(books: &[u8], table: &[u8], n: usize, e: Event) -> Facts
    requires sound_table { SoundTable table.now n }
    requires books_len { (length books.now ≡ book_bytes) × (sound_splits (splits_of books.now) ≡ true) × (e.tn.0 < 17179869184) }
    ensures { Surveyed (decode table.now) (line_rows books.now e (decode table.now)) e.version
        (is_create e.kind) result }
{
    let line = books::line_names(books, e.tn);
    table::survey::line(
        table,
        n,
        line.low,
        line.high,
        e.version,
        rules::is_create(e.kind),
    )
}

// A well-formed event on a sound table.
pub fn on_event(
    marks: Marks,
    books: &[u8],
    most: u8,
    table: &mut [u8],
    n: usize,
    e: Event,
    tray: &mut [u8],
) -> Answer
    requires sound_table { SoundTable table.old n }
    requires ready { Ready marks books.now e (places_in tray.old) × (most ≤ most_retries)
        × (sound_lines (line_by books.now) (decode table.old) ≡ true) }
    ensures { Did (rule (given_to marks books.now most table.old e)) table.old tray.old
        table.new tray.new result }
{
    let f = surveyed(books, table, n, e);
    let k = known(marks, books, most, n < table.len() / ROW, e, f.asked);
    let v = rules::decide(e, k, f);
    table::change::apply(table, n, v.rows);
    let count = delivery::deliver(tray, v.mail);
    outcomes::answered(v.out, count)
}
