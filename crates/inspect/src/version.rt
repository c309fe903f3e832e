// A row at fault, in words: "row 17: TN 3035550100 version 2: live in status 7". docs/FAULTS.md has all clauses.
use faults::Fault;
use model::{Id, Version};
use std::fmt;
use std::fmt::{Display, Formatter};
use words::ROW;

// A version by its name.
#[derive(Clone, Copy)]
struct Named {
    id: Id,
}

impl Display for Named {
    fn fmt<W: fmt::Write>(&self, f: &mut Formatter<W>) -> fmt::Result {
        write!(f, "TN {} version {}", self.id.tn.0, self.id.number)
    }
}

// What a clause says of a row.
#[derive(Clone, Copy)]
struct Words {
    fault: Fault,
    row: Version,
}

impl Display for Words {
    fn fmt<W: fmt::Write>(&self, f: &mut Formatter<W>) -> fmt::Result {
        let second = self.fault.second;
        let v = self.row;
        let status = v.status;
        match self.fault.clause {
            3 => write!(f, "used, and row {second} before it is free"),
            4 => write!(f, "a spare bit is set"),
            5 => write!(f, "no TN"),
            6 => write!(f, "version number 0"),
            7 => write!(f, "status {status} is none"),
            8 => write!(f, "stamp 0"),
            9 => write!(f, "new provider 0"),
            10 => write!(f, "old provider 0"),
            11 => write!(f, "canceller 3 is neither side"),
            12 => write!(f, "a set has bit 0, which is nobody's"),
            13 => write!(
                f,
                "the highest bit of a word of retries is set, which is nobody's"
            ),
            14 if v.within => write!(
                f,
                "within one provider, but the new provider is {} and the old {}",
                v.new.provider, v.old.provider
            ),
            14 => write!(f, "new and old provider are both {}", v.new.provider),
            15 => write!(
                f,
                "the new side's due date and LRN do not go with its having created or not"
            ),
            16 => write!(
                f,
                "the old side's due date and authorization do not go with its having created or not"
            ),
            17 => write!(f, "neither side has created"),
            18 => write!(f, "a side that status {status} needs has not created"),
            19 => write!(
                f,
                "cause {} with authorization {}",
                v.old.cause, v.old.authorization
            ),
            20 => write!(f, "canceller {} in status {status}", v.canceller),
            21 => write!(
                f,
                "a system stands in two of the sets confirmed, waiting and failed"
            ),
            22 => write!(f, "retries are used by a system that is not waiting"),
            23 => write!(f, "broadcast start {} in status {status}", v.cast.start),
            24 if v.cast.waiting == 0 => write!(f, "nobody waits in status {status}"),
            24 => write!(f, "systems wait in status {status}"),
            25 => write!(f, "purpose {} in status {status}", v.cast.purpose),
            26 if v.live => write!(f, "live in status {status}"),
            26 => write!(f, "not live in status {status}"),
            27 => write!(
                f,
                "live by activate with a waiting or failed system, and no confirmed one"
            ),
            28 => write!(f, "not above row {second}"),
            29 => write!(f, "a second live version of its TN beside row {second}"),
            30 => write!(f, "a second sending version of its TN beside row {second}"),
            31 => write!(f, "a second worked version of its TN beside row {second}"),
            33 => write!(f, "a second live version of its line beside row {second}"),
            34 => write!(
                f,
                "a second sending version of its line beside row {second}"
            ),
            35 => write!(f, "a second worked version of its line beside row {second}"),
            36 => write!(
                f,
                "the number stands twice in its line, beside row {second}"
            ),
            37 if v.old.created => write!(f, "within one provider, and the old side has created"),
            37 => write!(f, "within one provider, and the window mark is set"),
            _ => Ok(()),
        }
    }
}

// A fault of the table's length.
fn say_length(out: &impl Print, f: Fault, bytes: usize) {
    let _ = match f.clause {
        1 => println!(out; "table: {bytes} bytes are no whole rows of 80"),
        _ => println!(out; "table: {bytes} bytes are more than 4,096 rows"),
    };
}

// A row at fault, without the end of the line.
fn put_row(out: &impl Print, f: Fault, row: Version) {
    let _ = print!(out;
        "row {}: {}: {}",
        f.place,
        Named { id: row.id },
        Words { fault: f, row }
    );
}

pub fn say(out: &impl Print, f: Fault, table: &[u8]) {
    if f.place == 0 {
        say_length(out, f, table.len());
        return;
    }
    let rows = table.len() / ROW;
    let i = (f.place - 1) as usize;
    if i >= rows {
        return;
    }
    put_row(out, f, rows::load(table, i));
    // Of a line: the other row has another TN.
    if let 33..=36 = f.clause {
        let j = f.second.wrapping_sub(1) as usize;
        if j < rows {
            let _ = print!(out;
                ", {}",
                Named {
                    id: rows::load(table, j).id
                }
            );
        }
    }
    let _ = out.print("\n");
}
