// Reads, writes and refuses the records of tests/record_vectors.py, a line for each: what it prints is held to that encoder's own answers.
#![tactic(auto)]

ghost use Rattle.std.specs.Prelude.{◌<◌};

use fields::FIELDS;
use model::{Event, Lrn, Malformed, Tn};
use reading::fill;
use record::RECORD;
use std::fmt;
use std::fmt::{Display, Formatter};
use std::io::Read;

// A case: its letter, a length, and eleven fields or the bytes of a record.
const FRAME: usize = 96;

type Frame = [u8; FRAME];

// The field at a place, in a word behind the first.
fn field(frame: &Frame, i: usize) -> u64
    requires { i < 11 }
{
    octets::u64_at(frame, 8 + 8 * i)
}

// Bytes in hexadecimal digits.
#[derive(Clone, Copy)]
struct Hexadecimal<'a>(&'a [u8]);

impl Display for Hexadecimal<'_> {
    fn fmt<W: fmt::Write>(&self, f: &mut Formatter<W>) -> fmt::Result {
        for b in self.0 {
            write!(f, "{b:02x}")?;
        }
        Ok(())
    }
}

// A print that fails is passed over, here and below.
fn print_number(rt: &impl Print, n: u64) {
    let _ = print!(rt; " {n}");
}

fn print_bytes(rt: &impl Print, s: &[u8]) {
    if !s.is_empty() {
        let _ = print!(rt; " {}", Hexadecimal(s));
    }
}

fn print_event(rt: &impl Print, e: Event) {
    let _ = print!(rt;
        " {} {} {} {} {} {} {} {} {} {} {}",
        e.kind,
        e.sender,
        e.other,
        e.mark,
        e.cause,
        e.tn.0,
        e.lrn.0,
        e.version,
        e.time,
        e.due,
        e.within
    );
}

// The number of what a call of `record` says.
fn number(said: Result<(), Malformed>) -> u64 {
    match said {
        Ok(()) => 0,
        Err(Malformed) => 2,
    }
}

// What the bytes read as, and what writing the fields back says and leaves.
fn read_case(rt: &impl Print, s: &[u8]) {
    let got = record::read(s);
    match got {
        Ok(e) => {
            print_number(rt, 0);
            print_event(rt, e);
            let mut back = [0u8; RECORD];
            let said = record::write(e, &mut back);
            print_number(rt, number(said));
            print_bytes(rt, &back);
        }
        Err(Malformed) => print_number(rt, 2),
    }
}

fn event_in(frame: &Frame) -> Event {
    let tn = Tn(field(frame, 5));
    let lrn = Lrn(field(frame, 6));
    Event {
        kind: (field(frame, 0) % 256) as u8,
        sender: (field(frame, 1) % 256) as u8,
        other: (field(frame, 2) % 256) as u8,
        mark: (field(frame, 3) % 256) as u8,
        cause: (field(frame, 4) % 256) as u8,
        tn,
        lrn,
        version: (field(frame, 7) % 65536) as u16,
        time: (field(frame, 8) % 4294967296) as u32,
        due: (field(frame, 9) % 4294967296) as u32,
        within: (field(frame, 10) % 256) as u8,
    }
}

// What writing the fields says, and leaves.
fn write_case(rt: &impl Print, frame: &Frame, out: &mut [u8]) {
    let said = record::write(event_in(frame), out);
    print_number(rt, number(said));
    print_bytes(rt, out);
}

// The same by the calls for C, and what reading the bytes back says and hands over.
fn number_case(rt: &impl Print, frame: &Frame, out: &mut [u8]) {
    let said = fields::write(
        field(frame, 0),
        field(frame, 1),
        field(frame, 2),
        field(frame, 3),
        field(frame, 4),
        field(frame, 5),
        field(frame, 6),
        field(frame, 7),
        field(frame, 8),
        field(frame, 9),
        field(frame, 10),
        out,
    );
    print_number(rt, said as u64);
    print_bytes(rt, out);
    if said == 0 {
        read_back(rt, out);
    }
}

fn read_back(rt: &impl Print, s: &[u8]) {
    let mut fields = [0u64; FIELDS];
    print_number(rt, fields::read(s, &mut fields) as u64);
    for n in fields.iter() {
        print_number(rt, *n);
    }
}

fn case(rt: &impl Print, frame: &Frame) {
    let n = usize::from(frame[1]);
    if n > 56 {
        return;
    }
    let mut out = [0xa5u8; 56];
    match frame[0] {
        b'R' => {
            let _ = rt.print(" R");
            read_case(rt, &frame[8..8 + n]);
        }
        b'W' => {
            let _ = rt.print(" W");
            write_case(rt, frame, &mut out[..n]);
        }
        _ => {
            let _ = rt.print(" N");
            number_case(rt, frame, &mut out[..n]);
        }
    }
}

// A line for the next case, with its place; none where the input ends before it does.
fn one(rt: &impl Print, input: &mut impl Read, place: u64) -> Option<()> {
    let mut frame = [0u8; FRAME];
    let (Ok(n) | Err(n)) = fill(input, &mut frame);
    if n < FRAME {
        return None;
    }
    let _ = rt.print(place);
    case(rt, &frame);
    rt.print("\n").ok()
}

fn main(rt: HostRuntime) {
    let mut input = rt.stdin();
    for place in 1..1_000_000u64 {
        if one(&rt, &mut input, place).is_none() {
            return;
        }
    }
}
