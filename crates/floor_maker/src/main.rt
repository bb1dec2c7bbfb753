// Reads the lines that `roll_call` writes of a floor from standard input, and writes the floor file to standard output.
#![tactic(auto)]

use anyhow::anyhow;
use claims::{Fixture, Row, Span};
use floor_writer::write_floor;
use floors::{BLOCK, MOST_BLOCKS};
use numerals::numbers;
use plates::Plate;
use refusals::Refused;
use std::io::{BufRead, BufReader, Read, Write};
use std::{env, fmt};

const USAGE: &str = "usage: floor_maker < LINES > FLOOR
The first line of LINES is the word plate and nine whole numbers: brake, pull, drive error, hold, speed error, place error, top speed, turn limit, half side.
Each line after it is a fixture, five whole numbers: label, low x, high x, low y, high y.
The last line is how many fixtures there are and the word fixtures.";

// No more than this is read: far more than the lines of any floor.
const MOST_TEXT: u64 = 1_048_576;

// The longest floor file.
const MOST_BYTES: usize = BLOCK * MOST_BLOCKS;

// The nine numbers after the word `plate`.
fn plate_numbers(line: &str) -> Option<[i64; 9]> {
    numbers::<9>(line.strip_prefix("plate ")?)
}

// The number before the word `fixtures`.
fn count_of(line: &str) -> Option<i64> {
    let [count] = numbers::<1>(line.strip_suffix(" fixtures")?)?;
    Some(count)
}

// Says on standard error what is wrong with a line; then nothing is written.
fn wrong<D: fmt::Display + Drop>(rt: &HostRuntime, line: usize, words: D) -> anyhow::Error {
    match eprintln!(rt; "line {line}: {words}") {
        Ok(()) => anyhow!("no floor is written"),
        Err(e) => e.into(),
    }
}

// The plate of the first line.
fn plate_of(rt: &HostRuntime, text: &str) -> anyhow::Result<Plate> {
    let fields = plate_numbers(text).ok_or_else(|| wrong(
        rt,
        1,
        "not the word plate and nine whole numbers",
    ))?;
    Plate::new(fields.into()).map_err(|fault| wrong(rt, 1, Refused(fault)))
}

// The fixture of a later line.
fn fixture_of(rt: &HostRuntime, line: usize, text: &str) -> anyhow::Result<Fixture> {
    let [label, low_x, high_x, low_y, high_y] = numbers::<5>(text).ok_or_else(|| {
        wrong(
            rt,
            line,
            "neither the five whole numbers of a fixture, nor a count and the word fixtures",
        )
    })?;
    let label = u32::try_from(label).map_err(|_| wrong(
        rt,
        line,
        "the label is not from 0 to 4294967295",
    ))?;
    let row = Fixture {
        label,
        x: Span {
            low: low_x,
            high: high_x,
        },
        y: Span {
            low: low_y,
            high: high_y,
        },
    };
    row.checked()
        .map_err(|fault| wrong(rt, line, Refused(fault)))
}

// Writes the floor file of a plate and fixtures to standard output.
fn write_out(rt: &HostRuntime, plate: &Plate, rows: &[Fixture]) -> anyhow::Result<()> {
    let mut out = vec![in rt.alloc(); 0u8; MOST_BYTES]?;
    // Tried with `or_else` and `?` on the result: the proof that the length is within the bytes ran out of memory.
    match write_floor(plate, rows, out.as_mut_slice()) {
        Ok(length) => Ok(rt.stdout().write_all(&out[0..length])?),
        Err(fault) => {
            rt.eprintln(Refused(fault))?;
            Err(anyhow!("no floor is written"))
        }
    }
}

// How the program is called, where it was called in another way. Each program has these two lines with other words; a crate that gives them would make no program shorter.
fn misused(rt: &HostRuntime) -> anyhow::Result<()> {
    eprintln!(rt; "{USAGE}")?;
    Err(anyhow!("floor_maker takes no arguments, and the lines of a floor on standard input"))
}

// The floor of some lines, of which the first is the plate's.
fn run(rt: &HostRuntime) -> anyhow::Result<()> {
    if env::args(rt)?.count() > 1 {
        return misused(rt);
    }
    let mut lines = BufReader::new(rt.alloc(), rt.stdin().take(MOST_TEXT))?.lines(rt.alloc());
    let Some(first) = lines.next() else {
        return misused(rt);
    };
    let plate = plate_of(rt, first?.as_str())?;
    let mut rows = Vec::new(rt.alloc());
    let mut counted = None;
    for (line, number) in lines.zip(2..) {
        let text = line?;
        if counted.is_some() {
            return Err(wrong(rt, number, "a line follows the count"));
        }
        match count_of(text.as_str()) {
            Some(count) => counted = Some((number, count)),
            None => rows.push(fixture_of(rt, number, text.as_str())?)?,
        }
    }
    match counted {
        Some((_, count)) if count == rows.len() as i64 => write_out(rt, &plate, rows.as_slice()),
        Some((number, _)) => Err(wrong(rt, number, "not the count of the fixtures before it")),
        None => Err(wrong(
            rt,
            rows.len() + 1,
            "no count and the word fixtures after it",
        )),
    }
}

fn main(rt: HostRuntime) -> anyhow::Result<()> {
    run(&rt)
}
