// Reads the nine numbers of a plate and then lines with a speed and an acceleration, and writes what comes of each.
#![tactic(auto)]

mod answers;

use answers::ask;
use anyhow::anyhow;
use numerals::numbers;
use refusals::Refused;
use runout::{Plate, PlateFields};
use std::io::{BufRead, BufReader, ErrorKind};
use std::{env, io};

const USAGE: &str = "usage: stopping < INPUT
The first line of INPUT is a plate, nine whole numbers: brake, pull, drive error, hold, speed error, place error, top speed, turn limit, half side.
Each later line is a measured speed and an acceleration, two whole numbers. Numbers stand apart by blanks.";

// The text of a line. One that is not UTF-8 reads as empty: neither has numbers.
fn text_of(rt: &HostRuntime, line: io::Result<String>) -> io::Result<String> {
    match line {
        Err(e) if e.kind() == ErrorKind::InvalidData => Ok(String::new(rt.alloc())),
        line => line,
    }
}

// What is written of a line after the first.
fn reply(rt: &HostRuntime, plate: &Plate, number: usize, text: &str) -> io::Result<()> {
    let Some(pair) = numbers::<2>(text) else {
        return println!(rt; "line {number}: not a speed and an acceleration");
    };
    let [speed, acceleration] = pair;
    rt.println(ask(plate, speed, acceleration))
}

// The plate of the first line; where there is none, it is written why.
fn plate_of(rt: &HostRuntime, text: &str) -> anyhow::Result<Plate> {
    // not by `ok_or_else`: a line is written first, which may fail
    let Some(fields) = numbers::<9>(text) else {
        println!(rt; "line 1: not the nine numbers of a plate")?;
        return Err(anyhow!("the first line is no plate"));
    };
    Plate::new(PlateFields::from(fields)).or_else(|fault| {
        rt.println(Refused(fault))?;
        Err(anyhow!("the plate is refused"))
    })
}

// How the program is called, where it was called in another way. The other programs have these two lines with other words; a crate that gives them would make no program shorter.
fn misused(rt: &HostRuntime) -> anyhow::Result<()> {
    eprintln!(rt; "{USAGE}")?;
    Err(anyhow!("stopping takes no arguments, and a plate on standard input"))
}

fn run(rt: &HostRuntime) -> anyhow::Result<()> {
    if env::args(rt)?.count() > 1 {
        return misused(rt);
    }
    let mut lines = BufReader::new(rt.alloc(), rt.stdin())?.lines(rt.alloc());
    let Some(first) = lines.next() else {
        return misused(rt);
    };
    let plate = plate_of(rt, text_of(rt, first)?.as_str())?;
    for (line, number) in lines.zip(2..) {
        reply(rt, &plate, number, text_of(rt, line)?.as_str())?;
    }
    Ok(())
}

fn main(rt: HostRuntime) -> anyhow::Result<()> {
    run(&rt)
}
