// Reads a floor file from standard input and writes what a cart will believe of it: the plate, each fixture, and how many there are; or why it is not read.
#![tactic(auto)]

mod lines;

use anyhow::anyhow;
use floor_reader::{Fixture, Plate, read_floor};
use floors::{BLOCK, MOST, MOST_BLOCKS};
use lines::{CountLine, FaultLine, FixtureLine, PlateLine};
use refusals::Refused;
use std::io::Read;
use std::{env, io};

const USAGE: &str = "usage: roll_call < FLOOR
FLOOR is a floor file. Its plate, each fixture and their count are written, or one line that says why it is not read.";

// One byte more than the longest floor file: of a longer input no more is read, and this much is refused by its length.
const MOST_BYTES: u64 = (BLOCK * MOST_BLOCKS + 1) as u64;

fn list(rt: &HostRuntime, plate: Plate, fixtures: &[Fixture]) -> io::Result<()> {
    rt.println(PlateLine(plate))?;
    for fixture in fixtures {
        rt.println(FixtureLine(*fixture))?;
    }
    rt.println(CountLine(fixtures.len()))
}

// How the program is called, where it was called in another way. Each program has these two lines with other words; a crate that gives them would make no program shorter.
fn misused(rt: &HostRuntime) -> anyhow::Result<()> {
    eprintln!(rt; "{USAGE}")?;
    Err(anyhow!("roll_call takes no arguments, and a floor file on standard input"))
}

fn run(rt: &HostRuntime) -> anyhow::Result<()> {
    if env::args(rt)?.count() > 1 {
        return misused(rt);
    }
    let heap = rt.alloc();
    let mut bytes = Vec::new(heap);
    rt.stdin().take(MOST_BYTES).read_to_end(&mut bytes)?;
    // a table that any floor fits into
    let mut table = vec![in heap; Fixture::default(); MOST]?;
    // not by `?`: of a refusal two lines are written first
    match read_floor(bytes.as_slice(), table.as_mut_slice()) {
        Ok(floor) => Ok(list(rt, floor.plate, &table[0..floor.count])?),
        Err(fault) => {
            rt.println(FaultLine(fault))?;
            rt.eprintln(Refused(fault))?;
            Err(anyhow!("the floor is refused"))
        }
    }
}

fn main(rt: HostRuntime) -> anyhow::Result<()> {
    run(&rt)
}
