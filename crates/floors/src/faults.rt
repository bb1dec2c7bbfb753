// Why a floor file is not read: a plate's or a thing's fault inside a record's, inside a block's.
ghost use Rattle.std.specs.Prelude.{◌≡◌, Some};
ghost use Rattle.floors.specs.declared.faults.RecordFault.TheVariants.{NoPlate, NoFixture};
ghost use Rattle.floors.specs.declared.faults.BlockFault.TheVariants.{InRecord};
ghost use Rattle.floors.specs.Faults.{record_fault, record_words, block_fault, block_words, place_words, fault_place, inner_number};
ghost use Rattle.std.proofs.Common.{rules};

use claims::ThingFault;
use plates::PlateFault;
use refusals::{Fault, Layer};
use std::fmt;

// A byte of a floor file: its block, and its place in the block, both from 0.
#[derive(Clone, Copy, Debug, PartialEq, Eq)]
pub struct Place {
    pub block: usize,
    pub byte: usize,
}

// Why a record is not read, with the place of its first byte.
#[derive(Clone, Copy, Debug, PartialEq, Eq)]
pub enum RecordFault {
    // its numbers make no plate
    NoPlate(Place, PlateFault),
    // its numbers make no fixture
    NoFixture(Place, ThingFault),
}

// Why a floor file is not read.
#[derive(Clone, Copy, Debug, PartialEq, Eq)]
pub enum BlockFault {
    // the length is not that of 1 to 80 blocks
    WrongLength,
    // the words of the block do not sum to a multiple of 65,536
    WrongSum(Place),
    // the first wrong byte of the head, or unused byte that is not 0
    WrongByte(Place),
    // a record of the block
    InRecord(RecordFault),
    // the table handed in has too few rows
    TableTooShort,
}

impl From<(Place, PlateFault)> for RecordFault {
    ghost from_gives = { λ fault r. r ≡ NoPlate fault.0 fault.1 };

    fn from(fault: (Place, PlateFault)) -> RecordFault {
        RecordFault::NoPlate(fault.0, fault.1)
    }
}

impl From<(Place, ThingFault)> for RecordFault {
    ghost from_gives = { λ fault r. r ≡ NoFixture fault.0 fault.1 };

    fn from(fault: (Place, ThingFault)) -> RecordFault {
        RecordFault::NoFixture(fault.0, fault.1)
    }
}

impl From<RecordFault> for BlockFault {
    ghost from_gives = { λ fault r. r ≡ InRecord fault };

    fn from(record: RecordFault) -> BlockFault {
        BlockFault::InRecord(record)
    }
}

impl Fault for RecordFault {
    ghost says = { record_fault };

    ghost numbered = { Prim.search rules };

    fn layer(&self) -> Layer {
        Layer::Record
    }

    fn number(&self) -> u8 {
        match self {
            RecordFault::NoPlate(_, _) => 54,
            RecordFault::NoFixture(_, _) => 55,
        }
    }
}

impl Fault for BlockFault {
    ghost says = { block_fault };

    ghost numbered = { Prim.search rules };

    fn layer(&self) -> Layer {
        match self {
            BlockFault::InRecord(fault) => fault.layer(),
            _ => Layer::Block,
        }
    }

    fn number(&self) -> u8 {
        match self {
            BlockFault::WrongLength => 51,
            BlockFault::WrongSum(_) => 52,
            BlockFault::WrongByte(_) => 53,
            BlockFault::InRecord(fault) => fault.number(),
            BlockFault::TableTooShort => 56,
        }
    }
}

impl BlockFault {
    // The byte that it is about, but for a table that is too short: 0 of block 0 where the length is wrong; of a fault that the reader answers, 510 where a sum is wrong, and the first of its record where a record makes no plate or fixture.
    pub fn place(&self) -> Option<Place>
        ensures { result ≡ fault_place self.now }
    {
        match self {
            BlockFault::WrongLength => Some(Place { block: 0, byte: 0 }),
            BlockFault::WrongSum(place) | BlockFault::WrongByte(place) => Some(*place),
            BlockFault::InRecord(
                RecordFault::NoPlate(place, _) | RecordFault::NoFixture(place, _),
            ) => Some(*place),
            BlockFault::TableTooShort => None,
        }
    }

    // The number of the plate's or the fixture's fault inside, or 0. It is no Option: the rules give 0 where no fault is inside (docs/FLOOR-FILE.md), and the line of a fault writes this number.
    pub fn inner(&self) -> u8
        ensures { result ≡ inner_number self.now }
    {
        match self {
            BlockFault::InRecord(RecordFault::NoPlate(_, fault)) => fault.number(),
            BlockFault::InRecord(RecordFault::NoFixture(_, fault)) => fault.number(),
            _ => 0,
        }
    }
}

impl fmt::Display for Place {
    ghost output = { λ place. Some (place_words place) };

    fn fmt<W: fmt::Write>(&self, f: &mut fmt::Formatter<W>) -> fmt::Result {
        write!(f, "block {} byte {}", self.block, self.byte)
    }
}

impl fmt::Display for RecordFault {
    ghost output = { λ fault. Some (record_words fault) };

    fn fmt<W: fmt::Write>(&self, f: &mut fmt::Formatter<W>) -> fmt::Result {
        match self {
            RecordFault::NoPlate(place, fault) => write!(f, "{place}: no plate: {fault}"),
            RecordFault::NoFixture(place, fault) => write!(f, "{place}: no fixture: {fault}"),
        }
    }
}

impl fmt::Display for BlockFault {
    ghost output = { λ fault. Some (block_words fault) };

    fn fmt<W: fmt::Write>(&self, f: &mut fmt::Formatter<W>) -> fmt::Result {
        match self {
            BlockFault::WrongLength => {
                f.write_str("the length is not that of 1 to 80 blocks of 512 bytes")
            }
            BlockFault::WrongSum(place) => write!(
                f,
                "{place}: the words of the block do not sum to a multiple of 65536"
            ),
            BlockFault::WrongByte(place) => write!(
                f,
                "{place}: a wrong byte of the head, or an unused byte that is not 0"
            ),
            BlockFault::InRecord(fault) => write!(f, "{fault}"),
            BlockFault::TableTooShort => f.write_str("the table has too few rows"),
        }
    }
}
