// The names of the fields of things and of what is seen; in each table they count from 1.
ghost use Rattle.std.specs.Prelude.{◌≡◌};
ghost use Rattle.claims.specs.Fields.{field_number};

// A field of a fixture. Field 1 is the label, which is never out of its range.
#[derive(Clone, Copy, Debug, PartialEq, Eq)]
pub enum FixtureField {
    LowX = 2,
    HighX,
    LowY,
    HighY,
}

// A field of a mover. Field 1 is the label, which is never out of its range; X and Y are its centre.
#[derive(Clone, Copy, Debug, PartialEq, Eq)]
pub enum MoverField {
    X = 2,
    Y,
    HalfSide,
    Error,
    Speed,
    Age,
}

// A field of what is seen: the edges of the rectangle, and the speed of unseen things.
#[derive(Clone, Copy, Debug, PartialEq, Eq)]
pub enum SeenField {
    LowX = 1,
    HighX,
    LowY,
    HighY,
    Speed,
}

// A field of one of these tables, or of a kind of thing of one's own, by its number there.
#[derive(Clone, Copy, Debug, PartialEq, Eq)]
pub enum ThingField {
    OfFixture(FixtureField),
    OfMover(MoverField),
    OfSeen(SeenField),
    OfOther(u8),
}

impl ThingField {
    // Its place in its table.
    pub fn number(self) -> u8
        ensures { result ≡ field_number self }
    {
        match self {
            ThingField::OfFixture(field) => field as u8,
            ThingField::OfMover(field) => field as u8,
            ThingField::OfSeen(field) => field as u8,
            ThingField::OfOther(number) => number,
        }
    }
}
