// Claims and reaches, and when the one blocks the other. Lengths are in nm, times in ms, speeds in nm per ms.
ghost use Rattle.std.specs.Prelude.{◌≡◌, ◌*◌, Decides};
ghost use Rattle.claims.specs.Blocking.{Blocks, grown, meet, edges_meet, blocks};

// The whole numbers from low to high; none where low is above high.
#[derive(Clone, Copy, Debug, Default, PartialEq, Eq)]
pub struct Span {
    pub low: i64,
    pub high: i64,
}

// Claims, reaches and fixtures have a span on each axis, and no record around the two: x and y are their public fields, by which callers and clauses name them.

// The greatest speed that a claim may have.
pub(crate) const FASTEST: u32 = 20_000_000;

// A claim: the thing with this label is in the box now, and leaves it on no side faster than speed.
#[derive(Clone, Copy, Debug, PartialEq, Eq)]
pub struct Claim {
    pub label: u32,
    pub x: Span,
    pub y: Span,
    pub speed: u32,
}

// A reach: the box in which a cart may be within time.
#[derive(Clone, Copy, Debug, PartialEq, Eq)]
pub struct Reach {
    pub x: Span,
    pub y: Span,
    pub time: u32,
}

impl Span {
    // Whether the span, moved outwards by some length at both ends, and another have a number in common. An end that would leave 64 bits stops there, and compares with an end of 64 bits as it would have beyond.
    fn meets(&self, by: u64, other: &Span) -> bool
        ensures { result ≡ meet (grown self.now by) other.now }
    {
        let low = self.low.saturating_sub_unsigned(by).max(other.low);
        let high = self.high.saturating_add_unsigned(by).min(other.high);
        low <= high
    }
}

impl Claim {
    // How far its edges move outwards in a time.
    fn outwards(&self, time: u32) -> u64
        ensures { result ≡ self.now.speed * time }
    {
        self.speed as u64 * time as u64
    }

    // The comparison of edges: whether the claim's box, moved outwards by speed × time on every side, and the reach meet on both axes.
    fn edges_meet(&self, reach: &Reach) -> bool
        ensures { result ≡ edges_meet self.now reach.now }
    {
        let by = self.outwards(reach.time);
        self.x.meets(by, &reach.x) && self.y.meets(by, &reach.y)
    }

    // Whether the claim's box, moved outwards by speed × time on every side, and the reach have a point in common.
    pub fn blocks(&self, reach: &Reach) -> bool
        ensures value { result ≡ blocks self.now reach.now }
        ensures point { Decides result (Blocks self.now reach.now) }
    {
        self.edges_meet(reach)
    }
}
