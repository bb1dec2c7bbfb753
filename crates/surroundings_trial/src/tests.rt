// The worked cases, the refusals, and the order of claims.
use super::*;
use std::test::Fail;
use surroundings::{
    Claim, Fault, Fixture, Kind, Mover, Pair, Reach, Roster, Row, Seen, Span, Surroundings,
    ThingFault, ThingField, ask,
};

const fn span(low: i64, high: i64) -> Span {
    Span { low, high }
}

// The reach of a cart at (0, 0) whose run-out has travel 600,500,000 and time 1,100.
const REACH: Reach = Reach {
    x: Span {
        low: -1_020_500_000,
        high: 1_020_500_000,
    },
    y: Span {
        low: -1_020_500_000,
        high: 1_020_500_000,
    },
    time: 1_100,
};

fn fixture(low: i64) -> Fixture {
    Fixture {
        label: 7,
        x: span(low, 1_100_000_000),
        y: span(-500_000_000, 500_000_000),
    }
}

fn mover(age: u32) -> Mover {
    Mover {
        label: 9,
        x: 2_000_000_000,
        y: 0,
        half_side: 300_000_000,
        error: 50_000_000,
        speed: 500_000,
        age,
    }
}

// The number of a refusal, and the field that it names, if it names one.
fn said(fault: ThingFault) -> (u8, Option<u8>) {
    let field = match fault {
        ThingFault::OutOfRange(field) => Some(field.number()),
        _ => None,
    };
    (fault.number(), field)
}

fn label(claim: Claim) -> u32 {
    claim.label
}

#[test]
fn the_worked_fixture_and_mover(rt: HostRuntime) {
    assert!(rt; !fixture(1_020_500_001).claim().blocks(&REACH));
    assert!(rt; fixture(1_020_500_000).claim().blocks(&REACH));
    assert!(rt; !mover(158).claim().blocks(&REACH));
    assert!(rt; mover(159).claim().blocks(&REACH));
}

#[test]
fn blocking_is_total(rt: HostRuntime) {
    let all = span(i64::MIN, i64::MAX);
    let point = span(i64::MAX, i64::MAX);
    let far = Claim {
        label: 1,
        x: span(i64::MIN, i64::MIN),
        y: span(i64::MIN, i64::MIN),
        speed: u32::MAX,
    };
    let reach = Reach {
        x: point,
        y: point,
        time: u32::MAX,
    };
    assert!(rt; !far.blocks(&reach));
    assert!(rt;
        far.blocks(&Reach {
            x: all,
            y: all,
            time: 0
        })
    );
    // speed × time is 2^64 - 2^33 + 1, which falls short of 2^64 - 1 by 2^33 - 2
    let least = i64::MAX - 8_589_934_590;
    assert!(rt;
        far.blocks(&Reach {
            x: span(least, least),
            y: span(least, least),
            time: u32::MAX,
        })
    );
    assert!(rt;
        !far.blocks(&Reach {
            x: span(least + 1, least + 1),
            y: point,
            time: u32::MAX,
        })
    );
    // a reach with low above high has no point
    assert!(rt;
        !far.blocks(&Reach {
            x: span(1, 0),
            y: all,
            time: u32::MAX,
        })
    );
}

#[test]
fn fixtures_are_refused_by_their_first_fault(rt: HostRuntime) {
    let end = 2_000_000_000_000;
    let good = Fixture {
        label: u32::MAX,
        x: span(-end, end),
        y: span(end, end),
    };
    assert_eq!(rt; good.fault(), None);
    for (bad, refusal) in [
        (
            Fixture {
                x: span(-end - 1, end + 1),
                ..good
            },
            (21, Some(2)),
        ),
        (
            Fixture {
                x: span(0, end + 1),
                ..good
            },
            (21, Some(3)),
        ),
        (
            Fixture {
                y: span(-end - 1, end),
                ..good
            },
            (21, Some(4)),
        ),
        (
            Fixture {
                y: span(0, i64::MAX),
                ..good
            },
            (21, Some(5)),
        ),
        (
            Fixture {
                x: span(1, 0),
                ..good
            },
            (22, None),
        ),
        (
            Fixture {
                y: span(1, 0),
                ..good
            },
            (22, None),
        ),
    ] {
        assert_eq!(rt; bad.fault().map(said), Some(refusal));
    }
    // what is refused counts as the fixture at 0
    let counted = Fixture {
        x: span(5, 4),
        ..good
    }
    .claim();
    let zero = Claim {
        label: 0,
        x: span(0, 0),
        y: span(0, 0),
        speed: 0,
    };
    assert_eq!(rt; counted, zero);
}

#[test]
fn movers_are_refused_by_their_first_fault(rt: HostRuntime) {
    let end = 2_000_000_000_000;
    let good = Mover {
        label: 3,
        x: -end,
        y: end,
        half_side: 10_000_000_000,
        error: 10_000_000_000,
        speed: 20_000_000,
        age: 1_000,
    };
    assert_eq!(rt; good.fault(), None);
    for (bad, refusal) in [
        (
            Mover {
                x: -end - 1,
                age: 1_001,
                ..good
            },
            (21, Some(2)),
        ),
        (Mover { y: end + 1, ..good }, (21, Some(3))),
        (
            Mover {
                half_side: 10_000_000_001,
                ..good
            },
            (21, Some(4)),
        ),
        (
            Mover {
                error: u64::MAX,
                ..good
            },
            (21, Some(5)),
        ),
        (
            Mover {
                speed: 20_000_001,
                ..good
            },
            (21, Some(6)),
        ),
        (Mover { age: 1_001, ..good }, (21, Some(7))),
    ] {
        assert_eq!(rt; bad.fault().map(said), Some(refusal));
    }
    assert_eq!(rt; good.claim().x.low, -end - 40_000_000_000);
    assert_eq!(rt; Mover { age: 1_001, ..good }.claim().speed, 0);
}

#[test]
fn a_roster_names_the_first_row_that_blocks(rt: HostRuntime) -> Result<(), Fail> {
    let clear = fixture(1_020_500_001);
    let near = Fixture {
        label: 8,
        ..fixture(1_020_500_000)
    };
    let nearer = Fixture {
        label: 4,
        ..fixture(0)
    };
    let rows = [clear, near, nearer];
    assert_eq!(rt; ask(&Roster::new(&rows)?, &REACH).map(label), Some(8));
    assert_eq!(rt; ask(&Roster::new(&rows[0..1])?, &REACH).map(label), None);
    assert_eq!(rt; ask(&Roster::new(&rows[0..0])?, &REACH).map(label), None);
    // a refused row counts as a point at 0, with label 0
    assert_eq!(rt;
        ask(&Roster::new(&[fixture(i64::MIN)])?, &REACH).map(label),
        Some(0)
    );
    assert_eq!(rt;
        ask(&Roster::new(&[mover(158), mover(159)])?, &REACH).map(label),
        Some(9)
    );
    Ok(())
}

#[test]
fn a_roster_has_1024_rows_at_most(rt: HostRuntime) {
    let rows = [fixture(0); 1_025];
    assert!(rt; Roster::new(&rows[0..1_024]).is_ok());
    assert_eq!(rt; Roster::new(&rows).err().map(said), Some((23, None)));
}

#[test]
fn a_pair_asks_its_first_part_first(rt: HostRuntime) -> Result<(), Fail> {
    let walls = [fixture(1_020_500_000)];
    let people = [mover(159)];
    let first = Roster::new(&walls)?;
    let second = Roster::new(&people)?;
    assert_eq!(rt; ask(&Pair { first, second }, &REACH).map(label), Some(7));
    let turned = Pair {
        first: &second,
        second: &first,
    };
    assert_eq!(rt; ask(&turned, &REACH).map(label), Some(9));
    let first = Roster::new(&walls[0..0])?;
    assert_eq!(rt; ask(&Pair { first, second }, &REACH).map(label), Some(9));
    Ok(())
}

#[test]
fn a_horizon_claims_what_is_not_seen(rt: HostRuntime) -> Result<(), Fail> {
    let end = 2_000_000_000_000;
    // the reach's edges are 1,020,500,000 from 0, and unseen things come 1,100 ms × 1,000 nm per ms
    let at = 1_020_500_000 + 1_100_000;
    for (low_x, high_x, low_y, high_y, found) in [
        (-at, at, -at, at, None),
        (-at + 1, at, -at, at, Some(u32::MAX)),
        (-at, at - 1, -at, at, Some(u32::MAX)),
        (-at, at, -at + 1, at, Some(u32::MAX)),
        (-at, at, -at, at - 1, Some(u32::MAX)),
    ] {
        let seen = Seen::new(span(low_x, high_x), span(low_y, high_y), 1_000)?;
        let first = first_around(seen, &[fixture(1_020_500_001)], &[mover(158)], &REACH)?;
        assert_eq!(rt; first.map(label), found);
    }
    assert!(rt; Seen::new(span(-end, end), span(-end, end), 20_000_000).is_ok());
    Ok(())
}

// A kind of one's own names a field by its number.
#[test]
fn a_field_of_a_kind_of_ones_own_has_its_number(rt: HostRuntime) {
    for number in [0, 1, 8, u8::MAX] {
        let fault = ThingFault::OutOfRange(ThingField::OfOther(number));
        assert_eq!(rt; said(fault), (21, Some(number)));
    }
}

#[test]
fn a_horizon_is_refused_by_its_first_fault(rt: HostRuntime) {
    let end = 2_000_000_000_000;
    let all = span(-end, end);
    for (x, y, speed, refusal) in [
        (span(-end - 1, end), all, 20_000_001, (21, Some(1))),
        (span(-end, end + 1), all, 0, (21, Some(2))),
        (all, span(-end - 1, end), 0, (21, Some(3))),
        (all, span(-end, end + 1), 0, (21, Some(4))),
        (span(1, 0), all, 20_000_001, (21, Some(5))),
        (span(1, 0), all, 20_000_000, (22, None)),
        (all, span(1, 0), 0, (22, None)),
    ] {
        assert_eq!(rt; Seen::new(x, y, speed).err().map(said), Some(refusal));
    }
}

#[test]
fn kinds_and_surroundings_of_ones_own(rt: HostRuntime) -> Result<(), Fail> {
    let charger = Charger::new(5, 1_320_500_000, 0).ok_or("no charger")?;
    assert_eq!(rt; ask(&Roster::new(&[charger])?, &REACH).map(label), Some(5));
    assert_eq!(rt; Charger::new(5, 2_000_000_000_001, 0), None);
    let gateway = Reach {
        x: span(0, 5_000_000_000),
        y: span(0, 0),
        time: 9,
    };
    assert_eq!(rt;
        ask(&Barrier { closed: true }, &gateway).map(label),
        Some(77)
    );
    assert_eq!(rt; ask(&Barrier { closed: false }, &gateway), None);
    assert_eq!(rt; ask(&Barrier { closed: true }, &REACH), None);
    Ok(())
}

#[test]
fn a_kind_may_be_faster_than_its_thing(rt: HostRuntime) -> Result<(), Fail> {
    let charger = Charger::new(5, 0, 0).ok_or("no charger")?;
    assert_eq!(rt; spare_speed(&charger), 0);
    assert_eq!(rt; spare_speed(&fixture(0)), 0);
    assert_eq!(rt; spare_speed(&mover(159)), 19_500_000);
    Ok(())
}
