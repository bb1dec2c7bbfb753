// Tests of the plate and the run-out, as a client writes them.
#![tactic(auto)]

#[cfg(test)]
mod tests {
    use runout::{
        Fault, Layer, Plate, PlateFault, PlateField, PlateFields, RunOutFault, SAMPLE, run_out,
        worked_sums,
    };
    use std::test::Fail;

    // The numbers of the sample plate, in the order of the fields. They are written out, so that no conversion that is tested here makes them.
    const NUMBERS: [i64; 9] = [
        1_200,
        800,
        200,
        100,
        10_000,
        20_000_000,
        2_000_000,
        500,
        400_000_000,
    ];

    // The number of the refusal and the number of the field that it names, where the plate is refused and where it names one.
    fn refused(fields: PlateFields) -> Option<(u8, Option<usize>)> {
        let fault = Plate::new(fields).err()?;
        let field = match fault {
            PlateFault::OutOfRange(field) => Some(usize::from(field.number())),
            _ => None,
        };
        Some((fault.number(), field))
    }

    fn fault_of(plate: &Plate, speed: i64, acceleration: i64) -> Option<u8> {
        let fault = run_out(plate, speed, acceleration).err()?;
        Some(fault.number())
    }

    #[test]
    fn the_table_is_what_run_out_gives(rt: HostRuntime) -> Result<(), Fail> {
        for sum in worked_sums() {
            let plate = Plate::new(sum.fields)?;
            assert_eq!(rt; run_out(&plate, sum.speed, sum.acceleration)?, sum.out);
        }
        Ok(())
    }

    // The definition, ms by ms, over so many ms: travel, time and peak.
    fn by_the_ms(plate: &Plate, speed: i64, acceleration: i64, most: u32) -> (i64, u32, i64) {
        let drive_error = plate.drive_error() as i64;
        let mut now = speed.saturating_add(plate.speed_error() as i64);
        let mut travel: i64 = 0;
        let mut time: u32 = 0;
        let mut peak = now;
        // over the ms, which are what is summed
        for i in 0..most {
            let order = if u64::from(i) < plate.hold() {
                acceleration
            } else {
                -(plate.brake() as i64)
            };
            let next = now.saturating_add(order.saturating_add(drive_error)).max(0);
            travel = travel.saturating_add(now.max(next));
            if now > 0 {
                time = i.saturating_add(1);
            }
            peak = peak.max(next);
            now = next;
        }
        (travel, time, peak)
    }

    #[test]
    fn the_formulas_are_the_sums_by_the_ms(rt: HostRuntime) -> Result<(), Fail> {
        let plate = Plate::new(SAMPLE)?;
        // a rest inside the hold, at its end and one ms later; a speed that stays; a speed that rises
        let cases = [
            (0, -1_200),
            (0, -300),
            (0, -299),
            (89_999, -1_200),
            (90_000, -1_200),
            (90_001, -1_200),
            (90_000, -1_199),
            (999, -1_200),
            (1_000_000, -200),
            (1_000_001, -199),
            (10_000_000, 800),
        ];
        for (speed, acceleration) in cases {
            let out = run_out(&plate, speed, acceleration)?;
            assert_eq!(rt;
                (
                    i64::try_from(out.travel)?,
                    out.time,
                    i64::try_from(out.peak)?
                ),
                by_the_ms(&plate, speed, acceleration, 11_000)
            );
        }
        Ok(())
    }

    // The sample plate with another number in one place.
    fn with(at: usize, value: i64) -> PlateFields {
        let mut numbers = NUMBERS;
        if at < 9 {
            numbers[at] = value;
        }
        PlateFields::from(numbers)
    }

    #[test]
    fn each_field_is_refused_beyond_its_range(rt: HostRuntime) {
        let ranges = [
            (50, 20_000),
            (0, 10_000),
            (0, 19_950),
            (1, 500),
            (0, 1_000_000),
            (0, 1_000_000_000),
            (1, 5_000_000),
            (1, 10_000),
            (0, 5_000_000_000),
        ];
        for (at, &(least, greatest)) in ranges.iter().enumerate() {
            let refusal = Some((11, Some(at + 1)));
            assert_eq!(rt; refused(with(at, least - 1)), refusal);
            assert_eq!(rt; refused(with(at, greatest + 1)), refusal);
        }
    }

    #[test]
    fn the_ends_of_the_ranges_are_allowed(rt: HostRuntime) -> Result<(), Fail> {
        let least = PlateFields::from([50, 0, 0, 1, 0, 0, 1, 1, 0]);
        let greatest = PlateFields::from([
            20_000,
            10_000,
            19_950,
            500,
            1_000_000,
            1_000_000_000,
            5_000_000,
            10_000,
            5_000_000_000,
        ]);
        assert_eq!(rt; refused(least), None);
        assert_eq!(rt; refused(greatest), None);
        let plate = Plate::new(greatest)?;
        assert_eq!(rt;
            [
                plate.brake(),
                plate.pull(),
                plate.drive_error(),
                plate.hold(),
                plate.speed_error(),
                plate.place_error(),
                plate.top_speed(),
                plate.turn_limit(),
                plate.half_side(),
            ],
            [
                20_000,
                10_000,
                19_950,
                500,
                1_000_000,
                1_000_000_000,
                5_000_000,
                10_000,
                5_000_000_000,
            ]
        );
        Ok(())
    }

    #[test]
    fn plate_refusals_come_in_their_order(rt: HostRuntime) {
        let weak = PlateFields {
            drive_error: 1_151,
            ..SAMPLE
        };
        let unsure = PlateFields {
            speed_error: 1_000_000,
            top_speed: 1_000_000,
            ..SAMPLE
        };
        assert_eq!(rt; refused(with(2, 1_150)), None);
        assert_eq!(rt; refused(weak), Some((12, None)));
        assert_eq!(rt; refused(unsure), Some((13, None)));
        assert_eq!(rt;
            refused(PlateFields {
                top_speed: 1_000_001,
                ..unsure
            }),
            None
        );
        // the first of several
        assert_eq!(rt;
            refused(PlateFields {
                drive_error: 1_151,
                ..unsure
            }),
            Some((12, None))
        );
        assert_eq!(rt;
            refused(PlateFields {
                half_side: -1,
                ..weak
            }),
            Some((11, Some(9)))
        );
        assert_eq!(rt;
            refused(PlateFields {
                pull: -1,
                half_side: -1,
                ..SAMPLE
            }),
            Some((11, Some(2)))
        );
        assert_eq!(rt;
            refused(PlateFields {
                brake: i64::MIN,
                drive_error: i64::MAX,
                ..SAMPLE
            }),
            Some((11, Some(1)))
        );
    }

    #[test]
    fn run_out_refuses_speed_first(rt: HostRuntime) -> Result<(), Fail> {
        let plate = Plate::new(SAMPLE)?;
        assert_eq!(rt; fault_of(&plate, 10_000_000, 800), None);
        assert_eq!(rt; fault_of(&plate, 0, -1_200), None);
        assert_eq!(rt; fault_of(&plate, 10_000_001, 0), Some(32));
        assert_eq!(rt; fault_of(&plate, -1, 0), Some(32));
        assert_eq!(rt; fault_of(&plate, i64::MIN, i64::MIN), Some(32));
        assert_eq!(rt; fault_of(&plate, 990_000, 801), Some(33));
        assert_eq!(rt; fault_of(&plate, 990_000, -1_201), Some(33));
        assert_eq!(rt; fault_of(&plate, 0, i64::MIN), Some(33));
        assert_eq!(rt; fault_of(&plate, 0, i64::MAX), Some(33));
        Ok(())
    }

    #[test]
    fn faults_say_their_layer_and_words(rt: HostRuntime) -> Result<(), Fail> {
        let heap = rt.alloc();
        let field = PlateFault::OutOfRange(PlateField::Hold);
        assert_eq!(rt; field.layer(), Layer::Plate);
        assert_eq!(rt; RunOutFault::Speed.layer(), Layer::Gate);
        let hold = field.to_string(heap)?;
        assert_eq!(rt; hold.as_str(), "field 4, hold, is not from 1 to 500");
        let acceleration = RunOutFault::Acceleration.to_string(heap)?;
        assert_eq!(rt;
            acceleration.as_str(),
            "the acceleration is not from -brake to pull"
        );
        Ok(())
    }
}
