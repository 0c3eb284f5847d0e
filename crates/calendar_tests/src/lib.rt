//! The compiled calendar, run on examples and held against going on second by second.

#![tactic(auto)]

#[cfg(test)]
mod tests {
    use calendar::alarm::Alarm;
    use calendar::counters::Counters;
    use calendar::fault::CalendarFault;
    use calendar::location::LOCATIONS;
    use std::test::Fail;

    // The first later match within 61 days, by going on second by second.
    fn stepped(alarm: &Alarm, from: &Counters) -> Option<u32> {
        let mut counters = *from;
        for k in 1..=5_270_400u32 {
            counters.tick();
            if alarm.matches(&counters) {
                return Some(k);
            }
        }
        None
    }

    #[test]
    fn first_match_is_that_of_stepping(rt: HostRuntime) -> Result<(), Fail> {
        let moments = [
            [0x00, 0x00, 0x12, 0x05, 0x31, 0x03, 0x99],
            [0x59, 0x59, 0x23, 0x01, 0x31, 0x12, 0x99],
            [0x30, 0x15, 0x08, 0x03, 0x30, 0x01, 0x03],
            [0x59, 0x59, 0x23, 0x07, 0x28, 0x02, 0x04],
        ];
        let alarms = [
            [0x80, 0x80, 0x80, 0x80],
            [0x00, 0x00, 0x12, 0x31],
            [0x30, 0x15, 0x08, 0x30],
            [0x59, 0x80, 0x80, 0x29],
            [0x80, 0x00, 0x80, 0x01],
            [0x31, 0x15, 0xff, 0x80],
            [0x00, 0x60, 0x80, 0x80],
            [0x80, 0x80, 0x80, 0x32],
            [0x80, 0x80, 0x80, 0x00],
            [0x0a, 0x80, 0x80, 0x80],
        ];
        for moment in moments {
            let counters = Counters::from_locations(&moment)?;
            for bytes in alarms {
                let alarm = Alarm { bytes };
                assert_eq!(rt; alarm.first_match(&counters), stepped(&alarm, &counters));
            }
        }
        Ok(())
    }

    #[test]
    fn advance_is_as_many_ticks(rt: HostRuntime) -> Result<(), Fail> {
        let mut ticked = Counters::from_locations(&[0x58, 0x59, 0x23, 0x06, 0x27, 0x02, 0x98])?;
        let mut advanced = ticked;
        for seconds in [0, 1, 59, 3_600, 86_400, 2_678_400, 40_000_000] {
            for _ in 0..seconds {
                ticked.tick();
            }
            advanced.advance(seconds);
            assert_eq!(rt; advanced.digits(), ticked.digits());
        }
        Ok(())
    }

    #[test]
    fn longest_count_comes_out_right(rt: HostRuntime) -> Result<(), Fail> {
        let mut counters = Counters::from_locations(&[0x00, 0x00, 0x00, 0x07, 0x01, 0x01, 0x00])?;
        counters.advance(4_294_967_295);
        assert_eq!(rt;
            counters.digits(),
            [0x15, 0x28, 0x06, 0x03, 0x06, 0x02, 0x36]
        );
        Ok(())
    }

    #[test]
    fn seven_locations_in_their_order(rt: HostRuntime) -> Result<(), Fail> {
        for (location, register) in LOCATIONS.iter().zip(9..16) {
            assert_eq!(rt; location.number(), register);
        }
        Ok(())
    }

    #[test]
    fn lowest_location_at_fault_is_told(rt: HostRuntime) -> Result<(), Fail> {
        let cases = [
            ([0x60, 0x00, 0x24, 0x00, 0x00, 0x00, 0xaa], 9),
            ([0x59, 0x5a, 0x00, 0x01, 0x01, 0x01, 0x00], 10),
            ([0x00, 0x00, 0x24, 0x00, 0x00, 0x00, 0x00], 11),
            ([0x00, 0x00, 0x00, 0x08, 0x01, 0x13, 0x00], 12),
            ([0x00, 0x00, 0x00, 0x01, 0x32, 0x01, 0x00], 13),
            ([0x00, 0x00, 0x00, 0x01, 0x30, 0x13, 0x00], 14),
            ([0x00, 0x00, 0x00, 0x01, 0x30, 0x02, 0x9a], 15),
            ([0x00, 0x00, 0x00, 0x01, 0x30, 0x02, 0x04], 13),
            ([0x00, 0x00, 0x00, 0x01, 0x29, 0x02, 0x03], 13),
        ];
        for (bytes, location) in cases {
            match Counters::from_locations(&bytes) {
                Ok(_) => return Err(Fail::new("bytes that are no date were taken")),
                Err(fault) => assert_eq!(rt; fault, CalendarFault { location }),
            }
        }
        Ok(())
    }

    #[test]
    fn spare_bits_go_round(rt: HostRuntime) -> Result<(), Fail> {
        let bytes = [0xd9, 0xd9, 0xe3, 0xfd, 0xe8, 0xe2, 0x03];
        let counters = Counters::from_locations(&bytes)?;
        assert_eq!(rt;
            counters.digits(),
            [0x59, 0x59, 0x23, 0x05, 0x28, 0x02, 0x03]
        );
        assert_eq!(rt; counters.joined(&bytes), bytes);
        Ok(())
    }
}
