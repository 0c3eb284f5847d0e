//! The compiled divider, run on examples and held against going on unit by unit.

#![tactic(auto)]

#[cfg(test)]
mod tests {
    use seconds::calibration::Calibration;
    use seconds::counts::Counts;
    use seconds::divider::Divider;

    // As many single units.
    fn stepped(divider: &mut Divider, calibration: Calibration, units: u64) -> Counts {
        let mut counts = Counts::NONE;
        for _ in 0..units {
            let more = divider.advance(calibration, 1);
            counts.seconds = counts.seconds.wrapping_add(more.seconds);
            counts.shortened = counts.shortened.wrapping_add(more.shortened);
            counts.lengthened = counts.lengthened.wrapping_add(more.lengthened);
        }
        counts
    }

    // What a wait from a new cycle on counts.
    fn counted(control: u8, units: u64) -> Counts {
        let calibration = Calibration::from_control(control);
        Divider::begin(calibration).advance(calibration, units)
    }

    #[test]
    fn advance_is_as_many_units(rt: HostRuntime) {
        for control in [0x00, 0x3f, 0x1f, 0x21, 0x01, 0xf0] {
            // The first second keeps the length of another calibration.
            let mut once = Divider::begin(Calibration::from_control(!control));
            let mut by_units = once;
            let calibration = Calibration::from_control(control);
            for units in [0, 1, 32_510, 1, 383, 1_000_000, 125_829_120, 160_000_001] {
                let counts = once.advance(calibration, units);
                assert_eq!(rt; counts, stepped(&mut by_units, calibration, units));
                assert_eq!(rt; once, by_units);
            }
        }
    }

    #[test]
    fn as_many_are_corrected_as_the_formula_says(rt: HostRuntime) {
        for control in [0x00, 0x3f, 0x1f, 0x21, 0x0a] {
            for units in [0, 32_896, 5_000_000, 17_592_186_044_415, u64::MAX] {
                let counts = counted(control, units);
                let corrected = Calibration::from_control(control).corrected(counts.seconds);
                assert_eq!(rt; counts.shortened | counts.lengthened, corrected);
            }
        }
    }

    #[test]
    fn longest_waits_come_out_right(rt: HostRuntime) {
        let longest = counted(0x3f, 17_592_186_044_415);
        assert_eq!(rt;
            longest,
            Counts {
                seconds: 536_938_641,
                shortened: 8_669_324,
                lengthened: 0,
            }
        );
        assert_eq!(rt; counted(0x00, u64::MAX).seconds, 562_949_953_421_311);
    }

    #[test]
    fn hundredths_stop_at_99(rt: HostRuntime) {
        let calibration = Calibration::from_control(0x01);
        let mut divider = Divider::begin(calibration);
        assert_eq!(rt; divider.hundredths_digits(), 0x00);
        let _ = divider.advance(calibration, 4_000);
        assert_eq!(rt; divider.hundredths_digits(), 0x12);
        let _ = divider.advance(calibration, 28_895);
        assert_eq!(rt; divider.hundredths(), 99);
        assert_eq!(rt; divider.hundredths_digits(), 0x99);
    }
}
