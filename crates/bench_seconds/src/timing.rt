//! How long waits take to compute.
use seconds::calibration::Calibration;
use seconds::divider::Divider;
use std::io;
use std::time::Instant;

/// How many waits of one length are timed.
const WAITS: u32 = 10_000_000;

/// Prints the mean time of a wait of one unit, of a second and of the longest one of a module.
pub(crate) fn time_waits(rt: &HostRuntime) -> io::Result<()> {
    for units in [1, 32_768, 17_592_186_044_415] {
        let calibration = Calibration::from_control(0x3f);
        let mut divider = Divider::begin(calibration);
        let mut seconds = 0u64;
        let start = Instant::now(rt)?;
        for _ in 0..WAITS {
            let counts = divider.advance(calibration, units);
            seconds = seconds.wrapping_add(counts.seconds);
        }
        let tenths = start.elapsed(rt)?.as_nanos() / u128::from(WAITS / 10);
        let (whole, tenth) = (tenths / 10, tenths % 10);
        println!(rt;
            "{units:>14} units: {whole}.{tenth} ns a wait ({WAITS} waits, {seconds} s counted)"
        )?;
    }
    Ok(())
}
