//! Worked examples, as theorems about the definitions that the contracts use.

ghost use Rattle.calendar.specs.Specimens.{Century, LeapDay, LongestWait, NoSuchDate};

/// States that the leap day, the end of the century, the longest wait for an alarm and the alarm that never
/// matches come out right.
pub fn specimens_stand()
    ensures leap_day { LeapDay }
    ensures century { Century }
    ensures longest_wait { LongestWait }
    ensures no_such_date { NoSuchDate }
{}
