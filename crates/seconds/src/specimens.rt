//! Worked examples, as theorems about the definitions that the contracts use.

ghost use Rattle.seconds.specs.Specimens.{LengthenedSecond, LongestCycle, ShortenedSecond, ShortestCycle};

/// States that a shortened and a lengthened second, and the shortest and the longest cycle, come out right.
pub fn specimens_stand()
    ensures shortened_second { ShortenedSecond }
    ensures lengthened_second { LengthenedSecond }
    ensures shortest_cycle { ShortestCycle }
    ensures longest_cycle { LongestCycle }
{}
