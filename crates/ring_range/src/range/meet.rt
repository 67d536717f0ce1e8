ghost use Rattle.std.specs.Prelude.{◌≡◌};
ghost use Rattle.ring_range.specs.Range.{IsRange};
ghost use Rattle.ring_range.specs.Meet.{meet_of, AreCommon, AreApart, AreFewest, AreNearerFirst, AreAbsentAtStart};

use super::{CIRCLE, RingRange, distance};

impl RingRange {
    /// The hashes that are in both ranges, in as few parts as there can be.
    ///
    /// Of two parts the one that begins nearer, going forward, to this range's start comes first.
    /// A part that isn't there has size 0 and this range's start. Where one of the ranges is the
    /// full circle the part is the other one, and of two full circles it is this one
    /// (`docs/RULES.md#the-circle`).
    pub fn meet(&self, other: &RingRange) -> [RingRange; 2]
        ensures exact { result ≡ meet_of self.now other.now }
        ensures common { AreCommon self.now other.now result }
        ensures apart { AreApart result }
        ensures fewest { AreFewest self.now other.now result }
        ensures nearer_first { AreNearerFirst self.now result }
        ensures absent { AreAbsentAtStart self.now result }
    {
        self.common_parts(other)
    }

    // The parts by their cases: `meet` says what they are.
    #[tactic(auto, unfolding(crate::specs::Meet::meet_of))]
    fn common_parts(&self, other: &RingRange) -> [RingRange; 2]
        ensures parts { result ≡ meet_of self.now other.now }
        ensures this { IsRange self.now }
        ensures that { IsRange other.now }
    {
        let nothing = RingRange {
            start: self.start,
            size: 0,
        };
        if other.size == CIRCLE {
            return [*self, nothing];
        }
        if self.size == CIRCLE && other.size > 0 {
            return [*other, nothing];
        }
        let begin = u64::from(distance(self.start, other.start));
        let end = begin + other.size;
        let at_start = self.part(0, self.size.min(end.saturating_sub(CIRCLE)));
        let further_on = self.part(begin, self.size.min(end));
        if at_start.size == 0 {
            [further_on, at_start]
        } else {
            [at_start, further_on]
        }
    }
}
