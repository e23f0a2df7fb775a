// The binary time of seven octets, CP56Time2a (IEC 60870-5-101, 7.2.6.18).
ghost use Rattle.std.specs.Prelude.{◌≡◌};
ghost use Rattle.asdu.specs.Time.{time_in_range};

use crate::Cp56Time2a;

impl Cp56Time2a {
    pub const LEN: usize = 7;

    // Whether the octets' bits can carry every field. It is not whether there is such a day.
    #[tactic(auto, using(laws::proofs::Decide::decide), unfolding(crate::specs::Time::time_in_range))]
    pub fn is_in_range(self) -> bool
        ensures { result ≡ time_in_range self }
    {
        self.minutes <= 63
            && self.hours <= 31
            && self.day_of_month <= 31
            && self.day_of_week <= 7
            && self.months <= 15
            && self.years <= 127
    }
}
