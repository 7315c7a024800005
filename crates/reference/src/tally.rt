// Counting stations.
ghost use Rattle.std.specs.Prelude.{◌≡◌, ◌-◌};
ghost use Rattle.reference.specs.Count as Count;
ghost use Rattle.reference.specs.Turns as Turns;

use crate::Cycle;

impl Cycle<'_> {
    // Whether a station asks: there is a byte for it, and it is 1.
    #[tactic(auto, unfolding(crate::specs::Turns::asks))]
    pub(crate) fn asks(&self, station: usize) -> bool
        ensures { result ≡ Turns.asks self.now station }
    {
        self.requests.get(station) == Some(&1)
    }

    // How many of the stations from `from` up to `to` ask.
    pub(crate) fn asking(&self, from: usize, to: usize) -> usize
        ensures { result ≡ Count.tally (Turns.asks self.now) from (to - from) }
    {
        (from..to).filter(|i| self.asks(*i)).count()
    }

    // How many stations ask and are nearer to the start than `station`.
    #[tactic(auto, unfolding(crate::specs::Turns::nearer, crate::specs::Turns::before))]
    pub(crate) fn nearer(&self, station: usize) -> usize
        ensures { result ≡ Turns.nearer self.now station }
    {
        let limit = self.distance(station);
        (0..self.width)
            .filter(|i| self.asks(*i) && self.distance(*i) < limit)
            .count()
    }
}
