//! Which processor is preferred at each turn.

ghost use Rattle.std.specs.Prelude.{◌≡◌, ◌<◌, ◌≤◌, ◌∷◌, ℕ, suc};
ghost use Rattle.um_core.specs.Order.{coming, preferred};

use rand_core::SeedableRng;
use rand_core::utils::NextWord;
use rand_pcg::Lcg64Xsh32;

/// The order in which processors are preferred: one after another, or as numbers are drawn.
#[derive(Drop)]
pub enum Order {
    /// One after another: the number of the next one.
    Round(u8),
    /// As the words of a generator fall.
    Drawn(Lcg64Xsh32),
}

impl Order {
    /// Makes the order: one after another from the first on, or drawn from a seed.
    #[tactic(auto, unfolding(crate::specs::Order::seeded))]
    pub fn new(pick: Option<u64>) -> Order
        ensures { (cpus n : ℕ) → coming cpus result n ≡ preferred cpus pick n }
    {
        match pick {
            None => Order::Round(0),
            Some(seed) => Order::Drawn(Lcg64Xsh32::seed_from_u64(seed)),
        }
    }

    /// The processor that is preferred next, of this many.
    pub fn next(&mut self, cpus: u8) -> u8
        requires some { 1 ≤ cpus }
        ensures within { result < cpus }
        ensures first { (n : ℕ) → coming cpus self.old (suc n) ≡ result ∷ coming cpus self.new n }
    {
        match self {
            Order::Round(next) => {
                let preferred = *next % cpus;
                *next = (preferred + 1) % cpus;
                preferred
            }
            Order::Drawn(words) => (words.next_word() % cpus as u32) as u8,
        }
    }
}
