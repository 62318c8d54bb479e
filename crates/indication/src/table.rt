ghost use Rattle.std.specs.Prelude.{◌≡◌, ◌<◌, [], ◌∷◌, ◌++◌, length, MatchResult};
ghost use Rattle.indication.specs.Format.{listed};

use crate::entries::Entries;
use crate::entry::{Charge, Entry, Term, Usage};

impl Entries {
    pub fn new() -> Entries
        ensures { listed result ≡ [] }
    {
        let charge = Charge { size: 0, step: 0 };
        let term = Term {
            usage: Usage::Periodic,
            duration: 0,
        };
        Entries {
            slots: [Entry { charge, term }; 6],
            count: 0,
        }
    }

    /// One entry more, at the end; given back where there are six already.
    #[tactic(auto, using(std::proofs::lemmas::List::take_more_set))]
    pub fn push(&mut self, entry: Entry) -> Result<(), Entry>
        ensures { MatchResult result (λ _. (length (listed self.old) < 6) × (listed self.new ≡ listed self.old ++ entry ∷ [])) (λ back. (length (listed self.old) ≡ 6) × (listed self.new ≡ listed self.old) × (back ≡ entry)) }
    {
        if self.count == self.slots.len() {
            return Err(entry);
        }
        // by index: `get_mut` does not say what the array holds afterwards
        self.slots[self.count] = entry;
        self.count += 1;
        Ok(())
    }

    pub fn as_slice(&self) -> &[Entry]
        ensures { result.now ≡ listed self.now }
    {
        &self.slots[0..self.count]
    }
}
