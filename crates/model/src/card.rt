// The level at which a console looks, and visits to another one.
ghost use Rattle.std.specs.Prelude.{◌≡◌};

// The level in hand.
#[derive(Clone, Copy, PartialEq, Eq, Debug)]
pub struct Card {
    pub level: usize,
}

// A visit borrows the card; when it ends, on whatever way, the former level is back.
pub struct Visit<'a> {
    pub card: &'a mut Card,
    former: usize,
}

impl Card {
    pub fn new() -> Card
        ensures is_at_level_zero { result.level ≡ 0 }
    {
        Card { level: 0 }
    }

    // Sets another level for the duration of the visit.
    pub fn visit<'a>(&'a mut self, level: usize) -> Visit<'a>
        ensures is_at_the_level { result.card.now.level ≡ level }
        ensures remembers_the_former_level { result.former ≡ self.old.level }
        ensures is_a_loan_of_the_card { result.card.ghost_name ≡ self.entry.ghost_name }
    {
        let former = self.level;
        self.level = level;
        Visit { card: self, former }
    }
}

impl Drop for Visit<'_> {
    fn drop(self)
        ensures the_former_level_is_back { self.exit.0.now.level ≡ self.entry.former }
    {
        self.card.level = self.former;
        let Visit { card: _, former: _ } = self;
    }
}
