// The card that a list is for, and the periods that its timer has. Request #105.
#![tactic(auto)]

ghost use Rattle.std.specs.Prelude.{◌≡◌};
ghost use Rattle.card.specs.Cards.{is_timed, is_divisor};
ghost use Rattle.card.specs.Table.{is_among};

#[derive(Clone, Copy, Debug, PartialEq, Eq)]
pub enum Card {
    Wide,
    Small,
}

impl Card {
    // What the small card can time: the divisors of 240, and no other period.
    const TIMER_PERIODS: [usize; 20] = [
        1, 2, 3, 4, 5, 6, 8, 10, 12, 15, 16, 20, 24, 30, 40, 48, 60, 80, 120, 240,
    ];

    // Whether the card can time a period.
    pub fn times(self, period: usize) -> bool
        ensures { result ≡ is_timed self period }
    {
        match self {
            Card::Wide => true,
            Card::Small => on_small(period),
        }
    }
}

// Whether the small card can time a period: whether the table has it.
fn on_small(period: usize) -> bool
    ensures { result ≡ is_divisor period }
{
    among(&Card::TIMER_PERIODS, period)
}

// Whether a table has a period.
#[tactic(auto, unfolding(crate::specs::Table::is_among))]
fn among(table: &[usize], period: usize) -> bool
    ensures { result ≡ is_among table.now period }
{
    table.contains(&period)
}
