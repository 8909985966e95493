// What a search reads of the circuit that it is to improve on, whichever type holds that circuit.
ghost use Rattle.std.specs.Prelude.{◌≡◌};
ghost use Rattle.problem.specs.order.Choices.{Choice};
ghost use Rattle.problem.specs.order.View.{choice, held_choice};

use crate::order::{Best, Held};

// A circuit that others are measured against: the choice that it stands for, with its first two keys.
pub trait Incumbent: Copy {
    ghost stands_for: { Self → Choice };

    fn cost(self) -> u16
        ensures { result ≡ (stands_for self).cost };

    fn len(self) -> usize
        ensures { result ≡ (stands_for self).gates };
}

impl Incumbent for Best {
    ghost stands_for = { choice };

    #[tactic(auto, unfolding(crate::specs::order::View::choice))]
    fn cost(self) -> u16 {
        self.cost
    }

    #[tactic(auto, unfolding(crate::specs::order::View::choice))]
    fn len(self) -> usize {
        self.len
    }
}

impl Incumbent for Held {
    ghost stands_for = { held_choice };

    #[tactic(auto, unfolding(crate::specs::order::View::held_choice))]
    fn cost(self) -> u16 {
        self.cost
    }

    #[tactic(auto, unfolding(crate::specs::order::View::held_choice))]
    fn len(self) -> usize {
        self.len
    }
}
