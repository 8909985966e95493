// The incumbent, and what becomes of it when a circuit is offered: the one of the two that comes first.
ghost use Rattle.std.specs.Prelude.{◌≡◌};
ghost use Rattle.problem.specs.order.Choices.{before, keep};
ghost use Rattle.problem.specs.order.View.{choice, view};

use crate::order::Best;

// Whether circuit `a` comes before circuit `b`: by cost, then gates, depth, layout and gate bytes.
fn comes_first(a: &Best, b: &Best) -> bool
    ensures { result ≡ before (choice a.now) (choice b.now) }
{
    (a.cost, a.len, a.depth, a.layout, a.gates()) < (b.cost, b.len, b.depth, b.layout, b.gates())
}

// The incumbent after a circuit was offered: the one of the two that comes first.
pub fn offer(best: Option<Best>, mine: Best) -> Option<Best>
    ensures { view result ≡ keep (view best) (choice mine) }
{
    let Some(held) = best else {
        return Some(mine);
    };
    if comes_first(&mine, &held) {
        Some(mine)
    } else {
        best
    }
}
