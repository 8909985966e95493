// A node's list offered to the incumbent with each layout, and the bounds on cost: lists that cannot change the incumbent, by what they
// cost already, by how many gates the cost left buys, and by which sums the prices come to.
ghost use Rattle.std.specs.Prelude.{◌≡◌, true, List, ℕ, ◌≤◌, ◌<◌, length};
ghost use Rattle.std.proofs.Math.Option.{Option};
ghost use Rattle.circuit.specs.Measure.{cost};
ghost use Rattle.table.specs.layouts.Layouts.{Width};
ghost use Rattle.problem.specs.order.Choices.{Choice, attempt, improve};
ghost use Rattle.problem.specs.order.View.{view, viewed};
ghost use Rattle.problem.specs.Problems.{Problem, choice_of, here, within};
ghost use Rattle.problem.specs.Inner.{looked_under, Enough};
ghost use Rattle.outputs.specs.Owed.{lost};
ghost use Rattle.walk.specs.node.States.{list_of, Asks, Bounded, At, Exact};

use crate::node::{Least, Node, Task};
use bounds::budget;
use circuit::timing;
use problem::best;
use problem::incumbent::Incumbent;
use problem::order::Best;
use table::layouts;

// The incumbent after the node's list was offered with one layout: the earlier of the two, where the list is good with it.
fn try_layout(task: Task, s: Node, p: u8, best: Option<Best>) -> Option<Best>
    requires { s.len ≤ 12 }
    ensures { (P : Problem) → Asks P task → At P s
        → view result ≡ attempt (within P task.cost_limit) (view best) (choice_of P (list_of s) p) }
{
    let wanted = task.wanted;
    let columns = s.columns;
    let times = s.times;
    let depth = timing::latest(times);
    let cheap = logic::both(
        s.cost as usize <= task.cost_limit,
        depth as usize <= task.depth_limit,
    );
    if !logic::both(columns::reached(wanted, task.outputs, columns, p), cheap) {
        return best;
    }
    let path = s.path;
    let mine = Best {
        cost: s.cost,
        depth,
        layout: p,
        len: s.len,
        path,
    };
    best::offer(best, mine)
}

// The incumbent after the node's list was offered with each allowed layout.
fn consider(task: Task, s: Node, best: Option<Best>) -> Option<Best>
    requires width { Width task.outputs }
    requires len_bound { s.len ≤ 12 }
    ensures { (P : Problem) → Asks P task → At P s
        → view result ≡ improve (within P task.cost_limit) (view best) (here P (list_of s)) }
{
    let count = layouts::layout_count(task.outputs, task.free);
    let mut b = best;
    for i in 0..count {
        let p = layouts::layout_at(task.outputs, task.free, i);
        b = try_layout(task, s, p, b);
    }
    b
}

// The incumbent after the node's list was offered with each allowed layout. `missing` counts the outputs that every layout misses; where
// there is one, no layout is good, and none is tried.
pub fn consider_met(task: Task, s: Node, missing: usize, best: Option<Best>) -> Option<Best>
    requires width { Width task.outputs }
    requires len_bound { s.len ≤ 12 }
    requires missing_value { missing ≡ lost task.wanted s.columns task.outputs task.free }
    ensures { (P : Problem) → Asks P task → At P s
        → view result ≡ improve (within P task.cost_limit) (view best) (here P (list_of s)) }
{
    if missing == 0 {
        consider(task, s, best)
    } else {
        best
    }
}

// The most that a list may cost and still change the incumbent.
fn cap<H: Incumbent>(limit: usize, best: Option<H>) -> usize
    ensures { (P : Problem) (c : Choice) → result < c.cost
        → attempt (within P limit) (viewed H.stands_for best) c ≡ viewed H.stands_for best }
{
    match best {
        Some(held) => limit.min(usize::from(held.cost())),
        None => limit,
    }
}

// The most gates that a list may go on by and still change the incumbent: what the cost left buys, the heavy gates still needed among them.
pub fn affordable<H: Incumbent>(
    task: Task,
    least: Least,
    s: Node,
    remaining: usize,
    best: Option<H>,
) -> usize
    requires { (s.needs ≤ 12) × (least.extra ≤ 255) }
    ensures upper_bound { result ≤ remaining }
    ensures enough { (P : Problem) → Bounded P least → At P s
        → Enough P task.cost_limit (list_of s) remaining result (viewed H.stands_for best) }
{
    let most = cap(task.cost_limit, best);
    let cost = s.cost as usize;
    if most < cost {
        return 0;
    }
    if budget::unaffordable(least.extra, s.needs, most - cost) {
        return 0;
    }
    budget::buys(least.low, least.extra, s.needs, most - cost, remaining)
}

// Whether no list that begins with one of this cost and length changes the incumbent: it costs more than the limit or the incumbent, or as
// much as the incumbent with more gates.
pub fn dear<H: Incumbent>(limit: usize, paid: usize, len: usize, best: Option<H>) -> bool
    ensures { result ≡ true → (P : Problem) (l : List ℕ) (k : ℕ) → paid ≡ cost P.price l → len ≡ length l
        → looked_under P limit l k (viewed H.stands_for best) ≡ viewed H.stands_for best }
{
    if limit < paid {
        return true;
    }
    let Some(held) = best else {
        return false;
    };
    let cost = usize::from(held.cost());
    if cost == paid {
        return held.len() < len;
    }
    cost < paid
}

// Whether no list of exactly `count` gates costs exactly what is left of the limit. Where the sums do not go that far the answer is no.
pub fn impossible(sums: &[u8], limit: usize, paid: u16, count: usize) -> bool
    requires { count ≤ 12 }
    ensures { result ≡ true → (P : Problem) (l : List ℕ) → paid ≡ cost P.price l → Exact P limit l count sums.now
        → (x : Option Choice) → looked_under P limit l count x ≡ x }
{
    let cost = paid as usize;
    // twelve gates cost at most 3060
    if logic::either(limit < cost, cost + 3060 < limit) {
        return false;
    }
    let i = 13 * (limit - cost) + count;
    if i < sums.len() { sums[i] == 0 } else { false }
}
