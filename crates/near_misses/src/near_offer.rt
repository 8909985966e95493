// At a node of a walk where up to `k` wanted bits may be missed: the node's list offered with each layout, and the tests of a gate.
ghost use Rattle.std.specs.Prelude.{◌≡◌, true, false, ◌+◌, ◌≤◌, ◌<◌, length};
ghost use Rattle.gate.specs.Gates.{target_of};
ghost use Rattle.table.specs.layouts.Layouts.{Width};
ghost use Rattle.problem.specs.order.Choices.{attempt, improve};
ghost use Rattle.problem.specs.order.View.{view, viewed};
ghost use Rattle.problem.specs.Problems.{Problem, choice_of, here, within};
ghost use Rattle.problem.specs.pruned.Pruned.{tried_by};
ghost use Rattle.outputs.specs.products.Products.{table_of};
ghost use Rattle.walk.specs.node.States.{list_of, Small, Fair, Asks, At, Lists, needless};
ghost use Rattle.near_misses.specs.near_offer.Loose.{loosened};

use crate::{fewest, misses};
use circuit::timing;
use outputs::product_step;
use problem::incumbent::Incumbent;
use problem::order::Best;
use problem::{Entry, best};
use table::layouts;
use walk::node::{Node, Task};
use walk::{offer, skip};

// The incumbent after the node's list was offered with one layout: the earlier of the two, where the list misses at most `k` wanted bits
// and keeps the limits.
fn try_layout(task: Task, s: Node, k: usize, p: u8, best: Option<Best>) -> Option<Best>
    requires { s.len ≤ 12 }
    ensures { (P : Problem) → Asks P task → At P s
        → view result ≡ attempt (within (loosened task k P) task.cost_limit) (view best) (choice_of P (list_of s) p) }
{
    let wanted = task.wanted;
    let columns = s.columns;
    let times = s.times;
    let depth = timing::latest(times);
    let cheap = logic::both(
        s.cost as usize <= task.cost_limit,
        depth as usize <= task.depth_limit,
    );
    if !logic::both(misses::nearly(wanted, task.outputs, k, columns, p), cheap) {
        return best;
    }
    let path = s.path;
    let mine = Best {
        cost: s.cost,
        depth,
        layout: p,
        len: s.len,
        path,
    };
    best::offer(best, mine)
}

// The incumbent after the node's list was offered with each allowed layout.
fn consider(task: Task, s: Node, k: usize, best: Option<Best>) -> Option<Best>
    requires width { Width task.outputs }
    requires len_bound { s.len ≤ 12 }
    ensures { (P : Problem) → Asks P task → At P s
        → view result ≡ improve (within (loosened task k P) task.cost_limit) (view best) (here (loosened task k P) (list_of s)) }
{
    let count = layouts::layout_count(task.outputs, task.free);
    let mut b = best;
    for i in 0..count {
        let p = layouts::layout_at(task.outputs, task.free, i);
        b = try_layout(task, s, k, p, b);
    }
    b
}

// The incumbent after the node's list was offered with each allowed layout; none is tried where every layout misses more than `k` bits.
pub fn consider_near(task: Task, s: Node, k: usize, best: Option<Best>) -> Option<Best>
    requires width { Width task.outputs }
    requires len_bound { s.len ≤ 12 }
    ensures { (P : Problem) → Asks P task → At P s
        → view result ≡ improve (within (loosened task k P) task.cost_limit) (view best) (here (loosened task k P) (list_of s)) }
{
    let wanted = task.wanted;
    let columns = s.columns;
    if k < fewest::missed_at_least(wanted, columns, task.outputs, task.free, 0) {
        return best;
    }
    consider(task, s, k, best)
}

// Whether a gate at a node, with up to `rest` gates after it, can lead to a list that changes the incumbent.
pub fn hopeful<H: Incumbent>(
    table: &[u16],
    task: Task,
    s: Node,
    entry: Entry,
    rest: usize,
    k: usize,
    best: Option<H>,
) -> bool
    requires table_len { (length table.now ≡ 40) × (target_of entry.gate < 5) }
    requires fair { Fair task × (s.len < 12) }
    requires small { Small s }
    ensures best_value { (P : Problem) → Asks P task → At P s → Lists P entry
        → table.now ≡ table_of task.controls task.wanted s.columns → result ≡ false
        → viewed H.stands_for best
        ≡ tried_by needless (loosened task k P) task.cost_limit (list_of s) rest entry.gate (viewed H.stands_for best) }
    ensures gate_value { (P : Problem) → Asks P task → At P s → Lists P entry
        → table.now ≡ table_of task.controls task.wanted s.columns → result ≡ true
        → needless (list_of s) entry.gate ≡ false }
{
    if skip::needless(table, s, entry.gate) {
        return false;
    }
    let cost = s.cost as usize + entry.price as usize;
    if offer::dear(task.cost_limit, cost, s.len + 1, best) {
        return false;
    }
    let wanted = task.wanted;
    let columns = s.columns;
    let next = product_step::step(table, columns, entry.gate);
    if k < fewest::missed_at_least(wanted, next, task.outputs, task.free, rest) {
        return false;
    }
    skip::in_time(task, s, entry)
}
