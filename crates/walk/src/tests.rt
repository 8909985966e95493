// The tests that prune a gate at a node, in two groups, cheapest first. Their contracts speak of every problem that the arguments pose.
ghost use Rattle.std.specs.Prelude.{◌≡◌, true, false, List, ◌⊎◌, ℕ, ◌+◌, ◌≤◌, ◌<◌, length};
ghost use Rattle.logic.specs.Bit.{bit_of};
ghost use Rattle.gate.specs.Gates.{target_of, lawful};
ghost use Rattle.table.specs.layouts.Layouts.{Width};
ghost use Rattle.columns.specs.declared.Wanted.{Wanted};
ghost use Rattle.problem.specs.order.View.{viewed};
ghost use Rattle.problem.specs.Problems.{Problem};
ghost use Rattle.problem.specs.Inner.{Enough};
ghost use Rattle.outputs.specs.Owed.{worth, Controls};
ghost use Rattle.outputs.specs.products.Products.{table_of};
ghost use Rattle.outputs.specs.plan.Plan.{plan_of};
ghost use Rattle.reach_filter.specs.fill.Sieve.{Sieve};
ghost use Rattle.walk.specs.declared.node.Task.{Task};
ghost use Rattle.walk.specs.node.States.{list_of, Small, Fair, Asks, At, Lists, needless, Passed};

use crate::node::{Node, Task};
use crate::{offer, skip};
use bloom::hash::Reach;
use bloom::member;
use columns::Wanted;
use outputs::plan::Plan;
use outputs::{product_step, worth};
use problem::Entry;
use problem::incumbent::Incumbent;
use repairs::stuck;

// Whether a gate's target is an open wire, and the gate keeps up with the outputs that are still owed. These tests come first: most gates
// fail them.
pub fn eligible(
    table: &[u16],
    plan: Plan,
    n: usize,
    free: usize,
    wires: usize,
    g: u8,
    most: usize,
) -> bool
    requires { (length table.now ≡ 40) × ((target_of g < 5) × Width n) }
    ensures { result ≡ false → (k : ℕ) (t : Wanted) (cs : List ℕ) → Controls k → lawful k 5 g ≡ true → length cs ≡ 5
        → table.now ≡ table_of k t cs → plan ≡ plan_of t cs n free
        → (bit_of (target_of g) wires ≡ 0) ⊎ (worth t cs n free g most ≡ false) }
{
    if !member::open(wires, g) {
        return false;
    }
    worth::worth(table, plan, n, free, g, most)
}

// Whether a gate at a node can lead to a list that changes the incumbent, where at most `most` gates may still come, this one included.
pub fn promising<H: Incumbent>(
    table: &[u16],
    task: Task,
    s: Node,
    entry: Entry,
    most: usize,
    best: Option<H>,
    bits: &[u64],
    reach: Reach,
) -> bool
    requires table_len { (length table.now ≡ 40) × (target_of entry.gate < 5) }
    requires fair { Fair task × ((s.len < 12) × (1 ≤ most)) }
    requires small { Small s }
    ensures passed { (P : Problem) (remaining : ℕ) → Asks P task → At P s → Lists P entry
        → table.now ≡ table_of task.controls task.wanted s.columns → 1 ≤ remaining
        → Enough P task.cost_limit (list_of s) remaining most (viewed H.stands_for best)
        → Sieve bits.now reach P.gates task.controls task.wanted task.outputs task.free → result ≡ false
        → Passed P task.cost_limit s entry.gate remaining (viewed H.stands_for best) }
    ensures gate_value { (P : Problem) → Asks P task → At P s → Lists P entry
        → table.now ≡ table_of task.controls task.wanted s.columns → result ≡ true
        → needless (list_of s) entry.gate ≡ false }
{
    if skip::needless(table, s, entry.gate) {
        return false;
    }
    let cost = s.cost as usize + entry.price as usize;
    if offer::dear(task.cost_limit, cost, s.len + 1, best) {
        return false;
    }
    let wanted = task.wanted;
    let columns = s.columns;
    let next = product_step::step(table, columns, entry.gate);
    if !member::near_enough(bits, reach, next, most - 1) {
        return false;
    }
    if stuck::stuck(
        task.controls,
        wanted,
        next,
        task.outputs,
        task.free,
        most - 1,
    ) {
        return false;
    }
    skip::in_time(task, s, entry)
}
