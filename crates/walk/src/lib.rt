// The walk: a depth-first branch-and-bound search through gate lists. It prunes only what cannot change the incumbent, the best circuit so
// far, so that in the end the incumbent is the first of all choices that were asked for.
//
// node: what a walk is given, and its nodes. advance: the node one gate further. offer: a list offered with its layouts, and bounds on its
// cost. skip: two tests of a single gate. tests: all tests of a gate at a node, cheapest first.
#![tactic(auto)]

pub mod advance;
pub mod node;
pub mod offer;
pub mod skip;
pub mod tests;

ghost use Rattle.std.specs.Prelude.{◌≡◌, [], ◌+◌, ◌-◌, ◌≤◌, ◌<◌};
ghost use Rattle.std.proofs.Math.Option.{none};
ghost use Rattle.circuit.specs.Measure.{cost};
ghost use Rattle.problem.specs.order.View.{view};
ghost use Rattle.problem.specs.Problems.{Problem};
ghost use Rattle.problem.specs.Inner.{looked_under};
ghost use Rattle.problem.specs.pruned.Pruned.{tried_under};
ghost use Rattle.outputs.specs.Owed.{lost};
ghost use Rattle.walk.specs.node.States.{list_of, Supplied, Small, Fair, Ready, Needs, Given, At, Exact, needless};

use crate::node::{Node, Setup, Subtree};
use bloom::targets;
use columns::table_columns;
use normal_forms::masks;
use outputs::{plan, product_table};
use problem::Entry;
use problem::order::Best;

// The incumbent once a subtree was walked: the first of `best` and the good choices of all lists in it, but for lists that go on by a
// needless gate.
fn dfs(
    entries: &[Entry],
    setup: Setup,
    tree: Subtree,
    best: Option<Best>,
    bits: &[u64],
    sums: &[u8],
) -> Option<Best>
    requires supplied { Supplied entries.now setup.task bits.now setup.reach }
    requires fair { Fair setup.task × (setup.least.extra ≤ 255) }
    requires remaining_bound { tree.node.len + tree.remaining ≤ 12 }
    requires small { Small tree.node }
    ensures { (P : Problem) → Given P setup entries.now → At P tree.node
        → Exact P setup.task.cost_limit (list_of tree.node) tree.remaining sums.now
        → view result ≡ tried_under needless P setup.task.cost_limit (list_of tree.node) tree.remaining (view best) }
{
    let s = tree.node;
    let remaining = tree.remaining;
    if offer::impossible(sums, setup.task.cost_limit, s.cost, remaining) {
        return best;
    }
    // parts of the setup are copied no earlier than they are needed, since most nodes are pruned before
    let task = setup.task;
    let least = setup.least;
    let most = offer::affordable(task, least, s, remaining, best);
    let wanted = task.wanted;
    let columns = s.columns;
    let plan = plan::plan_of(wanted, columns, task.outputs, task.free);
    if logic::either(most < plan.lost, most < s.needs) {
        return best;
    }
    let mut b = offer::consider_met(task, s, plan.lost, best);
    if most == 0 {
        return b;
    }
    let table = product_table::table_of(task.controls, wanted, columns);
    let reach = setup.reach;
    let wires = targets::open_wires(bits, reach, columns, most - 1);
    for entry in entries {
        if tests::eligible(
            &table,
            plan,
            task.outputs,
            task.free,
            wires,
            entry.gate,
            most,
        ) {
            if tests::promising(&table, task, s, *entry, most, b, bits, reach) {
                let next = Subtree {
                    node: advance::advance(&table, task, least, s, *entry),
                    remaining: remaining - 1,
                };
                b = dfs(entries, setup, next, b, bits, sums);
            }
        }
    }
    b
}

// The node of the empty list.
pub fn root(needs: usize) -> Node
    requires { needs ≤ 12 }
    ensures len_value { (result.len ≡ 0) × Small result }
    ensures at { (P : Problem) → Needs P [] needs → At P result }
{
    Node {
        columns: table_columns::start_columns(),
        times: [0u16; 5],
        cost: 0,
        path: [0u8; 12],
        len: 0,
        needs,
        marks: masks::start(),
    }
}

// One walk from the empty list: the first of the lists that cost at most the task's limit and have at most `most` gates. Sums are given
// only where every good list has exactly so many gates and costs exactly so much.
pub fn run(entries: &[Entry], setup: Setup, most: usize, bits: &[u64], sums: &[u8]) -> Option<Best>
    requires supplied { Supplied entries.now setup.task bits.now setup.reach }
    requires ready { Ready setup.task setup.least × (most ≤ 12) }
    ensures { (P : Problem) → Given P setup entries.now
        → Exact P setup.task.cost_limit [] most sums.now
        → view result ≡ looked_under P setup.task.cost_limit [] most none }
{
    let tree = Subtree {
        node: root(setup.least.needs),
        remaining: most,
    };
    dfs(entries, setup, tree, None, bits, sums)
}
