// The depth-first walk through gate lists for those that miss at most `k` wanted bits. It prunes only what cannot change the incumbent.
ghost use Rattle.std.specs.Prelude.{◌≡◌, ◌+◌, ◌≤◌, ◌<◌};
ghost use Rattle.problem.specs.order.View.{view};
ghost use Rattle.problem.specs.Problems.{Problem, first_good};
ghost use Rattle.problem.specs.pruned.Pruned.{tried_under};
ghost use Rattle.walk.specs.node.States.{list_of, OnWires, Small, Fair, Posed, Limited, At, needless};
ghost use Rattle.near_misses.specs.near_offer.Loose.{loosened};

use crate::near_offer;
use outputs::product_table;
use problem::Entry;
use problem::order::Best;
use walk::advance;
use walk::node::{Least, Node, Task};

// The incumbent once every list was looked at that begins with the node's and goes on by at most `remaining` gates, none of them needless.
fn dfs(
    entries: &[Entry],
    task: Task,
    s: Node,
    remaining: usize,
    k: usize,
    best: Option<Best>,
) -> Option<Best>
    requires known { OnWires entries.now }
    requires fair { Fair task }
    requires remaining_bound { s.len + remaining ≤ 12 }
    requires small { Small s }
    ensures { (P : Problem) → Posed P task entries.now → At P s
        → view result ≡ tried_under needless (loosened task k P) task.cost_limit (list_of s) remaining (view best) }
{
    let mut b = near_offer::consider_near(task, s, k, best);
    if remaining == 0 {
        return b;
    }
    let wanted = task.wanted;
    let columns = s.columns;
    let table = product_table::table_of(task.controls, wanted, columns);
    for entry in entries {
        if near_offer::hopeful(&table, task, s, *entry, remaining - 1, k, b) {
            let none = Least {
                low: 0,
                extra: 0,
                needs: 0,
            };
            let node = advance::advance(&table, task, none, s, *entry);
            b = dfs(entries, task, node, remaining - 1, k, b);
        }
    }
    b
}

// The first good choice among those that miss at most `k` wanted bits.
pub fn run(entries: &[Entry], task: Task, k: usize) -> Option<Best>
    requires known { OnWires entries.now }
    requires fair { Fair task × (task.gate_limit ≤ 12) }
    ensures { (P : Problem) → Posed P task entries.now → Limited P task
        → view result ≡ first_good (loosened task k P) }
{
    let most = task.gate_limit;
    dfs(entries, task, walk::root(0), most, k, None)
}
