// One step of the walk: from a node to the node of its list with one gate more.
ghost use Rattle.std.specs.Prelude.{◌≡◌, List, [], ◌∷◌, ◌++◌, ℕ, ◌+◌, ◌≤◌, ◌<◌, length};
ghost use Rattle.logic.specs.Lists.{Among};
ghost use Rattle.gate.specs.Gates.{target_of};
ghost use Rattle.circuit.specs.run.Inner.{columns_after};
ghost use Rattle.table.specs.layouts.Layouts.{Width};
ghost use Rattle.columns.specs.Wanted.{start_columns};
ghost use Rattle.problem.specs.Problems.{Problem};
ghost use Rattle.outputs.specs.products.Products.{table_of};
ghost use Rattle.walk.specs.node.States.{Small, Needs, Asks, At, Lists, Follows};

use crate::node::{Least, Node, Task};
use bounds::{budget, elimination};
use circuit::timing;
use normal_forms::masks;
use outputs::product_step;
use problem::Entry;

// A lower bound on the heavy gates of every way to finish, after gate `g` led to these columns; before it the bound was `needs`. A light
// gate leaves the bound as it was. Where heavy gates cost no more than others the bound prunes little, and 0 stands for it.
fn still_needed(task: Task, least: Least, columns: [u16; 5], g: u8, needs: usize) -> usize
    requires { Width task.outputs × (needs ≤ 12) }
    ensures needs { (P : Problem) (l : List ℕ) → Asks P task → Among P.gates (l ++ (g ∷ []))
        → columns ≡ columns_after (l ++ (g ∷ [])) start_columns → Needs P l needs → Needs P (l ++ (g ∷ [])) result }
    ensures upper_bound { result ≤ 12 }
{
    if least.extra == 0 {
        return 0;
    }
    if !budget::heavy(g) {
        return needs;
    }
    let wanted = task.wanted;
    elimination::needed(wanted, columns, task.outputs)
}

// The node of the list with one gate more.
pub fn advance(table: &[u16], task: Task, least: Least, s: Node, entry: Entry) -> Node
    requires table_len { (length table.now ≡ 40) × (target_of entry.gate < 5) }
    requires width { Width task.outputs × (s.len < 12) }
    requires small { Small s }
    ensures len_value { (result.len ≡ s.len + 1) × Small result }
    ensures follows { (P : Problem) → Asks P task → At P s → Lists P entry
        → table.now ≡ table_of task.controls task.wanted s.columns → Follows P s entry.gate result }
{
    let before = s.columns;
    let columns = product_step::step(table, before, entry.gate);
    let times = s.times;
    let marks = s.marks;
    let len = s.len;
    let mut path = s.path;
    path[len] = entry.gate;
    Node {
        columns,
        times: timing::hold(gate::decode(entry.gate), entry.duration, times),
        cost: s.cost + entry.price as u16,
        path,
        len: len + 1,
        needs: still_needed(task, least, columns, entry.gate, s.needs),
        marks: masks::step(entry.gate, marks),
    }
}
