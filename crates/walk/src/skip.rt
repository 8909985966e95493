// Two tests of a single gate at a node: whether it need not be tried, and whether the list with it keeps the limit on depth.
ghost use Rattle.std.specs.Prelude.{◌≡◌, true, false, ◌+◌, ◌<◌, length};
ghost use mathlib.Core.List.{[], ◌∷◌, ◌++◌, Memᴰ};
ghost use Rattle.gate.specs.Gates.{target_of};
ghost use Rattle.circuit.specs.Measure.{depth};
ghost use Rattle.problem.specs.Problems.{Problem};
ghost use Rattle.outputs.specs.products.Products.{table_of};
ghost use Rattle.walk.specs.declared.node.Task.{Task};
ghost use Rattle.walk.specs.node.States.{list_of, Small, Asks, At, Lists, needless};

use crate::node::{Node, Task};
use circuit::timing;
use normal_forms::marks;
use outputs::product_step;
use problem::Entry;

// Whether gate `g` need not be tried at a node: it changes no column, or the list with it is not canonical, since one that comes first does
// the same.
pub fn needless(table: &[u16], s: Node, g: u8) -> bool
    requires { (length table.now ≡ 40) × (target_of g < 5) }
    ensures { (P : Problem) (task : Task) → Asks P task → At P s → Memᴰ g P.gates
        → table.now ≡ table_of task.controls task.wanted s.columns → result ≡ needless (list_of s) g }
{
    let marks = s.marks;
    logic::either(product_step::idle(table, g), marks::marked(marks, g))
}

// Whether the list with one gate more keeps the limit on depth.
pub fn in_time(task: Task, s: Node, entry: Entry) -> bool
    requires { (s.len < 12) × Small s }
    ensures { result ≡ false → (P : Problem) → Asks P task → At P s → Lists P entry
        → P.most_depth < depth P.duration (list_of s ++ (entry.gate ∷ [])) }
{
    // twelve gates of the greatest duration end by 3060, so a limit from there on prunes nothing
    if 3060 <= task.depth_limit {
        return true;
    }
    let times = s.times;
    let later = timing::hold(gate::decode(entry.gate), entry.duration, times);
    timing::latest(later) as usize <= task.depth_limit
}
