// Iterative deepening: one walk after another, with rising counts of gates, and with rising costs. The contracts speak of every problem
// that the arguments pose.
ghost use Rattle.std.specs.Prelude.{◌≡◌, ◌≤◌};
ghost use Rattle.std.proofs.Math.Option.{some};
ghost use Rattle.problem.specs.Problems.{Problem};
ghost use Rattle.problem.specs.Inner.{Past, Dearer, Shortest};
ghost use Rattle.problem.specs.Entries.{entry_prices};
ghost use Rattle.bounds.specs.sums.Sums.{Marked};
ghost use Rattle.walk.specs.node.States.{Supplied, Ready, Given, Limited};
ghost use Rattle.solver.specs.deepening.Deepening.{Counted, Deepened, Priced, Cheapened, limited_to};

use bounds::budget;
use problem::Entry;
use problem::incumbent::Incumbent;
use problem::order::Best;
use walk::node::{Setup, Task};

// The counts of gates from `from` to `most`, both included.
#[derive(Clone, Copy)]
pub struct Counts {
    pub from: usize,
    pub most: usize,
}

// The costs from `from` on and below `to`.
#[derive(Clone, Copy)]
pub struct Costs {
    pub from: usize,
    pub to: usize,
}

// Deepening on gates: a walk for each count, until one finds something. Sums are given only where nothing good costs less than the task's
// limit on cost.
pub fn fewest(
    entries: &[Entry],
    setup: Setup,
    counts: Counts,
    bits: &[u64],
    sums: &[u8],
) -> Option<Best>
    requires supplied { Supplied entries.now setup.task bits.now setup.reach }
    requires ready { Ready setup.task setup.least × ((counts.from ≤ counts.most) × (counts.most ≤ 12)) }
    ensures { (P : Problem) → Given P setup entries.now
        → setup.task.cost_limit ≤ P.most_cost → counts.most ≤ P.most_gates → Past P setup.task.cost_limit counts.from
        → Counted P setup.task.cost_limit sums.now → Deepened P setup.task.cost_limit counts.most result }
{
    for g in counts.from..counts.most {
        if let Some(b) = walk::run(entries, setup, g, bits, sums) {
            return Some(b);
        }
    }
    walk::run(entries, setup, counts.most, bits, sums)
}

// The search at one cost, the task's limit: deepening on gates from `from` up to as many as the cost buys.
fn at_cost(entries: &[Entry], setup: Setup, from: usize, bits: &[u64], sums: &[u8]) -> Option<Best>
    requires supplied { Supplied entries.now setup.task bits.now setup.reach }
    requires ready { Ready setup.task setup.least × (setup.task.gate_limit ≤ 12) }
    ensures { (P : Problem) → Given P setup entries.now
        → setup.task.cost_limit ≤ P.most_cost → setup.task.gate_limit ≡ P.most_gates → Past P setup.task.cost_limit from
        → Counted P setup.task.cost_limit sums.now → Priced P setup.task.cost_limit result }
{
    let most = budget::buys(
        setup.least.low,
        setup.least.extra,
        setup.least.needs,
        setup.task.cost_limit,
        setup.task.gate_limit,
    );
    if most < from {
        return None;
    }
    let counts = Counts { from, most };
    fewest(entries, setup, counts, bits, sums)
}

// The task with another limit on cost.
fn limited_to(task: Task, limit: usize) -> Task
    ensures { result ≡ limited_to task limit }
{
    let wanted = task.wanted;
    Task {
        wanted,
        outputs: task.outputs,
        free: task.free,
        controls: task.controls,
        gate_limit: task.gate_limit,
        cost_limit: limit,
        depth_limit: task.depth_limit,
    }
}

// Deepening on cost: a search at each cost, rising, until one finds something. At a cost that is no sum of prices each walk ends at its
// root.
pub fn cheaper<H: Incumbent>(
    entries: &[Entry],
    setup: Setup,
    held: H,
    costs: Costs,
    bits: &[u64],
    sums: &[u8],
) -> Option<Best>
    requires supplied { Supplied entries.now setup.task bits.now setup.reach }
    requires ready { Ready setup.task setup.least × (setup.task.gate_limit ≤ 12) }
    requires marked { Marked (entry_prices entries.now) setup.task.gate_limit sums.now }
    requires costs_rise { (costs.from ≤ costs.to) × (costs.to ≤ (H.stands_for held).cost) }
    ensures { (P : Problem) → Given P setup entries.now
        → Limited P setup.task → Shortest P P.most_cost (some (H.stands_for held)) (H.stands_for held).gates → Dearer P costs.from
        → Cheapened P costs.to result }
{
    let task = setup.task;
    let least = setup.least;
    let reach = setup.reach;
    for c in costs.from..costs.to {
        let at = Setup {
            task: limited_to(task, c),
            least,
            reach,
        };
        if let Some(b) = at_cost(entries, at, held.len(), bits, sums) {
            return Some(b);
        }
    }
    None
}
