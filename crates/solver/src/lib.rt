// The solver: the search for the first good choice of a problem, by iterative deepening. It looks for a feasible circuit of the fewest
// gates, the incumbent (`held`), and then for a cheaper one. Each walk prunes by a filter where that is worth the time to fill it. The
// solver takes a list of entries, each a gate with its price and duration, and knows no job; its contracts speak of every problem that the arguments pose.
//
// prospects: the lower bounds, and which filter is worth its time. deepening: rising counts of gates, and rising costs. cheaper: the search
// below the incumbent's cost.
#![tactic(auto)]

pub mod cheaper;
pub mod deepening;
pub mod prospects;

ghost use Rattle.std.specs.Prelude.{◌≡◌, ℕ, ◌+◌, ◌-◌, ◌≤◌, ◌<◌};
ghost use Rattle.std.proofs.Math.Option.{none};
ghost use Rattle.problem.specs.order.View.{view};
ghost use Rattle.problem.specs.Problems.{Problem, first_good};
ghost use Rattle.walk.specs.declared.node.Task.{Task};
ghost use Rattle.walk.specs.node.States.{OnWires, Supplied, Fair, Ready, Posed, Limited, Bounded, Given};
ghost use Rattle.solver.specs.deepening.Deepening.{Deepened};
ghost use Rattle.solver.specs.States.{Settled};

use crate::deepening::Counts;
use problem::Entry;
use problem::order::Best;
use walk::node::{Least, Setup, Task};

// The first good choice, where there is an incumbent; without one the search has to go on to more gates.
fn settle(entries: &[Entry], setup: Setup, held: Option<Best>, bits: &[u64]) -> Option<Best>
    requires supplied { Supplied entries.now setup.task bits.now setup.reach }
    requires ready { Ready setup.task setup.least × (setup.task.gate_limit ≤ 12) }
    ensures { (P : Problem) (most : ℕ) → Given P setup entries.now
        → Limited P setup.task → Deepened P P.most_cost most held → Settled P most result }
{
    Some(cheaper::cheapest_from(entries, setup, held?, 0, bits))
}

// The incumbent, or, where there is none, a list of the fewest gates, among these counts.
fn go_on(
    entries: &[Entry],
    setup: Setup,
    held: Option<Best>,
    counts: Counts,
    bits: &[u64],
) -> Option<Best>
    requires supplied { Supplied entries.now setup.task bits.now setup.reach }
    requires ready { Ready setup.task setup.least × ((counts.from ≤ counts.most) × (counts.most ≤ 12)) }
    requires le_from { 1 ≤ counts.from }
    ensures { (P : Problem) → Given P setup entries.now
        → Limited P setup.task → counts.most ≤ P.most_gates → Deepened P P.most_cost (counts.from - 1) held
        → Deepened P P.most_cost counts.most result }
{
    if let Some(found) = held {
        return Some(found);
    }
    deepening::fewest(entries, setup, counts, bits, &[])
}

// One stage: a filter is filled, and the search goes on with it, for the fewest gates among these counts where there is no incumbent yet,
// and then for a cheaper one.
fn stage(
    entries: &[Entry],
    task: Task,
    least: Least,
    held: Option<Best>,
    counts: Counts,
    bits: &mut [u64],
) -> Option<Best>
    requires known { OnWires entries.now }
    requires ready { Ready task least × (task.gate_limit ≤ 12) }
    requires le_from { (1 ≤ counts.from) × ((counts.from ≤ counts.most) × (counts.most ≤ 12)) }
    ensures { (P : Problem) → Posed P task entries.now → Bounded P least
        → Limited P task → counts.most ≤ P.most_gates → Deepened P P.most_cost (counts.from - 1) held → Settled P counts.most result }
{
    let radius = prospects::radius_for(entries.len(), counts.most);
    let reach = prospects::filled(entries, task, radius, bits);
    let setup = Setup { task, least, reach };
    let found = go_on(entries, setup, held, counts, bits)?;
    Some(cheaper::cheapest(entries, setup, found, bits))
}

// Two stages, of a narrower and a wider filter: the wider one is filled only where the search has to go on to more gates.
fn stages(
    entries: &[Entry],
    task: Task,
    least: Least,
    held: Option<Best>,
    from: usize,
    bits: &mut [u64; 786432],
) -> Option<Best>
    requires known { OnWires entries.now }
    requires ready { Ready task least × ((from ≤ task.gate_limit) × (task.gate_limit ≤ 12)) }
    requires le_from { (1 ≤ from) × (from ≤ 10) }
    ensures { (P : Problem) → Posed P task entries.now → Bounded P least
        → Limited P task → Deepened P P.most_cost (from - 1) held → Settled P task.gate_limit result }
{
    let limit = task.gate_limit;
    let turn = prospects::turn_for(entries.len(), from);
    if limit <= turn {
        let all = Counts { from, most: limit };
        return stage(entries, task, least, held, all, bits);
    }
    let few = Counts { from, most: turn };
    if let Some(best) = stage(entries, task, least, held, few, bits) {
        return Some(best);
    }
    let more = Counts {
        from: turn + 1,
        most: limit,
    };
    stage(entries, task, least, None, more, bits)
}

// The search with filters, from `from` gates on: two stages, with room for the bits of a filter.
fn filtered(
    entries: &[Entry],
    task: Task,
    least: Least,
    held: Option<Best>,
    from: usize,
) -> Option<Best>
    requires known { OnWires entries.now }
    requires ready { Ready task least × ((from ≤ task.gate_limit) × (task.gate_limit ≤ 12)) }
    requires le_from { (1 ≤ from) × (from ≤ 10) }
    ensures { (P : Problem) → Posed P task entries.now → Bounded P least
        → Limited P task → Deepened P P.most_cost (from - 1) held → Settled P task.gate_limit result }
{
    let mut bits = [0u64; 786432];
    stages(entries, task, least, held, from, &mut bits)
}

// The first good choice of every problem that the entries and the task pose. First comes feasibility: the fewest gates, with no limit on
// cost but the task's. What is found is the incumbent, and only lower costs remain to be tried. Short lists are searched with no filter.
pub fn solve(entries: &[Entry], task: Task) -> Option<Best>
    requires known { OnWires entries.now }
    requires fair { Fair task × (task.gate_limit ≤ 12) }
    ensures { (P : Problem) → Posed P task entries.now → Limited P task
        → view result ≡ first_good P }
{
    let least = prospects::least_of(entries, task);
    let limit = task.gate_limit;
    let none = [0u64; 0];
    let reach = prospects::no_filter();
    let setup = Setup { task, least, reach };
    let most = prospects::early(limit);
    let counts = Counts { from: 0, most };
    let no_sums = [0u8; 0];
    let held = deepening::fewest(entries, setup, counts, &none, &no_sums);
    if limit <= most {
        return settle(entries, setup, held, &none);
    }
    let Some(found) = held else {
        return filtered(entries, task, least, None, most + 1);
    };
    if prospects::near(task, least, found, most) {
        return settle(entries, setup, held, &none);
    }
    filtered(entries, task, least, held, most + 1)
}
