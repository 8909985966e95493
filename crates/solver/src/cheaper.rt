// The search below the incumbent's cost: whether a list of more gates costs less. It begins with the filter at hand, and goes on with a
// wider one at the costs where that is worth the time to fill it.
ghost use Rattle.std.specs.Prelude.{◌≡◌, ◌-◌, ◌≤◌, ◌<◌, Some};
ghost use Rattle.circuit.specs.Measure.{cost};
ghost use Rattle.problem.specs.order.View.{view};
ghost use Rattle.problem.specs.Problems.{Problem, first_good};
ghost use Rattle.problem.specs.Entries.{entry_gates};
ghost use Rattle.problem.specs.Inner.{Dearer, Shortest};
ghost use Rattle.reach_filter.specs.fill.Sieve.{Sieve};
ghost use Rattle.walk.specs.node.States.{OnWires, Supplied, Ready, Given, Limited};
ghost use Rattle.solver.specs.deepening.Deepening.{Cheapened};

use crate::deepening::Costs;
use crate::{deepening, prospects};
use bounds::sums;
use problem::Entry;
use problem::order::Best;
use walk::node::Setup;

// The first good choice, where its cost is one of `costs`; else nothing is found. The sums of prices are marked in `sums`, as far as there
// is room for them.
#[tactic(auto, unfolding(problem::specs::order::View::choice, problem::specs::order::View::view))]
fn between_with_sums(
    entries: &[Entry],
    setup: Setup,
    held: Best,
    costs: Costs,
    bits: &[u64],
    sums: &mut [u8],
) -> Option<Best>
    requires supplied { Supplied entries.now setup.task bits.now setup.reach }
    requires ready { Ready setup.task setup.least × (setup.task.gate_limit ≤ 12) }
    requires costs_rise { (costs.from ≤ costs.to) × (costs.to ≤ held.cost) }
    ensures { (P : Problem) → Given P setup entries.now
        → Limited P setup.task → Shortest P P.most_cost (view (Some held)) held.len → Dearer P costs.from
        → Cheapened P costs.to result }
{
    sums::mark(entries, setup.task.gate_limit, sums);
    deepening::cheaper(entries, setup, held, costs, bits, sums)
}

// How much room the sums below a cost take, `most` at most: 13 places a cost.
fn room_for(cost: usize, most: usize) -> usize
    requires { cost ≤ 65535 }
    ensures { result ≤ most }
{
    let room = 13 * cost;
    if room < most { room } else { most }
}

// The first good choice, where its cost is one of `costs`; else nothing is found. Of the room in `sums` no more is used than the sums below
// `to` take.
fn between_with_room(
    entries: &[Entry],
    setup: Setup,
    held: Best,
    costs: Costs,
    bits: &[u64],
    sums: &mut [u8],
) -> Option<Best>
    requires supplied { Supplied entries.now setup.task bits.now setup.reach }
    requires ready { Ready setup.task setup.least × (setup.task.gate_limit ≤ 12) }
    requires costs_rise { (costs.from ≤ costs.to) × (costs.to ≤ held.cost) }
    ensures { (P : Problem) → Given P setup entries.now
        → Limited P setup.task → Shortest P P.most_cost (view (Some held)) held.len → Dearer P costs.from
        → Cheapened P costs.to result }
{
    let room = room_for(costs.to, sums.len());
    between_with_sums(entries, setup, held, costs, bits, &mut sums[..room])
}

// The first good choice, where its cost is one of `costs`; else nothing is found. The incumbent has the fewest gates, costs at least `to`,
// and nothing good costs less than `from`.
fn costs_between(
    entries: &[Entry],
    setup: Setup,
    held: Best,
    costs: Costs,
    bits: &[u64],
) -> Option<Best>
    requires supplied { Supplied entries.now setup.task bits.now setup.reach }
    requires ready { Ready setup.task setup.least × (setup.task.gate_limit ≤ 12) }
    requires costs_rise { (costs.from ≤ costs.to) × (costs.to ≤ held.cost) }
    ensures { (P : Problem) → Given P setup entries.now
        → Limited P setup.task → Shortest P P.most_cost (view (Some held)) held.len → Dearer P costs.from
        → Cheapened P costs.to result }
{
    // a place for each cost up to 3060 with each count of gates up to 12
    let mut sums = [0u8; 39793];
    between_with_room(entries, setup, held, costs, bits, &mut sums)
}

// The first good choice, where the incumbent has the fewest gates and nothing good costs less than `from`: one that costs less than the
// incumbent, or the incumbent.
pub fn cheapest_from(entries: &[Entry], setup: Setup, held: Best, from: usize, bits: &[u64]) -> Best
    requires supplied { Supplied entries.now setup.task bits.now setup.reach }
    requires ready { Ready setup.task setup.least × (setup.task.gate_limit ≤ 12) }
    requires from_bound { from ≤ held.cost }
    ensures { (P : Problem) → Given P setup entries.now
        → Limited P setup.task → Shortest P P.most_cost (view (Some held)) held.len → Dearer P from → view (Some result) ≡ first_good P }
{
    let costs = Costs {
        from,
        to: held.cost as usize,
    };
    costs_between(entries, setup, held, costs, bits).unwrap_or(held)
}

// The first good choice, where the incumbent has the fewest gates: one that costs less than the incumbent, or the incumbent. The filter at
// hand serves up to the cost from which on a wider one is worth the time to fill it.
#[tactic(auto, unfolding(problem::specs::order::View::choice))]
pub fn cheapest(entries: &[Entry], setup: Setup, held: Best, bits: &mut [u64]) -> Best
    requires known { OnWires entries.now }
    requires ready { Ready setup.task setup.least × (setup.task.gate_limit ≤ 12) }
    requires sieve { Sieve bits.old setup.reach (entry_gates entries.now) setup.task.controls setup.task.wanted setup.task.outputs
        setup.task.free }
    ensures { (P : Problem) → Given P setup entries.now
        → Limited P setup.task → Shortest P P.most_cost (view (Some held)) held.len → view (Some result) ≡ first_good P }
{
    let task = setup.task;
    let least = setup.least;
    let reach = setup.reach;
    let turn = prospects::wider_from(entries.len(), task, least, held, reach.radius);
    let costs = Costs { from: 0, to: turn };
    if let Some(early) = costs_between(entries, setup, held, costs, bits) {
        return early;
    }
    let wider = Setup {
        task,
        least,
        reach: prospects::widened(entries, task, least, held, turn, reach, bits),
    };
    cheapest_from(entries, wider, held, turn, bits)
}
