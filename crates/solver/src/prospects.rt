// What is settled before a walk: the lower bounds on every list, and which filter is worth the time to fill it.
ghost use Rattle.std.specs.Prelude.{◌≡◌, true, false, ℕ, ◌-◌, ◌≤◌, ◌<◌, leb, get_or, take};
ghost use Rattle.std.specs.List.{All};
ghost use mathlib.Core.List.{Memᴰ};
ghost use Rattle.bounds.specs.budget.Afford.{buys};
ghost use Rattle.problem.specs.declared.Entry.{Entry};
ghost use Rattle.problem.specs.Entries.{entry_gates};
ghost use Rattle.problem.specs.Problems.{Problem};
ghost use Rattle.reach_filter.specs.fill.Sieve.{Sieve};
ghost use Rattle.walk.specs.declared.node.Task.{Task};
ghost use Rattle.walk.specs.node.States.{Fair, Ready, Posed, Bounded};

use bloom::hash::Reach;
use bounds::{budget, elimination};
use columns::table_columns;
use problem::Entry;
use problem::incumbent::Incumbent;
use reach_filter::filter;
use walk::node::{Least, Task};

// The lower bounds on every list of these gates that realizes the task's table.
pub fn least_of(entries: &[Entry], task: Task) -> Least
    requires { Fair task }
    ensures ready { Ready task result }
    ensures bounded { (P : Problem) → Posed P task entries.now → Bounded P result }
{
    let low = budget::low(entries);
    let wanted = task.wanted;
    Least {
        low,
        extra: budget::extra(entries, low),
        needs: elimination::needed(wanted, table_columns::start_columns(), task.outputs),
    }
}

// The most gates of a list that costs no more than the incumbent.
fn most_cheaper<H: Incumbent>(task: Task, least: Least, held: H) -> usize
    requires { (least.needs ≤ 12) × (least.extra ≤ 255) }
    ensures { result ≡ buys least.low least.extra least.needs (H.stands_for held).cost task.gate_limit }
{
    budget::buys(
        least.low,
        least.extra,
        least.needs,
        held.cost() as usize,
        task.gate_limit,
    )
}

// The lowest cost at which a list may have so many gates that a filter of a greater radius than this is worth the time to fill it; the
// incumbent's cost, where there is none below. With many gates to choose from filling it takes longer than it saves.
pub fn wider_from<H: Incumbent>(
    count: usize,
    task: Task,
    least: Least,
    held: H,
    radius: usize,
) -> usize
    requires { (least.needs ≤ 12) × (least.extra ≤ 255) }
    ensures { result ≤ (H.stands_for held).cost }
{
    let top = held.cost() as usize;
    if 32 < count {
        return top;
    }
    for c in 0..top {
        let most = budget::buys(least.low, least.extra, least.needs, c, task.gate_limit);
        if radius < radius_for(count, most) {
            return c;
        }
    }
    top
}

// Which gate bytes the entries list.
fn listed(entries: &[Entry]) -> [bool; 256]
    ensures { All (λ (e : Entry). get_or result e.gate false ≡ true) entries.now }
{
    let mut listed = [false; 256];
    for entry in entries {
        listed[usize::from(entry.gate)] = true;
    }
    listed
}

// Gate bytes: the first `count` of `bytes`.
#[derive(Clone, Copy)]
struct Gates {
    count: usize,
    bytes: [u8; 256],
    ghost fits: { count ≤ 256 },
}

// The bytes marked in `listed`, rising.
fn collected(listed: [bool; 256]) -> Gates
    ensures { (g : ℕ) → get_or listed g false ≡ true → Memᴰ g (take result.count result.bytes) }
{
    let mut bytes = [0u8; 256];
    let mut count = 0;
    for g in 0..256 {
        if listed[g] {
            bytes[count] = g as u8;
            count += 1;
        }
    }
    Gates { count, bytes }
}

// A filter of a radius for the gates of the entries, filled into `bits`. It is given each gate once, so that there is room for the gates of
// any number of entries.
pub fn filled(entries: &[Entry], task: Task, radius: usize, bits: &mut [u64]) -> Reach
    requires { Fair task }
    ensures { Sieve bits.new result (entry_gates entries.now) task.controls task.wanted task.outputs task.free }
{
    let gates = collected(listed(entries));
    let bytes = gates.bytes;
    let wanted = task.wanted;
    filter::filter_for(
        &bytes[..gates.count],
        wanted,
        task.outputs,
        task.free,
        radius,
        size_for(entries.len(), radius),
        bits,
    )
}

// The filter for the costs from `from` on and below the incumbent's: a wider one, filled anew, or, where there is no such cost, the one at
// hand.
pub fn widened<H: Incumbent>(
    entries: &[Entry],
    task: Task,
    least: Least,
    held: H,
    from: usize,
    reach: Reach,
    bits: &mut [u64],
) -> Reach
    requires ready { Ready task least }
    requires sieve { Sieve bits.old reach (entry_gates entries.now) task.controls task.wanted task.outputs task.free }
    ensures { Sieve bits.new result (entry_gates entries.now) task.controls task.wanted task.outputs task.free }
{
    if held.cost() as usize <= from {
        return reach;
    }
    let radius = radius_for(entries.len(), most_cheaper(task, least, held));
    filled(entries, task, radius, bits)
}

// The radius of the filter for lists of up to `most` gates. It grows with `most`, and is smaller where there are more gates to choose from
// (`count`), since the time to fill it is a power of their number.
pub fn radius_for(count: usize, most: usize) -> usize
    ensures { result ≤ 5 }
{
    if count <= 32 {
        if most <= 10 { 4 } else { 5 }
    } else {
        if most <= 8 { 3 } else { 4 }
    }
}

// How many bits a filter has: fewer where it holds few states, since a small set stays in the processor's cache; enough that most of them
// stay clear, or it would rule out little.
pub fn size_for(count: usize, radius: usize) -> u32
    ensures { (16777216 ≤ result) × (result ≤ 50331648) }
{
    if radius <= 3 {
        return 16777216;
    }
    if logic::both(count <= 32, radius == 4) {
        return 16777216;
    }
    50331648
}

// Up to how many gates, at least `from`, the first filter serves; after that the wider one does.
pub fn turn_for(count: usize, from: usize) -> usize
    requires { from ≤ 10 }
    ensures { (from ≤ result) × (result ≤ 10) }
{
    if count <= 32 {
        return 10;
    }
    if from <= 8 { 8 } else { from }
}

// No filter: a radius of 0 and no bits, so that it rules out nothing.
pub fn no_filter() -> Reach
    ensures { (result.radius ≡ 0) × (result.size ≡ 0) }
{
    Reach {
        radius: 0,
        size: 0,
        rows: 0,
        factors: [0u32; 5],
    }
}

// Up to how many gates the search goes with no filter: so far filling one takes longer than it saves.
pub fn early(limit: usize) -> usize
    ensures { (result ≤ limit) × (result < 10) }
{
    if limit < 6 { limit } else { 6 }
}

// Whether no list that could cost less than the incumbent has more than `most` gates: then no filter is worth its time.
pub fn near<H: Incumbent>(task: Task, least: Least, held: H, most: usize) -> bool
    requires { (least.needs ≤ 12) × (least.extra ≤ 255) }
    ensures { result ≡ leb (buys least.low least.extra least.needs (H.stands_for held).cost task.gate_limit) most }
{
    most_cheaper(task, least, held) <= most
}
