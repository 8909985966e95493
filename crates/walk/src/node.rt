// What a walk is given (the task, the lower bounds, the filter), and the nodes that it comes to: gate lists with what they lead to.
use bloom::hash::Reach;
use columns::Wanted;
use normal_forms::masks::Masks;

// What a search is asked for: the wanted columns, the number of outputs, whether layouts are free (1) or not (0), the most controls of a
// gate, and the limits.
#[derive(Clone, Copy)]
pub struct Task {
    pub wanted: Wanted,
    pub outputs: usize,
    pub free: usize,
    pub controls: usize,
    pub gate_limit: usize,
    pub cost_limit: usize,
    pub depth_limit: usize,
}

// Lower bounds on every list that realizes the table: the least price of a gate, what a heavy gate (two or more controls) costs above it at
// least, and how many heavy gates there must be.
#[derive(Clone, Copy)]
pub struct Least {
    pub low: usize,
    pub extra: usize,
    pub needs: usize,
}

// What a walk is given beside its slices: the task, the lower bounds, and the filter that the bits belong to.
#[derive(Clone, Copy)]
pub struct Setup {
    pub task: Task,
    pub least: Least,
    pub reach: Reach,
}

// A gate list and what it leads to: the columns of its wires, their ready times, its cost, a lower bound on the heavy gates still to come,
// and which gates need not come next.
#[derive(Clone, Copy)]
pub struct Node {
    pub columns: [u16; 5],
    pub times: [u16; 5],
    pub cost: u16,
    pub path: [u8; 12],
    pub len: usize,
    pub needs: usize,
    pub marks: Masks,
}

// What a walk goes through: every list that begins with the node's and goes on by at most `remaining` gates.
#[derive(Clone, Copy)]
pub struct Subtree {
    pub node: Node,
    pub remaining: usize,
}
