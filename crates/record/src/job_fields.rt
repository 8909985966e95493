// The fields of a job record, and the wires of either record.
ghost use Rattle.std.specs.Prelude.{◌≡◌, ◌≤◌, ◌<◌, get_or};
ghost use Rattle.logic.specs.Rules.{pick};
ghost use Rattle.record.specs.job_fields.Jobs.{longer, most_controls, data_wires, ancillas, wires};
ghost use Rattle.record.specs.job_fields.Jobs.{free_layout, gate_limit, word, cost_limit, depth_limit, weights_at};
ghost use Rattle.record.specs.job_fields.Jobs.{prices, durations, rows};

use circuit::Weights;

// Whether a job is a longer record, of 22 or 30 bytes: it has a price and a duration for gates of three controls.
#[tactic(auto, unfolding(crate::specs::job_fields::Jobs::longer))]
pub fn longer(job: &[u8]) -> bool
    ensures { result ≡ longer job.now }
{
    job.len() == 22 || job.len() == 30
}

// The greatest number of controls that the job allows.
pub fn most_controls(job: &[u8]) -> usize
    ensures { result ≡ most_controls job.now }
{
    if longer(job) { 3 } else { 2 }
}

// The number of data wires of a record, n.
#[tactic(auto, unfolding(crate::specs::job_fields::Jobs::data_wires))]
pub fn data_wires(bytes: &[u8]) -> usize
    ensures value { result ≡ data_wires bytes.now }
    ensures upper_bound { result < 8 }
{
    usize::from(logic::at(bytes, 0)) / 32
}

// The number of ancillas of a record, m.
#[tactic(auto, unfolding(crate::specs::job_fields::Jobs::ancillas))]
pub fn ancillas(bytes: &[u8]) -> usize
    ensures { result ≡ ancillas bytes.now }
{
    usize::from(logic::at(bytes, 0)) / 8 % 4
}

// All wires of a record, W = n + m.
#[tactic(auto, unfolding(crate::specs::job_fields::Jobs::wires, crate::specs::job_fields::Jobs::ancillas))]
pub fn wires(bytes: &[u8]) -> usize
    ensures value { result ≡ wires bytes.now }
    ensures upper_bound { result ≤ 10 }
{
    data_wires(bytes) + ancillas(bytes)
}

// The greatest number of gates that the job allows.
#[tactic(auto, unfolding(crate::specs::job_fields::Jobs::gate_limit))]
pub fn gate_limit(job: &[u8]) -> usize
    ensures { result ≡ gate_limit job.now }
{
    usize::from(logic::at(job, 1))
}

// 1 where the job leaves the final layout free, 0 where it asks for the plain one.
#[tactic(auto, unfolding(crate::specs::job_fields::Jobs::free_layout))]
pub fn free_layout(job: &[u8]) -> usize
    ensures { result ≡ free_layout job.now }
{
    usize::from(logic::at(job, 0)) / 4 % 2
}

// The number in the two bytes from `i` on, high byte first.
fn word(bytes: &[u8], i: usize) -> usize
    requires { i < 256 }
    ensures { result ≡ word bytes.now i }
{
    256 * usize::from(logic::at(bytes, i)) + usize::from(logic::at(bytes, i + 1))
}

// The greatest cost that the job allows.
#[tactic(auto, unfolding(crate::specs::job_fields::Jobs::cost_limit))]
pub fn cost_limit(job: &[u8]) -> usize
    ensures { result ≡ cost_limit job.now }
{
    word(job, 2)
}

// The greatest depth that the job allows.
#[tactic(auto, unfolding(crate::specs::job_fields::Jobs::depth_limit))]
pub fn depth_limit(job: &[u8]) -> usize
    ensures { result ≡ depth_limit job.now }
{
    word(job, 4)
}

// The weight of a gate of three controls: the byte at `i` where the record has four weights, else 0.
fn fourth(four: bool, bytes: &[u8], i: usize) -> u8
    ensures { result ≡ pick four (get_or bytes.now i 0) 0 }
{
    if four { logic::at(bytes, i) } else { 0 }
}

// The three or four weights (prices or durations) from byte `i` on.
fn weights_at(four: bool, bytes: &[u8], i: usize) -> Weights
    requires { i < 256 }
    ensures { result ≡ weights_at four bytes.now i }
{
    Weights {
        not: logic::at(bytes, i),
        cnot: logic::at(bytes, i + 1),
        toffoli: logic::at(bytes, i + 2),
        cccnot: fourth(four, bytes, i + 3),
    }
}

// The job's prices by kind of gate.
#[tactic(auto, unfolding(crate::specs::job_fields::Jobs::prices))]
pub fn prices(job: &[u8]) -> Weights
    ensures { result ≡ prices job.now }
{
    weights_at(longer(job), job, 6)
}

// The job's durations by kind of gate.
#[tactic(auto, unfolding(crate::specs::job_fields::Jobs::durations))]
pub fn durations(job: &[u8]) -> Weights
    ensures { result ≡ durations job.now }
{
    if longer(job) {
        weights_at(true, job, 10)
    } else {
        weights_at(false, job, 9)
    }
}

// The index of the first row byte.
fn rows_from(job: &[u8]) -> usize
    ensures { result ≡ pick (longer job.now) 14 12 }
{
    if longer(job) { 14 } else { 12 }
}

// The row bytes of a job.
pub fn table(job: &[u8]) -> &[u8]
    ensures { result.now ≡ rows job.now }
{
    job.get(rows_from(job)..).unwrap_or(&[])
}
