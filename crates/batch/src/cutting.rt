// The job records of a batch, cut off one after the other: the first three bits of a record tell its length.
ghost use Rattle.std.specs.Prelude.{◌≡◌, ◌-◌, ◌<◌, ◌≤◌, length, take, drop};
ghost use Rattle.logic.specs.Lists.{total};
ghost use Rattle.batch.specs.cutting.Records.{size_said, record_size, records_of, count_of, job_at};

use record::job_fields;

// The records of a batch: how many there are, and where the last one ends.
#[derive(Clone, Copy)]
pub struct Cut {
    pub count: usize,
    pub end: usize,
}

// The length that the first three bits of the record at the front stand for, or 0 where they stand for none.
#[tactic(auto, unfolding(crate::specs::cutting::Records::size_said))]
fn size_said(jobs: &[u8]) -> usize
    ensures { result ≡ size_said jobs.now }
{
    match job_fields::data_wires(jobs) {
        3 => 20,
        4 => 28,
        _ => 0,
    }
}

// The size of the record at the front, or 0 where none can be cut off.
#[tactic(auto, unfolding(crate::specs::cutting::Records::record_size))]
pub fn record_size(jobs: &[u8]) -> usize
    ensures value { result ≡ record_size jobs.now }
    ensures upper_bound { result ≤ length jobs.now }
{
    let size = size_said(jobs);
    if size <= jobs.len() { size } else { 0 }
}

// Cuts the records off one after the other, at most 64.
pub fn cut_off(jobs: &[u8]) -> Cut
    ensures count_value { result.count ≡ count_of jobs.now }
    ensures end_value { result.end ≡ total length (records_of jobs.now) }
    ensures count_bound { result.count ≤ 64 }
{
    let mut end = 0;
    for count in 0..64 {
        let size = record_size(&jobs[end..]);
        if size == 0 {
            return Cut { count, end };
        }
        end += size;
    }
    Cut { count: 64, end }
}

// Where a record of a batch begins and ends. A `Range` would be no `Copy`.
#[derive(Clone, Copy)]
pub struct Span {
    pub start: usize,
    pub end: usize,
}

// Where record `i` stands, counted from 0.
pub fn record_at(jobs: &[u8], i: usize) -> Span
    requires { i < count_of jobs.now }
    ensures jobs_value { take (result.end - result.start) (drop result.start jobs.now) ≡ job_at jobs.now i }
    ensures start_le_end { result.start ≤ result.end }
    ensures end_in_bounds { result.end ≤ length jobs.now }
{
    let mut start = 0;
    for _k in 0..i {
        start += record_size(&jobs[start..]);
    }
    let end = start + record_size(&jobs[start..]);
    Span { start, end }
}
