// `gazbolk closest`: the circuit within a job's limits that misses the fewest wanted bits.
ghost use Rattle.std.specs.Prelude.{◌≡◌, ◌≤◌, length};
ghost use Rattle.text.specs.pieces.Text.{in_front};
ghost use Rattle.printed.specs.misses.Closeness.{closest_text};

use printed::misses;
use reports::refusal;

// Searches for the closest circuit of a job and writes what is printed to the start of `out`; returns its length.
pub fn closest_text(job: &[u8], out: &mut [u8]) -> usize
    requires { 128 ≤ length out.old }
    ensures value { result ≡ length (closest_text job.now) }
    ensures upper_bound { result ≤ 128 }
    ensures out_after { out.new ≡ in_front (closest_text job.now) out.old }
{
    let mut answer = [0u8; 15];
    match approximate::closest(job, &mut answer) {
        Err(e) => refusal::refused_text(u8::from(e), out),
        Ok(nearest) => {
            let found = nearest.report;
            misses::put_close(nearest.misses, found.measures, &answer[..found.size], out)
        }
    }
}
