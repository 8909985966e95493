// All that `main` does: it reads a job, searches for its circuit and prints a line. It stands here and not in `main`, so that a test
// program can run it on files.
ghost use Rattle.std.specs.Prelude.{◌≡◌, ◌≤◌, length};
ghost use Rattle.text.specs.pieces.Text.{in_front};
ghost use Rattle.printed.specs.job_line.Lines.{line_of};

use console::{input, output};
use printed::files;
use std::io::Read;

// Searches for a job's circuit and writes the line to the start of `out`; returns the line's length.
pub fn line(job: &[u8], out: &mut [u8]) -> usize
    requires { 64 ≤ length out.old }
    ensures value { result ≡ length (line_of job.now) }
    ensures upper_bound { result ≤ 64 }
    ensures out_after { out.new ≡ in_front (line_of job.now) out.old }
{
    let mut answer = [0u8; 15];
    match search::search(job, &mut answer) {
        Err(e) => text::refused_line(u8::from(e), out),
        Ok(found) => text::found_line(found.measures, &answer[..found.size], out),
    }
}

// Reads one job from what is open, standard input in `main`, and prints its line.
pub fn answer(rt: &impl Print, reader: &mut impl Read) {
    let mut job = io::buffer();
    let n = input::read_full(reader, &mut job[..files::job_room()]);
    let mut out = [0u8; 64];
    let size = line(&job[..n], &mut out);
    output::say(rt, &out[..size]);
}
