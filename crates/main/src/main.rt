// The program: reads one job from standard input and prints a line, the cheapest circuit or the number of a refusal.
#![tactic(auto)]

use commands::program;

fn main(rt: HostRuntime) {
    program::answer(&rt, &mut rt.stdin());
}
