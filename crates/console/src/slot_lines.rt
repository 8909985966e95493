// The answer of a search as lines: those that `main` prints, and the ready times of what was found.
ghost use Rattle.std.specs.Prelude.{◌≤◌, length};

use crate::output;
use circuit::measures::Measures;
use outcomes::Reported;

// Says the line of a refusal.
pub fn say_refused(rt: &impl Print, code: u8) {
    let mut out = [0u8; 64];
    let n = text::refused_line(code, &mut out);
    output::say(rt, &out[..n.min(64)]);
}

// Says the line of a circuit that was found.
pub fn say_found(rt: &impl Print, m: Measures, bytes: &[u8])
    requires { length bytes.now ≤ 15 }
{
    let mut out = [0u8; 64];
    let n = text::found_line(m, bytes, &mut out);
    output::say(rt, &out[..n.min(64)]);
}

// Says the line of a search's answer, whose record stands at the start of `answer`. A refusal is given by its number; any number is said.
pub fn say_answer(rt: &impl Print, told: Result<Reported, u8>, answer: &[u8]) {
    match told {
        Err(code) => say_refused(rt, code),
        Ok(found) => {
            let size = found.size.min(answer.len()).min(15);
            say_found(rt, found.measures, &answer[..size]);
        }
    }
}

// Says `ready` and when each of five wires comes free, without a line feed.
pub fn say_ready(rt: &impl Print, m: Measures) {
    let _ = print!(rt;
        "ready {} {} {} {} {}",
        m.ready0, m.ready1, m.ready2, m.ready3, m.ready4
    );
}
