// The words after a program's name: where a command ends, whether it has the words that it takes, and the files that words name; and the
// program's usage.
ghost use Rattle.std.specs.Prelude.{◌≡◌, ◌↔◌, ◌<◌, ◌≤◌, min, length, Some};
ghost use Rattle.logic.specs.Words.{bytes};
ghost use Rattle.gazbolk.specs.arguments.Words.{Asked};
ghost use Rattle.gazbolk.specs.declared.arguments.Command.TheVariants.{Verify, Search, Batch, Compare, Closest, Rewrite};

use console::output::say;
use console::{input, output};
use std::io::Read;
use std::rt::{Env, Files};

// The number of words, at most a million: nobody writes more, and no sum of places can then overflow.
pub fn few(count: usize) -> usize
    ensures { result ≡ min count 1000000 }
{
    count.min(1_000_000)
}

// The place of the next `then` after `at`, or the number of words.
pub fn command_end(rt: &impl Env, at: usize, count: usize) -> usize
    requires { (at ≤ count) × (count ≤ 1000000) }
    ensures { ((at ≤ result) × (result ≤ count)) × (at < count → at < result) }
{
    (at + 1..count).find(|&i| is_then(rt, i)).unwrap_or(count)
}

fn is_then(rt: &impl Env, i: usize) -> bool {
    let mut word = io::buffer();
    let n = input::word(rt, i, &mut word);
    &word[..n] == b"then".as_slice()
}

// What the program can be asked to do.
#[derive(Clone, Copy)]
pub enum Command {
    Verify,
    Search,
    Batch,
    Compare,
    Closest,
    Rewrite,
}

// The command of this name, if it has as many words as it takes. The count includes the word before the name; two commands may name a
// library last.
pub fn asked(word: &[u8], words: usize) -> Option<Command>
    ensures verify_asked { (result ≡ Some Verify) ↔ Asked word.now (bytes "verify") words 4 5 }
    ensures search_asked { (result ≡ Some Search) ↔ Asked word.now (bytes "search") words 3 4 }
    ensures batch_asked { (result ≡ Some Batch) ↔ Asked word.now (bytes "batch") words 3 3 }
    ensures compare_asked { (result ≡ Some Compare) ↔ Asked word.now (bytes "compare") words 4 4 }
    ensures closest_asked { (result ≡ Some Closest) ↔ Asked word.now (bytes "closest") words 3 3 }
    ensures rewrite_asked { (result ≡ Some Rewrite) ↔ Asked word.now (bytes "rewrite") words 3 3 }
{
    match (word, words) {
        (b"verify", 4..=5) => Some(Command::Verify),
        (b"search", 3..=4) => Some(Command::Search),
        (b"batch", 3) => Some(Command::Batch),
        (b"compare", 4) => Some(Command::Compare),
        (b"closest", 3) => Some(Command::Closest),
        (b"rewrite", 3) => Some(Command::Rewrite),
        _ => None,
    }
}

// Prints how the program is called.
pub fn usage(rt: &impl Print) {
    say(rt, b"usage: gazbolk COMMAND WORDS [then COMMAND WORDS]..\n");
    explain_search(rt);
    explain_verify(rt);
    explain_batch(rt);
    explain_compare(rt);
    explain_closest(rt);
    explain_rewrite(rt);
    say(
        rt,
        b"\nA file that cannot be read gets the line `unreadable NAME`.\n",
    );
}

fn explain_search(rt: &impl Print) {
    say(rt, b"\nsearch JOB [LIBRARY]\n");
    say(
        rt,
        b"    Searches for the cheapest circuit of a job. JOB names the file of a job record,\n",
    );
    say(
        rt,
        b"    LIBRARY that of a gate library: three bytes for each gate, the gate, its price\n",
    );
    say(rt, b"    and its duration, in place of the job's own.\n");
    say(
        rt,
        b"    Prints `found GATES COST DEPTH RECORD`, or `refused NUMBER` and what it means.\n",
    );
}

fn explain_verify(rt: &impl Print) {
    say(rt, b"\nverify JOB CIRCUIT [LIBRARY]\n");
    say(
        rt,
        b"    Judges a circuit for a job. CIRCUIT names the file of a circuit record, or of\n",
    );
    say(rt, b"    RevLib text, which begins with .version.\n");
    say(
        rt,
        b"    Prints `passed GATES COST DEPTH` and, on a second line, `ready` and the time at\n",
    );
    say(
        rt,
        b"    which each of five wires comes free; or `refused NUMBER` and what it means.\n",
    );
}

fn explain_batch(rt: &impl Print) {
    say(rt, b"\nbatch FILE\n");
    say(
        rt,
        b"    Searches for the cheapest circuit of each job of a batch. FILE names a file of up\n",
    );
    say(
        rt,
        b"    to 64 job records of 20 or 28 bytes, back to back.\n",
    );
    say(
        rt,
        b"    Prints for each job, in order and as soon as it is known, `found GATES COST\n",
    );
    say(rt, b"    DEPTH RECORD` or `refused NUMBER`.\n");
}

fn explain_compare(rt: &impl Print) {
    say(rt, b"\ncompare OLD NEW\n");
    say(
        rt,
        b"    Compares two jobs that are alike but for one price. OLD and NEW name the files of\n",
    );
    say(rt, b"    two job records with no limit on cost.\n");
    say(
        rt,
        b"    Prints `by DIFFERENCE`, the new least cost less the old, and both jobs' lines; or\n",
    );
    say(rt, b"    `refused NUMBER` and what it means.\n");
}

fn explain_closest(rt: &impl Print) {
    say(rt, b"\nclosest JOB\n");
    say(
        rt,
        b"    Searches within a job's limits for the circuit that misses the fewest wanted bits\n",
    );
    say(
        rt,
        b"    of the table: none of them, where `search` finds a circuit.\n",
    );
    say(
        rt,
        b"    Prints `misses NUMBER`, and the circuit's line as `search` does; or `refused\n",
    );
    say(rt, b"    NUMBER` and what it means.\n");
}

fn explain_rewrite(rt: &impl Print) {
    say(rt, b"\nrewrite FILE\n");
    say(
        rt,
        b"    Makes a list of gates cheaper, a few gates at a time. FILE names a file of five\n",
    );
    say(
        rt,
        b"    bytes, the wires, the window and the prices of a NOT, a CNOT and a Toffoli, and\n",
    );
    say(rt, b"    then up to 4,096 gates.\n");
    say(
        rt,
        b"    Prints `before GATES COST`, `after GATES COST` and the new list; or `refused\n",
    );
    say(rt, b"    NUMBER` and what it means.\n");
}

// Opens the file that word `i` names; where it cannot be read, says so and answers `None`.
pub fn open<R: Env + Files + Print>(rt: &R, i: usize) -> Option<R::File> {
    let mut name = io::buffer();
    let n = input::word(rt, i, &mut name);
    let file = input::open(rt, &name[..n]).and_then(readable);
    if file.is_none() {
        output::say_unreadable(rt, &name[..n]);
    }
    file
}

// Opens the file that word `i` names, if one is named, and else answers `Some(None)`, for a file that is not read.
pub fn open_named<R: Env + Files + Print>(
    rt: &R,
    named: bool,
    i: usize,
) -> Option<Option<R::File>> {
    if named {
        open(rt, i).map(Some)
    } else {
        Some(None)
    }
}

// An open file, if it can be read. A folder can be opened, but a read of it fails even for no bytes.
fn readable<F: Read + Drop>(mut file: F) -> Option<F> {
    file.read(&mut []).ok()?;
    Some(file)
}

// Reads the first bytes of a file, at most `room`, into a buffer, and answers the part that they fill.
pub fn read_part<F: Read + Drop>(mut file: F, room: usize, buffer: &mut [u8]) -> &[u8]
    requires { room ≤ length buffer.old }
    ensures { length result.now ≤ room }
{
    let n = input::read_full(&mut file, &mut buffer[..room]);
    &buffer[..n]
}
