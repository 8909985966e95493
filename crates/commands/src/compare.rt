// `gazbolk compare`: two jobs that are alike but for one price.
ghost use Rattle.std.specs.Prelude.{◌≡◌, ◌≤◌, length};
ghost use Rattle.outcomes.specs.Outcomes.{search_of};
ghost use Rattle.text.specs.pieces.Text.{in_front};
ghost use Rattle.printed.specs.differences.Compare.{compare_text};
ghost use Rattle.printed.specs.differences.Inner.{after_old, both_text};

use circuit::measures::Measures;
use printed::differences;
use reports::refusal;
use sensitivity::alike;

// Searches for the new job's circuit, after the old job's was found, and writes what is printed for both.
fn put_after(m: Measures, circuit: &[u8], new: &[u8], out: &mut [u8]) -> usize
    requires circuit_len_bound { length circuit.now ≤ 15 }
    requires in_bounds { 256 ≤ length out.old }
    ensures value { result ≡ length (after_old m circuit.now (search_of new.now 15)) }
    ensures upper_bound { result ≤ 256 }
    ensures out_after { out.new ≡ in_front (after_old m circuit.now (search_of new.now 15)) out.old }
{
    let mut answer = [0u8; 15];
    match search::search(new, &mut answer) {
        Err(e) => refusal::refused_text(u8::from(e), out),
        Ok(found) => differences::put_both(m, circuit, found.measures, &answer[..found.size], out),
    }
}

// Searches for both jobs' circuits, each once, and writes what is printed.
fn put_searched(old: &[u8], new: &[u8], out: &mut [u8]) -> usize
    requires { 256 ≤ length out.old }
    ensures value { result ≡ length (both_text (search_of old.now 15) (search_of new.now 15)) }
    ensures upper_bound { result ≤ 256 }
    ensures out_after { out.new
        ≡ in_front (both_text (search_of old.now 15) (search_of new.now 15)) out.old }
{
    let mut answer = [0u8; 15];
    match search::search(old, &mut answer) {
        Err(e) => refusal::refused_text(u8::from(e), out),
        Ok(found) => put_after(found.measures, &answer[..found.size], new, out),
    }
}

// Compares two jobs and writes what is printed to the start of `out`; returns its length.
pub fn compare_text(old: &[u8], new: &[u8], out: &mut [u8]) -> usize
    requires { 256 ≤ length out.old }
    ensures value { result ≡ length (compare_text old.now new.now) }
    ensures upper_bound { result ≤ 256 }
    ensures out_after { out.new ≡ in_front (compare_text old.now new.now) out.old }
{
    match alike::check_compare(old, new) {
        Err(e) => refusal::refused_text(u8::from(e), out),
        Ok(()) => put_searched(old, new, out),
    }
}
