// The letters of a gate line: the wires that they name, whether they are in order, and the gate byte that they make. The declared letters
// are a slice with a bound in `requires`: a type of at most five letters would ask more of callers.
ghost use Rattle.std.specs.Prelude.{◌≡◌, ◌^◌, ◌≤◌, length};
ghost use Rattle.logic.specs.Lists.{all_of};
ghost use Rattle.revlib.specs.Grammar.{is_in, different, declared, line_ok, wire_of, gate_byte};

// Whether a letter is in a list: the library's test, with a clause in the words of the theorems on reading.
pub fn is_in(x: u8, list: &[u8]) -> bool
    ensures { result ≡ is_in x list.now }
{
    list.contains(&x)
}

// Whether no letter stands twice.
#[tactic(auto, using(crate::proofs::gate_words::Letters::different_done))]
pub fn different(list: &[u8]) -> bool
    ensures { result ≡ different list.now }
{
    for (i, &x) in list.iter().enumerate() {
        if is_in(x, &list[i + 1..]) {
            return false;
        }
    }
    true
}

// The wire of a letter: its index among the declared ones, or their number where it is not declared.
fn wire_of(letters: &[u8], x: u8) -> usize
    ensures value { result ≡ wire_of letters.now x }
    ensures upper_bound { result ≤ length letters.now }
{
    letters
        .iter()
        .position(|&y| y == x)
        .unwrap_or(letters.len())
}

// Whether every letter of a line is declared.
fn all_declared(letters: &[u8], line: &[u8]) -> bool
    ensures { result ≡ all_of (declared letters.now) line.now }
{
    line.iter().all(|&x| is_in(x, letters))
}

// Whether a line has one to three letters, all different and declared.
#[tactic(auto, unfolding(revlib::specs::Grammar::line_ok))]
pub fn line_ok(letters: &[u8], line: &[u8]) -> bool
    ensures { result ≡ line_ok letters.now line.now }
{
    (1..=3).contains(&line.len()) && different(line) && all_declared(letters, line)
}

// The bit of a control in the mask of a gate byte.
fn control(letters: &[u8], x: u8) -> usize
    requires { length letters.now ≤ 5 }
    ensures value { result ≡ 2 ^ wire_of letters.now x }
    ensures upper_bound { result ≤ 32 }
{
    1 << wire_of(letters, x)
}

// The gate byte of a line's letters, of which the last is the target.
pub fn gate_byte(letters: &[u8], line: &[u8]) -> u8
    requires letters_len_bound { length letters.now ≤ 5 }
    requires in_bounds { (1 ≤ length line.now) × (length line.now ≤ 3) }
    ensures { result ≡ gate_byte letters.now line.now }
{
    let [controls @ .., target] = line else {
        return 0;
    };
    let mut byte = 32 * wire_of(letters, *target);
    for &x in controls {
        byte += control(letters, x);
    }
    byte as u8
}
