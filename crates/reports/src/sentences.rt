// The sentences of the refusal numbers of libraries, of rewriting, and of the other calls, in this order: a function that does not know a
// number asks the next one.
ghost use Rattle.std.specs.Prelude.{◌+◌, ◌≤◌, length};
ghost use Rattle.text.specs.pieces.Writing.{Wrote};
ghost use Rattle.reports.specs.sentences.Meanings.{other_meaning, listing_meaning, library_meaning};

use text::pieces::put_text;

// Writes the sentence of a number of searching, running, reading text, a batch or a comparison, and for a number that none of them has
// that no rule has it.
fn put_other_meaning(out: &mut [u8], i: usize, code: u8) -> usize
    requires { i + 64 ≤ length out.old }
    ensures { Wrote out.old i (other_meaning code) out.new result }
{
    match code {
        13 => put_text(out, i, b"the answer buffer has fewer than 15 bytes"),
        14 => put_text(out, i, b"no circuit within the limits realizes the table"),
        20 => put_text(out, i, b"the value does not fit the circuit's wires"),
        22 => put_text(out, i, b"the text departs from the form of a circuit"),
        23 => put_text(out, i, b"the text has more than 12 gates"),
        26 => put_text(
            out,
            i,
            b"the batch is not up to 64 whole records of 20 or 28 bytes",
        ),
        27 => put_text(out, i, b"the answers or the statuses have too few bytes"),
        38 => put_text(
            out,
            i,
            b"the jobs differ in more than one price, or limit the cost",
        ),
        _ => put_text(out, i, b"no rule has this number"),
    }
}

// Writes the sentence of a number of rewriting a list of gates, or of the last group.
fn put_listing_meaning(out: &mut [u8], i: usize, code: u8) -> usize
    requires { i + 64 ≤ length out.old }
    ensures { Wrote out.old i (listing_meaning code) out.new result }
{
    match code {
        32 => put_text(
            out,
            i,
            b"the wires are not 3 or 4, or the window is not 2 to 4 gates",
        ),
        33 => put_text(out, i, b"the list has more than 4,096 gates"),
        34 => put_text(
            out,
            i,
            b"a gate of the list is not lawful, or has three controls",
        ),
        _ => put_other_meaning(out, i, code),
    }
}

// Writes the sentence of a number of a library, or of a later group.
pub fn put_library_meaning(out: &mut [u8], i: usize, code: u8) -> usize
    requires { i + 64 ≤ length out.old }
    ensures { Wrote out.old i (library_meaning code) out.new result }
{
    match code {
        29 => put_text(
            out,
            i,
            b"the library is not up to 75 entries of three bytes each",
        ),
        30 => put_text(
            out,
            i,
            b"an entry's gate, duration or place in the order is not lawful",
        ),
        31 => put_text(out, i, b"the circuit has a gate that is not in the library"),
        _ => put_listing_meaning(out, i, code),
    }
}
