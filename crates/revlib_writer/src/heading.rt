// The heading of a `.real` text, measured and written into a caller's buffer.
ghost use Rattle.std.specs.Prelude.{◌≡◌, ◌≤◌, length};
ghost use Rattle.table.specs.layouts.Layouts.{Width};
ghost use Rattle.text.specs.pieces.Writing.{Wrote};
ghost use Rattle.revlib_writer.specs.heading.Heading.{heading_for};

use text::pieces;

// The heading for three or four data wires, without an ancilla or with one.
fn heading_text(n: usize, m: usize) -> &'static [u8]
    requires { Width n × (m ≤ 1) }
    ensures value { result.now ≡ heading_for n m }
    ensures upper_bound { length result.now ≤ 80 }
{
    match (n, m) {
        (3, 0) => b".version 2.0\n.numvars 3\n.variables a b c\n.begin\n",
        (3, _) => b".version 2.0\n.numvars 4\n.variables a b c d\n.constants ---0\n.begin\n",
        (_, 0) => b".version 2.0\n.numvars 4\n.variables a b c d\n.begin\n",
        (_, _) => b".version 2.0\n.numvars 5\n.variables a b c d e\n.constants ----0\n.begin\n",
    }
}

// The length of the heading for `n` data wires and `m` ancillas.
pub fn heading_size(n: usize, m: usize) -> usize
    requires { Width n × (m ≤ 1) }
    ensures value { result ≡ length (heading_for n m) }
    ensures upper_bound { result ≤ 80 }
{
    heading_text(n, m).len()
}

// Writes the heading for `n` data wires and `m` ancillas from byte 0, and returns the next index.
pub fn put_heading(out: &mut [u8], n: usize, m: usize) -> usize
    requires width { Width n × (m ≤ 1) }
    requires m_in_bounds { length (heading_for n m) ≤ length out.old }
    ensures { Wrote out.old 0 (heading_for n m) out.new result }
{
    pieces::put_text(out, 0, heading_text(n, m))
}
