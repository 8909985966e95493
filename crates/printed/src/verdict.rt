// The code of `gazbolk verify`: a job, a circuit, which is a record or RevLib text, and perhaps a library, to the verdict that is printed.
ghost use Rattle.std.specs.Prelude.{◌≡◌, ◌≤◌, length};
ghost use Rattle.record.specs.Answers.{reply};
ghost use Rattle.text.specs.pieces.Text.{in_front};
ghost use Rattle.revlib.specs.Reading.{read_of};
ghost use Rattle.printed.specs.files.Files.{is_text, lent, verdict, verdict_on, verify_file, verify_text};

use circuit::measures::Measures;
use library::calls;
use record::refusal::Refusal;
use reports::pass;
use revlib_reader::keywords;

// Whether a file is RevLib text.
#[tactic(auto, unfolding(crate::specs::files::Files::is_text))]
fn is_text(file: &[u8]) -> bool
    ensures { result ≡ is_text file.now }
{
    keywords::starts(file, b".version")
}

// Verifies a circuit record for a job, with the library if one is lent.
#[tactic(auto, unfolding(crate::specs::files::Files::verdict))]
fn verdict(job: &[u8], library: Option<&[u8]>, circuit: &[u8]) -> Result<Measures, Refusal>
    ensures { reply result ≡ verdict job.now (lent library.entry) circuit.now }
{
    match library {
        Some(library) => calls::verify_with(job, library, circuit),
        None => verify::verify(job, circuit),
    }
}

// Verifies the circuit that a RevLib text describes for a job.
fn verify_real(job: &[u8], library: Option<&[u8]>, text: &[u8]) -> Result<Measures, Refusal>
    ensures { reply result
        ≡ verdict_on job.now (lent library.entry) (read_of text.now 15) }
{
    let mut answer = [0u8; 15];
    let size = revlib_reader::read(text, &mut answer)?;
    verdict(job, library, &answer[..size])
}

// Verifies the circuit of a file for a job: the number of the first rule broken, or the circuit's measures.
#[tactic(auto, unfolding(crate::specs::files::Files::verify_file, crate::specs::files::Files::circuit_in))]
pub fn verify_file(job: &[u8], library: Option<&[u8]>, file: &[u8]) -> Result<Measures, Refusal>
    ensures { reply result ≡ verify_file job.now (lent library.entry) file.now }
{
    if is_text(file) {
        verify_real(job, library, file)
    } else {
        verdict(job, library, file)
    }
}

// Verifies the circuit of a file for a job and writes what is printed to the start of `out`; returns its length.
#[tactic(auto, unfolding(crate::specs::files::Files::verify_text))]
pub fn verify_text(job: &[u8], library: Option<&[u8]>, file: &[u8], out: &mut [u8]) -> usize
    requires { 128 ≤ length out.old }
    ensures value { result ≡ length (verify_text job.now (lent library.entry) file.now) }
    ensures upper_bound { result ≤ 128 }
    ensures out_after { out.new
        ≡ in_front (verify_text job.now (lent library.entry) file.now) out.old }
{
    pass::report(verify_file(job, library, file).map_err(u8::from), out)
}
