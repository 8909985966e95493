// The entries of a library, three bytes each (gate, price, duration), and the checks of a library.
ghost use Rattle.std.specs.Prelude.{◌≡◌, true, ◌<◌, ◌+◌, ◌*◌, ◌/◌, length};
ghost use Rattle.record.specs.Answers.{code_of};
ghost use Rattle.library.specs.entries.Library.{entries_of, library_size_ok, entry_ok, entries_ok, library_sound, library_code};
ghost use Rattle.library.specs.entries.Inner.{entry_at};

use problem::Entry;
use record::refusal::Refusal;
use record::{job_fields, refusal};

// Entry `i`, counted from 0.
#[tactic(auto, unfolding(crate::specs::entries::Inner::entry_at))]
pub fn entry_at(library: &[u8], i: usize) -> Entry
    requires { i < length library.now / 3 }
    ensures { result ≡ entry_at library.now i }
{
    Entry {
        gate: library[3 * i],
        price: library[3 * i + 1],
        duration: library[3 * i + 2],
    }
}

// Whether the bytes are whole entries, at most 75.
#[tactic(auto, unfolding(crate::specs::entries::Library::library_size_ok))]
fn library_size_ok(library: &[u8]) -> bool
    ensures { result ≡ library_size_ok library.now }
{
    library.len() <= 225 && library.len() % 3 == 0
}

// Whether an entry is a gate of at most `k` controls on `w` wires that takes time, with a gate byte of `least` or more.
#[tactic(auto, unfolding(crate::specs::entries::Library::entry_ok))]
fn entry_ok(k: u32, w: usize, least: usize, e: Entry) -> bool
    requires { w < 64 }
    ensures { result ≡ entry_ok k w least e }
{
    gate::lawful(k, w, e.gate) && 1 <= e.duration && least <= usize::from(e.gate)
}

// Whether every entry is a lawful gate that takes time. Gate bytes must rise, so that no gate is listed twice.
fn entries_ok(k: u32, w: usize, library: &[u8]) -> bool
    requires { w < 64 }
    ensures { result ≡ entries_ok k w 0 (entries_of library.now) }
{
    let mut least = 0;
    for i in 0..library.len() / 3 {
        let e = entry_at(library, i);
        if !entry_ok(k, w, least, e) {
            return false;
        }
        least = usize::from(e.gate) + 1;
    }
    true
}

// Whether every entry is sound for the controls and wires that the job allows.
fn library_sound(job: &[u8], library: &[u8]) -> bool
    ensures { result ≡ library_sound job.now library.now }
{
    entries_ok(
        job_fields::most_controls(job) as u32,
        job_fields::wires(job),
        library,
    )
}

// Checks a library: its length, then its entries.
#[tactic(auto, unfolding(crate::specs::entries::Library::library_code))]
pub fn check_library(job: &[u8], library: &[u8]) -> Result<(), Refusal>
    ensures { code_of result ≡ library_code job.now library.now }
{
    refusal::kept(library_size_ok(library), Refusal::LibraryLength)?;
    refusal::kept(library_sound(job, library), Refusal::LibraryEntry)
}
