// Which two jobs may be compared: alike but for one price, and both with cost limit 65,535.
ghost use Rattle.std.specs.Prelude.{◌≡◌};
ghost use Rattle.record.specs.Answers.{code_of};
ghost use Rattle.sensitivity.specs.alike.Alike.{same_but, alike_but, one_price, comparable, compare_code};

use record::refusal::Refusal;
use record::{job_fields, refusal};

// Whether byte `i` is the same in both records, or is the one at `place`, which may differ.
#[tactic(auto, unfolding(crate::specs::alike::Alike::same_but))]
fn same_but(old: &[u8], new: &[u8], place: usize, i: usize) -> bool
    ensures { result ≡ same_but old.now new.now place i }
{
    i == place || logic::at(old, i) == logic::at(new, i)
}

// Whether two records of one length have the same bytes, except perhaps at `place`.
fn alike_but(old: &[u8], new: &[u8], place: usize) -> bool
    ensures { result ≡ alike_but old.now new.now place }
{
    (0..old.len()).all(|i| same_but(old, new, place, i))
}

// Whether two records of one length differ in one price at most. Prices are bytes 6 to 8, and in a longer job byte 9.
#[tactic(auto, using(crate::proofs::alike::Scan::three_or_four), unfolding(crate::specs::alike::Alike::one_price))]
fn one_price(old: &[u8], new: &[u8]) -> bool
    ensures { result ≡ one_price old.now new.now }
{
    (job_fields::longer(old) && alike_but(old, new, 9))
        || alike_but(old, new, 8)
        || alike_but(old, new, 7)
        || alike_but(old, new, 6)
}

#[tactic(auto, unfolding(crate::specs::alike::Alike::comparable))]
fn comparable(old: &[u8], new: &[u8]) -> bool
    ensures { result ≡ comparable old.now new.now }
{
    old.len() == new.len()
        && one_price(old, new)
        && 65535 <= job_fields::cost_limit(old)
        && 65535 <= job_fields::cost_limit(new)
}

// Checks two jobs that are to be compared: the old job, the new one, and then that they may be.
#[tactic(auto, using(record::proofs::Refusals::refusals), unfolding(crate::specs::alike::Alike::compare_code))]
pub fn check_compare(old: &[u8], new: &[u8]) -> Result<(), Refusal>
    ensures { code_of result ≡ compare_code old.now new.now }
{
    record::check_job(old)?;
    record::check_job(new)?;
    refusal::kept(comparable(old, new), Refusal::NotComparable)
}
