// How many bytes of each file decide what `main` and `gazbolk` print of it.
ghost use Rattle.std.specs.Prelude.{◌≡◌, suc, ◌≤◌};
ghost use Rattle.record.specs.JobRules.{longest_job};
ghost use Rattle.printed.specs.job_line.Lines.{Telling};
ghost use Rattle.printed.specs.files.Files.{TellingJob, TellingCircuit, TellingLibrary};
ghost use Rattle.printed.specs.misses.Closeness.{TellingClosest};
ghost use Rattle.printed.specs.differences.Compare.{TellingPair};

// How many bytes of a job decide whatever is printed of it: one more than the longest job has.
pub fn job_room() -> usize
    ensures value { result ≡ suc longest_job }
    ensures telling { Telling result }
    ensures telling_job { TellingJob result }
    ensures telling_closest { TellingClosest result }
    ensures telling_pair { TellingPair result }
    ensures upper_bound { result ≤ 4096 }
{
    31
}

// How many bytes of a circuit's file decide it: one more than the longest text has.
pub fn circuit_room() -> usize
    ensures telling_circuit { TellingCircuit result }
    ensures upper_bound { result ≤ 65536 }
{
    4097
}

// How many bytes of a library decide it: one more than the longest library has.
pub fn library_room() -> usize
    ensures telling_library { TellingLibrary result }
    ensures upper_bound { result ≤ 4096 }
{
    226
}
