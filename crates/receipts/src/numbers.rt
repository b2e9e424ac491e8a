//! Whether the numbers of jobs ascend.

ghost use Rattle.std.specs.Prelude.{◌↔◌, IsTrue, map};
ghost use Rattle.std.specs.List.Sorted.{IsStrictlyIncreasing};
ghost use Rattle.receipts.specs.Numbers.{AreApart};

use crate::job::Job;

/// Whether the jobs' numbers are strictly ascending, so that none occurs twice.
pub fn numbers_rise(jobs: &[Job]) -> bool
    ensures rising { IsTrue result ↔ IsStrictlyIncreasing (map (λ j. j.number) jobs.now) }
    ensures apart { IsTrue result → AreApart (map (λ j. j.number) jobs.now) }
{
    for next in 1..jobs.len() {
        let before = &jobs[next - 1];
        let after = &jobs[next];
        if before.number.get() >= after.number.get() {
            return false;
        }
    }
    true
}
