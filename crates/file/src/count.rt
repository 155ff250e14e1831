// A section's count, judged.
ghost use Rattle.std.specs.Prelude.{ℕ, ◌≡◌};
ghost use Rattle.rules.specs.Names.{most_pots};
ghost use Rattle.rules.specs.File.{pots_told};
ghost use Rattle.rules.specs.Reading.{fault_in};
ghost use Rattle.rules.specs.Refusals.{plain, count_fault};
ghost use Rattle.file.specs.Reads.{range_fault};

use rules::Rule;

// What is wrong with so many records, where they are to be from `low` to `high`.
fn range_fault(n: u64, low: u64, high: u64) -> Result<(), Rule>
    ensures { fault_in result ≡ range_fault n low high }
{
    if n < low || high < n {
        return Err(Rule::CountOutside);
    }
    Ok(())
}

// What is wrong with the count at `at`, which is to tell of `low` to `high` records.
fn judged<F: Fn(u64) -> u64>(
    file: &[u8],
    at: usize,
    low: u64,
    high: u64,
    told: F,
) -> Result<(), Rule>
    requires { F.IsAlwaysCallable told }
    ensures { (f : ℕ → ℕ) → ((n r : ℕ) → F.post told n r → r ≡ f n) → fault_in result ≡ count_fault f file.now at low high }
{
    if reader::left(file, at) < names::COUNT_WIDTH {
        return Err(Rule::EndsEarly);
    }
    range_fault(told(reader::count_at(file, at)), low, high)
}

// What is wrong with the count at `at`, which is to be from `low` to `high`.
pub fn count_fault(file: &[u8], at: usize, low: u64, high: u64) -> Result<(), Rule>
    ensures { fault_in result ≡ count_fault plain file.now at low high }
{
    judged(file, at, low, high, |n| n)
}

// What is wrong with the count of pots at `at`, which may tell of caps and drawn numbers as well.
pub fn pots_count_fault(file: &[u8], at: usize) -> Result<(), Rule>
    ensures { fault_in result ≡ count_fault pots_told file.now at 1 most_pots }
{
    judged(file, at, 1, names::MOST_POTS, layout::pot::pots_told)
}
