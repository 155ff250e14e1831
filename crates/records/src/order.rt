// Records judged in file order, whatever their rule.
ghost use Rattle.std.specs.Prelude.{ℕ, ◌+◌, ◌*◌, ◌<◌, ◌^◌};
ghost use Rattle.records.specs.Order.{NoneBefore, InOrder};

use rules::{Refusal, Rule};

// The first fault of n records, each so wide and the first at `base`.
pub(crate) fn in_order<F: Fn(usize) -> Result<(), Rule>>(
    n: usize,
    base: usize,
    width: usize,
    fault: F,
) -> Result<(), Refusal>
    requires { (i : ℕ) → i < n → NoneBefore (F.post fault) i → F.pre fault i × (base + i * width < 2 ^ 64) }
    ensures { InOrder (F.post fault) n base width result }
{
    for i in 0..n {
        if let Err(rule) = fault(i) {
            return Err(Refusal {
                rule,
                at: base + i * width,
            });
        }
    }
    Ok(())
}
