// Numbers, each with how many there are of it; one of which there is none has no entry.
ghost use Rattle.std.specs.Prelude.{◌≡◌, ◌<◌, ◌+◌, ◌^◌, ℕ, OnOk, OnErr};
ghost use Rattle.std.specs.Ordering.{nat_cmp};
ghost use Rattle.std.specs.BTreeMap.{get};
ghost use Rattle.vl_oracle.specs.Counts.{count_at, IsRecounted, IsLeastKey};

use std::alloc::AllocError;
use std::collections::BTreeMap;

pub type Numbers = BTreeMap<u64, u32>;

/// One more of a number.
pub fn add(numbers: &mut Numbers, number: u64) -> Result<(), AllocError>
    requires { count_at (get nat_cmp numbers.old) number + 1 < 2 ^ 32 }
    ensures ok { OnOk result (let old = get nat_cmp numbers.old in
        IsRecounted (count_at old number + 1) number old (get nat_cmp numbers.new)) }
    ensures err { OnErr result ((n : ℕ) → get nat_cmp numbers.new n ≡ get nat_cmp numbers.old n) }
{
    let count = numbers.get(&number).copied().unwrap_or(0);
    numbers.insert(number, count + 1)?;
    Ok(())
}

/// One less of a number of which there is one.
pub fn remove(numbers: &mut Numbers, number: u64)
    ensures { (count : ℕ) → get nat_cmp numbers.old number ≡ Some (count + 1)
        → IsRecounted count number (get nat_cmp numbers.old) (get nat_cmp numbers.new) }
{
    let count = numbers.get(&number).copied().unwrap_or(0);
    if count > 1 {
        let _ = numbers.insert(number, count - 1);
    } else {
        numbers.remove(&number);
    }
}

/// The least of the numbers.
pub fn least(numbers: &Numbers) -> Option<u64>
    ensures { IsLeastKey (get nat_cmp numbers.now) result }
{
    let (number, _) = numbers.first_key_value()?;
    Some(*number)
}
