//! The values of options and positional words.

ghost use Rattle.std.specs.Prelude.{◌≡◌, ◌<◌, ◌^◌, ℕ, List, IfSome, IfNone, decimal, option_map};
ghost use Rattle.drg_array.specs.declared.test.Test.{Test};
ghost use Rattle.drg_words.specs.Commands.{AreTests, IsBudget, IsNumber};

use drg_array::TestSet;
use itoa::Buffer;

/// The budget where no option gives one.
const DEFAULT_BUDGET: u32 = 10_000;

/// The largest budget.
const MAX_BUDGET: u32 = 100_000;

/// The tests of this list, and all built tests where there is none.
pub(crate) fn tests_of(list: Option<&str>) -> Option<TestSet>
    ensures some { IfSome result (AreTests (option_map (λ text. text.now) list.entry)) }
    ensures none { IfNone result ((tests : List Test) →
        AreTests (option_map (λ text. text.now) list.entry) tests → ⊥) }
{
    match list {
        Some(list) => TestSet::read(list),
        None => Some(TestSet::all()),
    }
}

/// The budget of these digits, and the default where there are none.
pub(crate) fn budget_of(digits: Option<&str>) -> Option<u32>
    ensures some { IfSome result (IsBudget (option_map (λ text. text.now) digits.entry)) }
    ensures none { IfNone result ((n : ℕ) →
        IsBudget (option_map (λ text. text.now) digits.entry) n → ⊥) }
{
    match digits {
        Some(digits) => number_between(digits, 1, MAX_BUDGET),
        None => Some(DEFAULT_BUDGET),
    }
}

/// The number from `least` to `most` whose decimal digits these are, without a sign and without a
/// leading zero.
pub(crate) fn number_between(digits: &str, least: u32, most: u32) -> Option<u32>
    ensures some { IfSome result (IsNumber least most digits.now) }
    ensures none { IfNone result ((n : ℕ) → IsNumber least most digits.now n → ⊥) }
{
    let number = number_of(digits)?;
    if number < least {
        return None;
    }
    if number <= most { Some(number) } else { None }
}

/// The number whose decimal digits these are, where it has 32 bits.
fn number_of(digits: &str) -> Option<u32>
    ensures some { IfSome result (λ n. digits.now ≡ decimal n) }
    ensures none { IfNone result ((n : ℕ) → n < 2 ^ 32 → digits.now ≡ decimal n → ⊥) }
{
    let number = digits.parse::<u32>().ok()?;
    if Buffer::new().format(number) == digits {
        Some(number)
    } else {
        None
    }
}
