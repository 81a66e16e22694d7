//! The sizes and the number of vertices.

ghost use Rattle.std.specs.Prelude.{◌≡◌, ◌≤◌, ◌<◌, suc, pos, ◌*ℤ◌, ◌≤ℤ◌, [], length, Some, IfOk, IfErr, OnOk, IfSome};
ghost use Rattle.drg_algebra.specs.Rational.{whole};
ghost use Rattle.drg_array.specs.Entries.{IsArray, b_at, diameter};
ghost use Rattle.drg_array.specs.Numbers.{vertex_count};
ghost use Rattle.drg_array.specs.declared.node.Node.TheVariants.{K, N};
ghost use Rattle.drg_whole.specs.Range.{Gives, in_range};
ghost use Rattle.drg_whole.specs.Whole.{value_of};
ghost use Rattle.drg_intersection.specs.Faults.{IsReached, IsNumbersFault, Passes, failing_node};
ghost use Rattle.drg_intersection.specs.FirstNumbers.{AreSizes, IsSizeAt};
ghost use Rattle.drg_intersection.specs.Table.{AreInRange};

use crate::fault::NumbersFault;
use crate::terms::{divisor, index};
use drg_array::{Array, Claim, Node};
use drg_whole::{Whole, Wide};

/// The product `k_i b_i`, where k_i is `last`.
fn dividend(array: &Array, i: usize, last: Whole) -> Result<Whole, Wide>
    requires { i ≤ diameter array.now }
    ensures { Gives value_of result
        (in_range (last.value *ℤ pos (b_at array.now i))) (last.value *ℤ pos (b_at array.now i)) }
{
    last.times(Whole::new(i128::from(array.b(i))))
}

/// The size k_(i+1), after k_i, which is `last`.
fn next_size(array: &Array, i: usize, last: Whole) -> Result<Whole, NumbersFault>
    requires array { IsArray array.now }
    requires inside { i < diameter array.now }
    requires last { IsSizeAt array.now i last.value }
    requires reached { IsReached array.now (K (suc i)) }
    ensures size { IfOk result (λ k. IsSizeAt array.now (suc i) k.value) }
    ensures passes { IfOk result (λ k. Passes array.now (K (suc i))) }
    ensures fault { IfErr result (IsNumbersFault array.now) }
    ensures node { IfErr result (λ fault. failing_node fault ≡ Some (K (suc i))) }
{
    let i_next = index(array, i + 1);
    let Ok(dividend) = dividend(array, i, last) else {
        return Err(NumbersFault::Wide {
            node: Node::K { i: i_next },
        });
    };
    match dividend.whole_quotient(divisor(array, i)) {
        Some(size) => Ok(size),
        None => Err(NumbersFault::Fall {
            claim: Claim::Size { i: i_next },
        }),
    }
}

/// The size k_i, after all sizes before it.
fn size_after(array: &Array, sizes: &[i128], i: usize) -> Result<Whole, NumbersFault>
    requires array { IsArray array.now }
    requires inside { i ≤ diameter array.now }
    requires length { length sizes.now ≡ i }
    requires sizes { AreSizes array.now sizes.now }
    requires in_range { AreInRange sizes.now }
    requires reached { IsReached array.now (K i) }
    ensures size { IfOk result (λ k. IsSizeAt array.now i k.value) }
    ensures passes { IfOk result (λ k. Passes array.now (K i)) }
    ensures fault { IfErr result (IsNumbersFault array.now) }
    ensures node { IfErr result (λ fault. failing_node fault ≡ Some (K i)) }
{
    if i == 0 {
        return Ok(Whole::new(1));
    }
    next_size(array, i - 1, Whole::new(sizes[i - 1]))
}

/// Appends the sizes k_0 to k_d to no number. After an error those before the fault are appended.
pub fn fill_sizes(array: &Array, sizes: &mut Vec<i128>) -> Result<(), NumbersFault>
    requires array { IsArray array.now }
    requires empty { sizes.old.items ≡ [] }
    ensures sizes { AreSizes array.now sizes.new.items }
    ensures in_range { AreInRange sizes.new.items }
    ensures all { OnOk result (length sizes.new.items ≡ suc (diameter array.now)) }
    ensures reached { OnOk result (IsReached array.now N) }
    ensures fault { IfErr result (IsNumbersFault array.now) }
    ensures end { IfErr result (λ fault.
        IfSome (failing_node fault) (λ node. node ≡ K (length sizes.new.items))) }
{
    sizes.reserve(array.d() + 1)?;
    'sizes: for i in 0..array.d() + 1 {
        let size = size_after(array, sizes, i)?;
        sizes.push(size.value)?;
    }
    Ok(())
}

/// The number of vertices.
pub fn sum_of(array: &Array, sizes: &[i128]) -> Result<i128, NumbersFault>
    requires length { length sizes.now ≡ suc (diameter array.now) }
    requires sizes { AreSizes array.now sizes.now }
    requires in_range { AreInRange sizes.now }
    requires reached { IsReached array.now N }
    ensures sum { IfOk result (λ n. vertex_count array.now ≡ whole n) }
    ensures natural { IfOk result (λ n. pos 0 ≤ℤ n) }
    ensures passes { IfOk result (λ n. Passes array.now N) }
    ensures fault { IfErr result (IsNumbersFault array.now) }
    ensures node { IfErr result (λ fault. failing_node fault ≡ Some N) }
{
    let mut sum = Whole::new(0);
    'sizes: for size in sizes {
        let Ok(next) = sum.plus(Whole::new(*size)) else {
            return Err(NumbersFault::Wide { node: Node::N });
        };
        sum = next;
    }
    Ok(sum.value)
}
