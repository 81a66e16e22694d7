//! The table of intersection numbers, one after the other.

ghost use Rattle.std.specs.Prelude.{◌≡◌, ◌≤◌, ◌<◌, ◌==◌, suc, pos, [], length, Some, IfOk, IfErr, OnOk, IfSome};
ghost use Rattle.drg_algebra.specs.Sums.{bit};
ghost use Rattle.drg_array.specs.Entries.{IsArray, diameter};
ghost use Rattle.drg_array.specs.declared.node.Node.TheVariants.{P};
ghost use Rattle.drg_whole.specs.Range.{Gives};
ghost use Rattle.drg_whole.specs.Sums.{products_of, sum_fits_from, sum_from};
ghost use Rattle.drg_whole.specs.Whole.{value_of};
ghost use Rattle.drg_intersection.specs.Faults.{IsReached, IsNumbersFault, Passes, failing_node};
ghost use Rattle.drg_intersection.specs.FirstNumbers.{AreCells, IsCellAt, TableEndsBefore};
ghost use Rattle.drg_intersection.specs.Numbers.{place};
ghost use Rattle.drg_intersection.specs.Table.{balance as the_balance};

use crate::fault::NumbersFault;
use crate::terms::{balance, divisor, index};
use drg_array::{Array, Claim, Node};
use drg_whole::{Whole, Wide, sum_onto};

/// The sum of the balance equation for row i+1, at j.
fn numerator(array: &Array, p: &[i128], h: usize, i: usize, j: usize) -> Result<Whole, Wide>
    requires array { IsArray array.now }
    requires h { h ≤ diameter array.now }
    requires i { i ≤ diameter array.now }
    requires j { j ≤ diameter array.now }
    ensures { Gives value_of result
        (sum_fits_from (pos 0) (products_of (the_balance array.now p.now h i j)))
        (sum_from (pos 0) (products_of (the_balance array.now p.now h i j))) }
{
    sum_onto(Whole::new(0), &balance(array, p, h, i, j))
}

/// p^h_(i+1),j, after all numbers before it.
fn next_number(
    array: &Array,
    p: &[i128],
    h: usize,
    i: usize,
    j: usize,
) -> Result<Whole, NumbersFault>
    requires array { IsArray array.now }
    requires h { h ≤ diameter array.now }
    requires i { i < diameter array.now }
    requires j { j ≤ diameter array.now }
    requires length { length p.now ≡ place (diameter array.now) h (suc i) j }
    requires cells { AreCells array.now p.now }
    requires reached { IsReached array.now (P h (suc i) j) }
    ensures cell { IfOk result (λ x. IsCellAt array.now h (suc i) j x.value) }
    ensures passes { IfOk result (λ x. Passes array.now (P h (suc i) j)) }
    ensures fault { IfErr result (IsNumbersFault array.now) }
    ensures node { IfErr result (λ fault. failing_node fault ≡ Some (P h (suc i) j)) }
{
    let (h_index, i_next, j_index) = (index(array, h), index(array, i + 1), index(array, j));
    let Ok(numerator) = numerator(array, p, h, i, j) else {
        return Err(NumbersFault::Wide {
            node: Node::P {
                h: h_index,
                i: i_next,
                j: j_index,
            },
        });
    };
    match numerator.whole_quotient(divisor(array, i)) {
        Some(x) if x.value >= 0 => Ok(x),
        _ => Err(NumbersFault::Fall {
            claim: Claim::Intersect {
                h: h_index,
                i: i_next,
                j: j_index,
            },
        }),
    }
}

/// p^h_0j.
fn first_number(h: usize, j: usize) -> Whole
    ensures { result.value ≡ pos (bit (j == h)) }
{
    if j == h { Whole::new(1) } else { Whole::new(0) }
}

/// p^h_ij, after all numbers before it.
fn number_after(
    array: &Array,
    p: &[i128],
    h: usize,
    i: usize,
    j: usize,
) -> Result<Whole, NumbersFault>
    requires array { IsArray array.now }
    requires h { h ≤ diameter array.now }
    requires i { i ≤ diameter array.now }
    requires j { j ≤ diameter array.now }
    requires length { length p.now ≡ place (diameter array.now) h i j }
    requires cells { AreCells array.now p.now }
    requires reached { IsReached array.now (P h i j) }
    ensures cell { IfOk result (λ x. IsCellAt array.now h i j x.value) }
    ensures passes { IfOk result (λ x. Passes array.now (P h i j)) }
    ensures fault { IfErr result (IsNumbersFault array.now) }
    ensures node { IfErr result (λ fault. failing_node fault ≡ Some (P h i j)) }
{
    if i == 0 {
        return Ok(first_number(h, j));
    }
    next_number(array, p, h, i - 1, j)
}

/// Appends p^h_i0 to p^h_id. After an error those before the fault are appended.
fn fill_row(array: &Array, p: &mut Vec<i128>, h: usize, i: usize) -> Result<(), NumbersFault>
    requires array { IsArray array.now }
    requires h { h ≤ diameter array.now }
    requires i { i ≤ diameter array.now }
    requires length { length p.old.items ≡ place (diameter array.now) h i 0 }
    requires cells { AreCells array.now p.old.items }
    requires reached { IsReached array.now (P h i 0) }
    ensures length { OnOk result (length p.new.items ≡ place (diameter array.now) h (suc i) 0) }
    ensures cells { AreCells array.now p.new.items }
    ensures reached { OnOk result (IsReached array.now (P h (suc i) 0)) }
    ensures fault { IfErr result (IsNumbersFault array.now) }
    ensures end { IfErr result (λ fault.
        IfSome (failing_node fault) (TableEndsBefore (diameter array.now) p.new.items)) }
{
    'row: for j in 0..array.d() + 1 {
        let x = number_after(array, p, h, i, j)?;
        p.push(x.value)?;
    }
    Ok(())
}

/// Appends the rows with upper index h. After an error the numbers before the fault are appended.
fn fill_rows(array: &Array, p: &mut Vec<i128>, h: usize) -> Result<(), NumbersFault>
    requires array { IsArray array.now }
    requires h { h ≤ diameter array.now }
    requires length { length p.old.items ≡ place (diameter array.now) h 0 0 }
    requires cells { AreCells array.now p.old.items }
    requires reached { IsReached array.now (P h 0 0) }
    ensures length { OnOk result (length p.new.items ≡ place (diameter array.now) (suc h) 0 0) }
    ensures cells { AreCells array.now p.new.items }
    ensures reached { OnOk result (IsReached array.now (P (suc h) 0 0)) }
    ensures fault { IfErr result (IsNumbersFault array.now) }
    ensures end { IfErr result (λ fault.
        IfSome (failing_node fault) (TableEndsBefore (diameter array.now) p.new.items)) }
{
    'rows: for i in 0..array.d() + 1 {
        fill_row(array, p, h, i)?;
    }
    Ok(())
}

/// Appends all intersection numbers, by h, i and j, to no number. After an error those before the fault
/// are appended.
pub fn fill_table(array: &Array, p: &mut Vec<i128>) -> Result<(), NumbersFault>
    requires array { IsArray array.now }
    requires empty { p.old.items ≡ [] }
    requires reached { IsReached array.now (P 0 0 0) }
    ensures length { OnOk result (length p.new.items ≡
        place (diameter array.now) (suc (diameter array.now)) 0 0) }
    ensures cells { AreCells array.now p.new.items }
    ensures reached { OnOk result (IsReached array.now (P (suc (diameter array.now)) 0 0)) }
    ensures fault { IfErr result (IsNumbersFault array.now) }
    ensures end { IfErr result (λ fault.
        IfSome (failing_node fault) (TableEndsBefore (diameter array.now) p.new.items)) }
{
    let side = array.d() + 1;
    p.reserve(side * side * side)?;
    'table: for h in 0..side {
        fill_rows(array, p, h)?;
    }
    Ok(())
}
