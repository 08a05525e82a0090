//! The spare labels of a range, by a truth value for each of its numbers.

ghost use Rattle.std.specs.Prelude.{◌≡◌, ◌<◌, ◌≤◌, ◌+◌, ◌-◌, ◌^◌, ℕ, IsTrue, true, false, length, map as map_list, slice_index_or, IfOk};
ghost use Rattle.std.specs.List.{range_with_len};
ghost use Rattle.net_types.specs.Label.{is_label_number};
ghost use Rattle.label_pool.specs.Marks.{marked, is_open};

use crate::between::Between;
use net_types::{OutOfMemory, is_label_number, label_channel};
use std::alloc::Global;

/// A mark for each number of a range, set where there is a label of the number, and how many are set.
pub(crate) fn all_spare(
    alloc: Global,
    least: u16,
    greatest: u16,
) -> Result<(Vec<bool>, usize), OutOfMemory>
    requires { greatest < 2 ^ 16 - 1 }
    ensures marks { IfOk result (λ r. r.0.items ≡ map_list is_label_number (range_with_len least (greatest + 1 - least))) }
    ensures count { IfOk result (λ r. r.1 ≡ length (marked least r.0.items)) }
{
    let numbers = (greatest + 1).saturating_sub(least);
    let mut marks = Vec::new(alloc);
    let mut count = 0;
    for place in 0..numbers {
        let spare = is_label_number(least + place);
        marks.push(spare)?;
        if spare {
            count += 1;
        }
    }
    Ok((marks, count))
}

/// The first index from `low` on whose label is spare and can be handed out, or else the number of
/// marks.
pub(crate) fn first_open(marks: &[bool], least: u16, between: &Between, low: usize) -> usize
    requires low { low ≤ length marks.now }
    requires few { least + length marks.now ≤ 2 ^ 16 }
    requires labels { (k : ℕ) → slice_index_or marks.now k false ≡ true → IsTrue (is_label_number (least + k)) }
    ensures within { (low ≤ result) × (result ≤ length marks.now) }
    ensures closed { (k : ℕ) → low ≤ k → k < result → is_open least between.now marks.now k ≡ false }
    ensures open { result < length marks.now → is_open least between.now marks.now result ≡ true }
{
    for place in low..marks.len() {
        if marks[place] && between.contains(label_channel(least + place as u16)) {
            return place;
        }
    }
    marks.len()
}
