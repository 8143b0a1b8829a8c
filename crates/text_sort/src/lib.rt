// Texts brought into their order by merging: as many comparisons as a sorted list takes, and no moves within it.
#![tactic(auto)]

ghost use Rattle.std.specs.Prelude.{◌≡◌, ◌+◌, ◌^◌, ◌≤◌, ◌<◌, length};
ghost use Rattle.semantics.specs.Base.{All};
ghost use Rattle.image_fields.specs.Image.{text_count};
ghost use Rattle.text_order.specs.Inside.Order.{Ordered};
ghost use Rattle.text_sort.specs.Inside.Sorts.{Stands, Merges, Sorts};

use image::accepted::Image;
use std::cmp::Ordering;

// How the next texts of two lists in order stand to each other, of which the first i and j are done: what is left of one list is
// before the end of the other.
fn standing(image: Image<'_>, first: &[u16], second: &[u16], i: usize, j: usize) -> Ordering
    requires first_ordered { Ordered image.bytes.now first.now }
    requires second_ordered { Ordered image.bytes.now second.now }
    requires i_within { i ≤ length first.now }
    requires j_within { j ≤ length second.now }
    requires some_left { i + j < length first.now + length second.now }
    ensures { Stands image.entry.bytes.now first.now second.now i j result }
{
    if i == first.len() {
        return Ordering::Greater;
    }
    if j == second.len() {
        return Ordering::Less;
    }
    let x = usize::from(first[i]);
    let y = usize::from(second[j]);
    text_order::compare(image.text(x), image.text(y))
}

// The two lists as one, of two equal texts that of the first: how many.
fn merge(image: Image<'_>, first: &[u16], second: &[u16], out: &mut [u16]) -> usize
    requires first_ordered { Ordered image.bytes.now first.now }
    requires second_ordered { Ordered image.bytes.now second.now }
    requires room { length first.now + length second.now ≤ length out.old }
    ensures { Merges image.entry.bytes.now first.now second.now out.new result }
{
    let mut i: usize = 0;
    let mut j: usize = 0;
    let mut count: usize = 0;
    while i + j < first.len() + second.len() {
        match standing(image, first, second, i, j) {
            Ordering::Less => {
                out[count] = first[i];
                i += 1;
            }
            Ordering::Equal => {
                out[count] = first[i];
                i += 1;
                j += 1;
            }
            Ordering::Greater => {
                out[count] = second[j];
                j += 1;
            }
        }
        count += 1;
    }
    count
}

// A list of numbers written over another of its length. By hand: the library's method calls memmove, and the archive for C needs no
// function from outside but memset.
fn copy(to: &mut [u16], from: &[u16])
    requires { length from.now ≡ length to.old }
    ensures { to.new ≡ from.now }
{
    for k in 0..from.len() {
        to[k] = from[k];
    }
}

// The texts of `order` in their order, each of its bytes once, as it stands there first: how many.
pub fn sort(image: Image<'_>, order: &mut [u16], scratch: &mut [u16]) -> usize
    requires all { All (λ z. z < text_count image.bytes.now) order.old }
    requires order_len_bound { (length order.old ≤ 2 ^ 14) × (length order.old ≤ length scratch.old) }
    ensures { Sorts image.entry.bytes.now order.old order.new result }
{
    let size = order.len();
    if size < 2 {
        return size;
    }
    let (front, back) = order.split_at_mut(size / 2);
    let left = sort(image, front, scratch);
    let right = sort(image, back, scratch);
    let count = merge(image, &front[..left], &back[..right], scratch);
    copy(&mut order[..count], &scratch[..count]);
    count
}
