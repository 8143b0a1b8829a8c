// Texts in an order that the one comparison of texts gives: how two stand to each other, and a list of different texts in it.
#![tactic(auto)]

ghost use Rattle.std.specs.Prelude.{◌≡◌, ◌<◌};
ghost use Rattle.image_fields.specs.Image.{text_count};
ghost use Rattle.text_order.specs.Inside.Order.{compared, Ordered, Looked};

use image::accepted::Image;
use std::cmp::Ordering;

// How a text stands to another: by lengths, and of two of one length by the pair at which their comparison stopped.
#[inline(always)]
pub fn compare(a: &[u8], b: &[u8]) -> Ordering
    ensures { result ≡ compared a.now b.now }
{
    let by_length = a.len().cmp(&b.len());
    if by_length.is_ne() {
        return by_length;
    }
    let seen = texts::same_text(a, b);
    if seen.same {
        return Ordering::Equal;
    }
    let at = a.len() - seen.looked;
    a[at].cmp(&b[at])
}

// The text of a list in order that has the bytes of text x. The library's search by halves does not stop where it finds one, and
// asks that any number may be compared.
pub fn look(image: Image<'_>, order: &[u16], x: usize) -> Option<usize>
    requires ordered { Ordered image.bytes.now order.now }
    requires x_bound { x < text_count image.bytes.now }
    ensures { Looked image.entry.bytes.now order.now x result }
{
    let text = image.text(x);
    let mut low: usize = 0;
    let mut high = order.len();
    while low < high {
        let middle = low + (high - low) / 2;
        let z = usize::from(order[middle]);
        match compare(image.text(z), text) {
            Ordering::Less => low = middle + 1,
            Ordering::Equal => return Some(z),
            Ordering::Greater => high = middle,
        }
    }
    None
}
