// One number for all texts of the same bytes: the text of the first name that has them, found by chains of such texts.
#![tactic(auto)]

ghost use Rattle.std.specs.Prelude.{◌≡◌, ◌^◌, ◌≤◌, ◌<◌, length};
ghost use Rattle.semantics.specs.Base.{All};
ghost use Rattle.image_fields.specs.Image.{name_count, text_count, decode};
ghost use Rattle.text_classes.specs.Inside.Hash.{mixed, hash_of, Slot};
ghost use Rattle.resolve_laws.specs.Inside.Classes.{class_of};
ghost use Rattle.text_classes.specs.Inside.Chains.{limit, chain_of, Seeks, Clear, Roomy, Known, Classed, Entered, Entering};
ghost use Rattle.text_classes.specs.Inside.Chains.{Told, Named, Own, Sorted, Listed, Kept};

use codes::bits;
use image::accepted::Image;

// How many texts a chain has at most: a text that would make it longer has all chains given up.
const LIMIT: usize = 8;

// What a hash multiplies a text's length, its last four bytes and the four before them by: below 2^30, so that no sum goes round.
const SIZE_FACTOR: usize = 0x2545f491;

const LAST_FACTOR: usize = 0x3c6ef373;

const BEFORE_FACTOR: usize = 0x1b873593;

// Where a length goes round, and a number of four bytes.
const LENGTHS: usize = 1 << bits::LENGTH;

const WORDS: usize = 1 << 32;

// What stands for the class of a text that is in the list, until the classes are known.
const SEEN: u16 = 1;

// What a look through a chain comes to: the text that it found, or that there is none, and the chain has room for one or is full.
#[derive(Clone, Copy)]
pub enum Sought {
    At(usize),
    Absent,
    Full,
}

// A text's length, its last bytes and those before them as one number.
fn mix(size: usize, last: usize, before: usize) -> usize
    ensures { result ≡ mixed size last before }
{
    size % LENGTHS * SIZE_FACTOR + last % WORDS * LAST_FACTOR + before % WORDS * BEFORE_FACTOR
}

// A number from a text's length and its last 8 bytes.
fn hash(text: &[u8]) -> usize
    ensures { result ≡ hash_of text.now }
{
    let size = text.len();
    if size < 4 {
        return mix(size, image_fields::word(text, 0, size), 0);
    }
    let last = image_fields::four(text, size - 4);
    if size < 8 {
        return mix(size, last, image_fields::four(text, 0));
    }
    mix(size, last, image_fields::four(text, size - 8))
}

// The slot of a text, in which its chain starts.
fn slot(slots: usize, text: &[u8]) -> usize
    requires slots_nonzero { 0 < slots }
    requires slots_bound { slots ≤ 2 ^ 16 }
    ensures { Slot slots text.now result }
{
    hash(text) % WORDS * slots / WORDS
}

// The first text of a chain that has the bytes of text x.
fn seek(image: Image<'_>, next: &[u16], head: usize, x: usize) -> Sought
    requires image_in_bounds { text_count image.bytes.now ≤ length next.now }
    requires x_bound { x < text_count image.bytes.now }
    requires all { All (λ z. z < text_count image.bytes.now) (chain_of next.now limit head) }
    ensures { Seeks (decode image.entry.bytes.now) x (chain_of next.now limit head) result }
{
    let text = image.text(x);
    let mut at = head;
    for _looked in 0..LIMIT {
        if at == 0 {
            return Sought::Absent;
        }
        let other = image.text(at - 1);
        if texts::same(text, other) {
            return Sought::At(at - 1);
        }
        at = usize::from(next[at - 1]);
    }
    Sought::Full
}

// The same with no call for an empty chain, as most are when names are entered: the test becomes part of `enter`.
fn seek_from(image: Image<'_>, next: &[u16], head: usize, x: usize) -> Sought
    requires image_in_bounds { text_count image.bytes.now ≤ length next.now }
    requires x_bound { x < text_count image.bytes.now }
    requires all { All (λ z. z < text_count image.bytes.now) (chain_of next.now limit head) }
    ensures { Seeks (decode image.entry.bytes.now) x (chain_of next.now limit head) result }
{
    if head == 0 {
        return Sought::Absent;
    }
    seek(image, next, head, x)
}

// The text of name n entered: its class kept, and the text in its chain if it is the first of its bytes. False where the
// chain is full.
fn enter(
    image: Image<'_>,
    class: &mut [u16],
    buckets: &mut [u16],
    next: &mut [u16],
    n: usize,
) -> bool
    requires n_bound { n < name_count image.bytes.now }
    requires entered { Entered image.bytes.now class.old buckets.old next.old n }
    ensures { let s = image.entry.bytes.now in
        Entering s class.new buckets.new next.new n result }
{
    let x = image.name_text(n);
    if class[x] != 0 {
        return true;
    }
    let slot = slot(buckets.len(), image.text(x));
    let head = buckets[slot];
    match seek_from(image, next, usize::from(head), x) {
        Sought::At(z) => {
            class[x] = (z + 1) as u16;
            true
        }
        Sought::Full => false,
        Sought::Absent => {
            class[x] = (x + 1) as u16;
            next[x] = head;
            buckets[slot] = (x + 1) as u16;
            true
        }
    }
}

// The texts of all names, each once, as names first have them: how many.
fn list_names(image: Image<'_>, class: &mut [u16], order: &mut [u16]) -> usize
    requires image_in_bounds { text_count image.bytes.now ≤ length class.old }
    requires image_in_bounds_2 { text_count image.bytes.now ≤ length order.old }
    requires clear { Clear class.old }
    ensures { let s = image.entry.bytes.now in Named s order.new result (name_count s) }
{
    let mut count: usize = 0;
    for n in 0..image.name_count() {
        let x = image.name_text(n);
        if class[x] != 0 {
            continue;
        }
        class[x] = SEEN;
        order[count] = x as u16;
        count += 1;
    }
    count
}

// Each text of a list as its own class, so that it is not looked for there.
fn keep_listed(class: &mut [u16], order: &[u16])
    requires clear { Clear class.old }
    requires all { All (λ z. (z < length class.old) × (z < 2 ^ 14)) order.now }
    ensures { Own class.new order.now }
{
    for &x in order {
        class[usize::from(x)] = x + 1;
    }
}

// The texts of all names in order, each of its bytes once, and these as their own classes: how many.
fn sort_names(image: Image<'_>, class: &mut [u16], order: &mut [u16], scratch: &mut [u16]) -> usize
    requires image_in_bounds { text_count image.bytes.now ≤ length class.old }
    requires image_in_bounds_2 { text_count image.bytes.now ≤ length order.old }
    requires image_in_bounds_3 { text_count image.bytes.now ≤ length scratch.old }
    requires clear { Clear class.old }
    ensures { let s = image.entry.bytes.now in
        Listed s class.new order.new result (name_count s) }
{
    let named = list_names(image, class, order);
    class.fill(0);
    let count = text_sort::sort(image, &mut order[..named], scratch);
    keep_listed(class, &order[..count]);
    count
}

// The class of text x by the names' texts in order.
fn sorted_class(image: Image<'_>, order: &[u16], x: usize) -> usize
    requires sorted { Sorted image.bytes.now order.now (name_count image.bytes.now) }
    requires x_bound { x < text_count image.bytes.now }
    ensures { result ≡ class_of (decode image.entry.bytes.now) x }
{
    text_order::look(image, order, x).unwrap_or(x)
}

// The classes of all texts, with no chain.
fn class_all(image: Image<'_>, class: &mut [u16], order: &[u16])
    requires image_in_bounds { text_count image.bytes.now ≤ length class.old }
    requires told { Told image.bytes.now class.old (name_count image.bytes.now) }
    requires sorted { Sorted image.bytes.now order.now (name_count image.bytes.now) }
    ensures { let s = image.entry.bytes.now in Kept s class.new (text_count s) }
{
    for x in 0..image.text_count() {
        if class[x] == 0 {
            class[x] = (sorted_class(image, order, x) + 1) as u16;
        }
    }
}

// The texts of all names entered: afterwards the class of each text is kept or can be found.
pub fn enter_names(image: Image<'_>, class: &mut [u16], buckets: &mut [u16], next: &mut [u16])
    requires roomy { Roomy image.bytes.now class.old buckets.old next.old }
    requires clear { Clear class.old × Clear buckets.old }
    ensures { let s = image.entry.bytes.now in
        Known s class.new buckets.new next.new }
{
    for n in 0..image.name_count() {
        if !enter(image, class, buckets, next, n) {
            class.fill(0);
            let count = sort_names(image, class, buckets, next);
            class_all(image, class, &buckets[..count]);
            return;
        }
    }
}

// The class of a text, kept from then on.
pub fn class_of(
    image: Image<'_>,
    class: &mut [u16],
    buckets: &[u16],
    next: &[u16],
    x: usize,
) -> usize
    requires known { Known image.bytes.now class.old buckets.now next.now }
    requires x_bound { x < text_count image.bytes.now }
    ensures { let s = image.entry.bytes.now in
        Classed s class.new buckets.now next.now x result }
{
    let known = usize::from(class[x]);
    if known != 0 {
        return known - 1;
    }
    // Where there are no names, no text is read.
    if image.name_count() == 0 {
        return x;
    }
    let slot = slot(buckets.len(), image.text(x));
    match seek(image, next, usize::from(buckets[slot]), x) {
        Sought::At(z) => {
            class[x] = (z + 1) as u16;
            z
        }
        Sought::Absent | Sought::Full => {
            class[x] = (x + 1) as u16;
            x
        }
    }
}
