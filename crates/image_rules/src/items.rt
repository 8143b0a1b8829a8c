// The items of an expression of an image.
ghost use Rattle.std.specs.Prelude.{ℕ, ◌≡◌, ◌<◌, ◌^◌, get_or};
ghost use Rattle.semantics.specs.Tree.{item_at};
ghost use Rattle.image_fields.specs.Image.{items_place, item_place, first_of, count_of, decode};
ghost use Rattle.image_fields.specs.Inside.Asked.{Runs};
ghost use Rattle.image_rules.specs.Inside.Machine.{item_of_word};

use codes::{bits, bytes, offsets};

// The items of the expression `owner`: `count` of them from byte `first` on.
#[derive(Clone, Copy)]
pub struct Items<'a> {
    pub image: &'a [u8],
    pub first: usize,
    pub count: usize,
    pub owner: usize,
    ghost bytes: { (i : ℕ) → get_or image.now i 0 < 256 },
    ghost runs: { Runs image.now owner },
    ghost placed: { first ≡ item_place image.now (first_of image.now owner) },
    ghost counted: { count ≡ count_of image.now owner },
}

impl<'a> Items<'a> {
    // Those of expression e, where the table of items starts at byte `items_at`.
    pub fn of(image: &'a [u8], items_at: usize, e: usize) -> Items<'a>
        requires runs { Runs image.now e }
        requires items_at_value { items_at ≡ items_place image.now }
        ensures { (result.image.now ≡ image.now) × (result.owner ≡ e) }
    {
        let at = bytes::HEADER + bytes::EXPR * e;
        let first = image_fields::in_eight(image, at, offsets::EXPR_FIRST, bits::COUNT);
        Items {
            image,
            first: items_at + bytes::ITEM * first,
            count: image_fields::in_eight(image, at, offsets::EXPR_COUNT, bits::COUNT),
            owner: e,
        }
    }

    // The four bytes of item k.
    pub fn word(self, k: usize) -> usize
        requires { k < self.count }
        ensures { let i = self.entry in (item_of_word result ≡ item_at (decode i.image.now) i.owner k) × (result < 2 ^ 32) }
    {
        image_fields::four(self.image, self.first + bytes::ITEM * k)
    }
}
