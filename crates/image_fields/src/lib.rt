// The fields of a tree image (docs/FORMAT.md). A field is a few byte loads, one division and one remainder.
#![tactic(auto)]

ghost use Rattle.std.specs.Prelude.{◌≡◌, ℕ, ◌+◌, ◌*◌, ◌/◌, ◌%◌, ◌≤◌, ◌<◌, ◌^◌, length};
ghost use Rattle.image_fields.specs.Inside.Words.{word_of};
ghost use Rattle.image_fields.specs.Image.{field_in};
ghost use Rattle.image_fields.specs.Inside.Asked.{InField};

// The number that the n bytes from `at` on write.
pub fn word(image: &[u8], at: usize, n: usize) -> usize
    requires { (at + n ≤ length image.now) × (n ≤ 8) }
    ensures { result ≡ word_of image.now at n }
{
    let mut v: usize = 0;
    for i in 0..n {
        v = v * 256 + usize::from(image[at + i]);
    }
    v
}

// The number that 4 bytes write, in one load that is turned round: its fields are then taken from one number, not each from its bytes.
pub fn four(image: &[u8], at: usize) -> usize
    requires { at + 4 ≤ length image.now }
    ensures { result ≡ word_of image.now at 4 }
{
    let bytes = [image[at], image[at + 1], image[at + 2], image[at + 3]];
    u32::from_be_bytes(bytes) as usize
}

// The number that 2 bytes write, likewise.
pub fn two(image: &[u8], at: usize) -> usize
    requires { at + 2 ≤ length image.now }
    ensures { result ≡ word_of image.now at 2 }
{
    usize::from(u16::from_be_bytes([image[at], image[at + 1]]))
}

// The number that 8 bytes write: two of 4.
pub fn eight(image: &[u8], at: usize) -> usize
    requires { at + 8 ≤ length image.now }
    ensures { result ≡ word_of image.now at 8 }
{
    four(image, at) * 4294967296 + four(image, at + 4)
}

// The `width` bits of v above the lowest `low`.
pub fn part(v: usize, low: usize, width: usize) -> usize
    requires { (low < 64) × (width ≤ 20) }
    ensures { result ≡ v / 2 ^ low % 2 ^ width }
{
    (v >> low) % (1 << width)
}

// The field of `width` bits that starts `offset` bits into the record at byte `at`.
pub fn field(image: &[u8], at: usize, offset: usize, width: usize) -> usize
    requires { InField image.now at offset width }
    ensures { result ≡ field_in image.now at offset width }
{
    let skip = offset % 8;
    let n = (skip + width + 7) / 8;
    let v = word(image, at + offset / 8, n);
    part(v, 8 * n - skip - width, width)
}

// The same of a record of 4 bytes and of one of 8, whose fields are then taken from one load.
pub fn in_four(image: &[u8], at: usize, offset: usize, width: usize) -> usize
    requires { (at + 4 ≤ length image.now) × (offset + width ≤ 32) × (width ≤ 20) }
    ensures { result ≡ field_in image.now at offset width }
{
    part(four(image, at), 32 - offset - width, width)
}

pub fn in_eight(image: &[u8], at: usize, offset: usize, width: usize) -> usize
    requires { (at + 8 ≤ length image.now) × (offset + width ≤ 64) × (width ≤ 20) × (0 < width) }
    ensures { result ≡ field_in image.now at offset width }
{
    part(eight(image, at), 64 - offset - width, width)
}
