// Reads an image of at most 65,536 bytes from standard input and says whether it is accepted, or with which number it is refused.
#![tactic(auto)]

use std::io;

fn say(rt: &impl Print, image: &[u8]) -> io::Result<()> {
    match image::check(image) {
        Ok(()) => println!(rt; "accepted"),
        Err(refusal) => println!(rt; "refused {refusal}"),
    }
}

fn main(rt: HostRuntime) -> io::Result<()> {
    let mut image = reading::buffer();
    match reading::read_whole(&mut rt.stdin(), &mut image)? {
        Some(n) => say(&rt, &image[..n]),
        None => println!(rt; "too long"),
    }
}
