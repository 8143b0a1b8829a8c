// Reads an image of at most 65,536 bytes from standard input and prints what its names refer to, and what the walk finds.
#![tactic(auto)]

mod report;

ghost use Rattle.std.specs.Prelude.{OnOk, IfSome};
ghost use Rattle.std.specs.Io.KnownBytes.{Appends};
ghost use Rattle.survey.specs.Survey.{survey_text, printed};

use std::io;
use std::io::{Read, Write};

fn say<W: Write>(output: &mut W, image: &[u8]) -> io::Result<()>
    ensures { OnOk result (Appends (W.contents output.old) (W.contents output.new) (survey_text image.now)) }
{
    let mut text = [0u8; report::LONGEST];
    let length = report::survey_text(image, &mut text);
    output.write_all(&text[..length])
}

// What is printed of the whole input.
fn run<R: Read, W: Write>(input: &mut R, output: &mut W) -> io::Result<()>
    ensures { OnOk result (IfSome (R.remaining input.old) (λ s. Appends (W.contents output.old) (W.contents output.new) (printed s))) }
{
    let mut image = reading::buffer();
    match reading::read_whole(input, &mut image)? {
        Some(n) => say(output, &image[..n]),
        None => output.write_all(b"too long\n"),
    }
}

fn main(rt: HostRuntime) -> io::Result<()> {
    run(&mut rt.stdin(), &mut rt.stdout())
}
