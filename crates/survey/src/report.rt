// The text that the program `survey` prints.
ghost use Rattle.std.specs.Prelude.{◌≡◌, [], ◌∷◌, ◌++◌, ◌*◌, ◌≤◌, length, take, drop};
ghost use Rattle.codes.specs.Refusals.{number_of};
ghost use Rattle.semantics.specs.Codes.{widths};
ghost use Rattle.semantics.specs.Tree.{bytes};
ghost use Rattle.semantics.specs.Scopes.{resolve_steps};
ghost use Rattle.image_fields.specs.Image.{expr_count, decode};
ghost use Rattle.image.specs.Refusals.{image_refusal};
ghost use Rattle.survey_lines.specs.Text.{line};
ghost use Rattle.survey_lines.specs.Inside.Page.{Printed};
ghost use Rattle.survey_lines.specs.Lines.{edge_lines, bind_lines, narrow_lines};
ghost use Rattle.index.specs.Own.{own_resolutions};
ghost use Rattle.survey.specs.Survey.{refused_text, walk_text, resolved_text, survey_text};

use codes::bytes;
use codes::refusals::Refusal;
use image::accepted::Image;
use survey_lines::text::Page;
use survey_lines::{Bound, Edges, Narrowings, Resolutions, put_lines};

const BUDGET: u32 = 65535;

// How many bytes a text has at most (proofs/BoundLaws.antt).
pub const LONGEST: usize = 18 * 65536;

fn refused_line(refusal: Refusal, page: &mut Page)
    ensures { Printed (refused_text (number_of refusal)) page.old page.new }
{
    page.put_line(b"refused", &[u32::from(refusal) as usize]);
}

// What a walk answered.
fn walked_lines(steps: u32, edges: &[u8], exprs: &[u8], narrowings: &[u8], page: &mut Page)
    ensures { Printed (line (bytes "walk") (steps ∷ []) ++ edge_lines edges.now ++ bind_lines exprs.now ++ narrow_lines narrowings.now) page.old page.new }
{
    page.put_line(b"walk", &[steps as usize]);
    put_lines(&Edges(edges), page);
    put_lines(&Bound(exprs), page);
    put_lines(&Narrowings(narrowings), page);
}

// The walk, with our own resolution.
fn walk_lines(image: Image<'_>, resolutions: &[u8], page: &mut Page)
    requires { (image_refusal image.bytes.now ≡ 0) × (resolutions.now ≡ own_resolutions image.bytes.now) }
    ensures { Printed (walk_text image.entry.bytes.now) page.old page.new }
{
    let mut bindings = reading::buffer();
    let mut edges = reading::buffer();
    let mut narrowings = reading::buffer();
    let mut exprs = reading::buffer();
    let mut working = reading::buffer();
    let _ = index::compute_module_indices(image.bytes, &mut bindings); // an accepted image has at most 16,383 names: never refused
    let names = bytes::ENTRY * image.name_count();
    match walk::name_dependencies(
        image.bytes,
        resolutions,
        &bindings[..names],
        BUDGET,
        &mut edges,
        &mut narrowings,
        &mut exprs,
        &mut working,
    ) {
        Err(refusal) => refused_line(refusal, page),
        Ok(walked) => {
            let e = bytes::EDGE * walked.edges as usize;
            let n = bytes::RECORDED * walked.narrowings;
            walked_lines(
                walked.steps,
                &edges[..e],
                &exprs[..names],
                &narrowings[..n],
                page,
            )
        }
    }
}

// What a resolution answered, and the walk.
fn resolved_lines(image: Image<'_>, steps: u32, table: &[u8], page: &mut Page)
    requires { let s = image.bytes.now in
        (image_refusal s ≡ 0)
        × (steps ≡ resolve_steps (decode s))
        × (widths.entry * expr_count s ≤ length table.now)
        × (take (widths.entry * expr_count s) table.now ≡ own_resolutions s) }
    ensures { Printed (resolved_text image.entry.bytes.now) page.old page.new }
{
    let n = bytes::ENTRY * image.expr_count();
    let resolutions = &table[..n];
    page.put_line(b"resolve", &[steps as usize]);
    put_lines(&Resolutions(resolutions), page);
    walk_lines(image, resolutions, page);
}

// All that is printed of an image.
fn survey_lines(image: &[u8], page: &mut Page)
    ensures { Printed (survey_text image.now) page.old page.new }
{
    let mut table = reading::buffer();
    let mut working = reading::buffer();
    match resolve::compute_name_resolution(image, BUDGET, &mut table, &mut working) {
        Err(refusal) => refused_line(refusal, page),
        Ok(steps) => resolved_lines(Image { bytes: image }, steps, &table, page),
    }
}

// The text of an image, and its length. No text is longer than the array, and what stands behind it stays.
pub fn survey_text(image: &[u8], out: &mut [u8; LONGEST]) -> usize
    ensures prefix_len { (result ≤ length out.new) × (result ≡ length (take result out.new)) }
    ensures fact { let s = image.now in
        (result ≡ length (survey_text s)) × (out.new ≡ survey_text s ++ drop result out.old) }
{
    let mut page = Page { out, at: 0 };
    survey_lines(image, &mut page);
    page.at
}
