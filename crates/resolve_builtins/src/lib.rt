// `lookup_global_builtin` (nameres.rs): the place of a text in `GLOBAL_BUILTIN_NAMES`.
#![tactic(auto)]

ghost use Rattle.std.specs.Prelude.{◌≡◌, [], ◌<◌, get_or, position};
ghost use Rattle.semantics.specs.Codes.{builtin_count};
ghost use Rattle.semantics.specs.Tree.{same};
ghost use Rattle.semantics.specs.Words.{globals};
ghost use Rattle.semantics.specs.Resolution.{place_of};

use codes::builtins;

static GLOBAL_BUILTIN_NAMES: [&[u8]; builtins::COUNT] = [
    b"abort",
    b"baseNameOf",
    b"builtins",
    b"derivation",
    b"dirOf",
    b"false",
    b"fetchGit",
    b"fetchMercurial",
    b"fetchTarball",
    b"fetchTree",
    b"fetchurl",
    b"fromTOML",
    b"import",
    b"isNull",
    b"map",
    b"null",
    b"placeholder",
    b"removeAttrs",
    b"scopedImport",
    b"throw",
    b"toString",
    b"true",
];

// How many bytes the longest of them has.
const LONGEST: usize = 14;

// The place of the first of these names that is the text.
fn place_among(names: &[&[u8]], text: &[u8]) -> Option<usize>
    ensures { result ≡ position (λ name. same text.now name.now) names.now }
{
    names.iter().position(|name| texts::same(text, name))
}

// The place of a text.
pub fn lookup_global_builtin(text: &[u8]) -> Option<usize>
    ensures { place_of text.now ≡ result }
{
    if text.len() > LONGEST {
        return None;
    }
    place_among(&GLOBAL_BUILTIN_NAMES, text)
}

// Whether a text is the builtin at this place: each word stands at one place only.
pub fn is_builtin(text: &[u8], place: usize) -> bool
    requires { place < builtin_count }
    ensures { result ≡ same text.now (get_or globals place []) }
{
    match lookup_global_builtin(text) {
        Some(found) => found == place,
        None => false,
    }
}
