//! What the program says on standard error as it ends. A status that comes with a text on standard output says nothing here.

ghost use Rattle.std.specs.Prelude.{◌↔◌, ◌∷◌, [], IsSome, Contains};

/// The line for a status's number, without its end.
pub fn line_of(status: u8) -> Option<&'static str>
    ensures { IsSome result ↔ Contains (2 ∷ 4 ∷ 5 ∷ 6 ∷ 8 ∷ 9 ∷ []) status }
{
    match status {
        2 => Some("teams: usage"),
        4 => Some("teams: read fault"),
        5 => Some("teams: write fault"),
        6 => Some("teams: no memory"),
        8 => Some("teams: no such file"),
        9 => Some("teams: file too long"),
        _ => None,
    }
}
