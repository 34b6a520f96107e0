// How the text of a JSON list grows at its end.
ghost use Rattle.std.specs.Prelude.{◌≡◌, ◌++◌, ◌∷◌, [], List, ℕ, string_bytes, string_capacity};
ghost use Rattle.json.specs.Print.{print};

use json::Writer;

/// What was written, which is text.
pub fn written(writer: Writer) -> String
    requires { writer.before ≡ [] }
    ensures { string_bytes result ≡ print writer.tokens }
{
    String::from_utf8(writer.into_inner()).unwrap()
}

/// Takes the bracket away that closes a JSON list; the room that it took stays.
pub fn reopen(text: &mut String)
    requires { (front : List ℕ) × (string_bytes text.old ≡ front ++ 93 ∷ []) }
    ensures bytes { string_bytes text.old ≡ string_bytes text.new ++ 93 ∷ [] }
    ensures room { string_capacity text.new ≡ string_capacity text.old }
{
    let _ = text.pop();
}
