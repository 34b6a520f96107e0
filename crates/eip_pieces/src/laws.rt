ghost use Rattle.std.specs.Prelude.{◌≡◌, ◌↔◌, ◌<◌, List, ℕ, length};
ghost use Rattle.eip_text.specs.Pieces.{Pieces};
ghost use Rattle.eip_pieces.specs.Joined.{joined};
ghost use Rattle.eip_pieces.specs.Pieces.{pieces};

/// The laws of pieces. It does nothing.
/// - A list is that of the pieces exactly where each piece but the last ends where the token first stands
///   in what is left of the text, the next begins behind that, and the last piece is the rest, which has no
///   place of the token.
/// - The pieces with the token between them are the text.
pub fn cutting_laws()
    ensures only { (token text : List ℕ) (ps : List (List ℕ)) → 0 < length token
        → (Pieces text token ps ↔ (ps ≡ pieces token text)) }
    ensures joined { (token text : List ℕ) → 0 < length token
        → joined token (pieces token text) ≡ text }
{}
