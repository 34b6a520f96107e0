ghost use Rattle.std.specs.Prelude.{◌≡◌, ◌<◌, ◌≤◌, Ok, Some, length, map, take, IfOk, IfErr};
ghost use Rattle.eip_pieces.specs.Pieces.{pieces};
ghost use Rattle.eip_splitter.specs.Faults.{IsFault};
ghost use Rattle.eip_splitter.specs.Parts as spec;

use crate::fault::SplitFault;
use crate::numbered::within_limit;
use eip_pieces::pieces;
use eip_text::{NoMemory, Text};
use std::alloc::Global;

/// The pieces of a body that is cut at each place of the token, without a last one that is empty.
pub fn token_bodies(alloc: Global, body: &str, token: &str) -> Result<Vec<Text>, SplitFault>
    requires { 0 < length token.now }
    ensures bodies { IfOk result (λ bs. spec.within_limit (Some (spec.token_bodies token.now body.now)) ≡ Ok bs.items) }
    ensures fault { IfErr result (λ e. IsFault e (spec.within_limit (Some (spec.token_bodies token.now body.now)))) }
{
    let found = pieces(alloc, body, token)?;
    let kept = &found[..kept_count(&found)];
    within_limit(kept.len())?;
    Ok(texts_of(alloc, kept, token == "\n")?)
}

/// How many pieces there are without a last one that is empty.
fn kept_count(pieces: &[&str]) -> usize
    ensures within { result ≤ length pieces.now }
    ensures kept { map (λ x. x.now) (take result pieces.now)
        ≡ spec.without_last spec.is_empty (map (λ x. x.now) pieces.now) }
{
    let Some((last, front)) = pieces.split_last() else {
        return 0;
    };
    if last.is_empty() {
        front.len()
    } else {
        pieces.len()
    }
}

/// The pieces as texts of their own; the lines of a text without their CR.
fn texts_of(alloc: Global, pieces: &[&str], are_lines: bool) -> Result<Vec<Text>, NoMemory>
    ensures { IfOk result (λ ts. ts.items ≡ spec.ended are_lines (map (λ x. x.now) pieces.now)) }
{
    let mut texts = Vec::with_capacity(alloc, pieces.len())?;
    for piece in pieces {
        texts.push(Text::of_str(alloc, ended(piece, are_lines))?)?;
    }
    Ok(texts)
}

/// The piece; of a line what stands before a CR at its end.
fn ended(piece: &str, is_line: bool) -> &str
    ensures { result.now ≡ spec.ended_one is_line piece.now }
{
    if is_line { without_cr(piece) } else { piece }
}

fn without_cr(line: &str) -> &str
    ensures { result.now ≡ spec.without_cr line.now }
{
    match line.strip_suffix('\r') {
        Some(front) => front,
        None => line,
    }
}
