ghost use Rattle.std.specs.Prelude.{◌≡◌, List, ℕ, [], Ok, Some, None, true};
ghost use Rattle.eip_uri.specs.FirstFault.{AreSound, IsFirstFault};
ghost use Rattle.eip_uri.specs.Options.{Entry, first_fault};
ghost use Rattle.eip_uri.specs.Printed.{printed};
ghost use Rattle.eip_uri.specs.Ranges.{is_uri};
ghost use Rattle.eip_uri.specs.Reading.{read};
ghost use Rattle.eip_uri.specs.declared.fault.UriFault.{UriFault};
ghost use Rattle.eip_uri.specs.declared.scheme.Scheme.{Scheme};
ghost use Rattle.eip_uri.specs.declared.uri.Uri.{Uri};

/// The laws of the grammar. It does nothing.
/// - Each URI that a text with parameters is, is within the ranges of its form.
/// - Each URI within them is read again from its printed text.
/// - The first fault of options is that of an option before which none has one.
/// - Options without a first fault have none.
pub fn grammar_laws()
    ensures ranged { (text : List ℕ) (parameters : List (List ℕ × List ℕ)) (u : Uri)
        → read text parameters ≡ Ok u → is_uri u ≡ true }
    ensures again { (u : Uri) → is_uri u ≡ true → read (printed u) [] ≡ Ok u }
    ensures first { (s : Scheme) (es : List Entry) (f : UriFault)
        → first_fault s [] es ≡ Some f → IsFirstFault s es f }
    ensures sound { (s : Scheme) (es : List Entry) → first_fault s [] es ≡ None → AreSound s es }
{}
