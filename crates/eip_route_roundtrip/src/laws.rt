ghost use Rattle.std.specs.Prelude.{◌≡◌, ℕ, List, Some, None};
ghost use Rattle.std.specs.Str.{IsUtf8};
ghost use Rattle.eip_text.specs.Json.{Json, json_read};
ghost use Rattle.eip_route.specs.Nest.{flat_set};
ghost use Rattle.eip_route.specs.declared.route.Names.{Names as NamesGiven};
ghost use Rattle.eip_route_faults.specs.Sites.{first_fault};
ghost use Rattle.eip_route_file.specs.Later.{file_sites};
ghost use Rattle.eip_route_json.specs.Reading.{byte_sites, set_of};
ghost use Rattle.eip_route_values.specs.Sets.{nest};
ghost use Rattle.eip_route_canonical.specs.Canonical.{canonical_text};

/// What is printed of the set that a route file without a fault gives is JSON, however long, and the tree that it spells has
/// no fault and says that same set again. It does nothing.
pub fn printing_law()
    ensures { (names : NamesGiven) (bytes text : List ℕ) → first_fault (byte_sites names bytes) ≡ None
        → text ≡ canonical_text (set_of names bytes) → IsUtf8 text
        → (tree : Json) × (json_read text ≡ Some tree) × (first_fault (file_sites names tree) ≡ None)
        × (flat_set names (nest tree) ≡ set_of names bytes) }
{}
