ghost use Rattle.std.specs.Prelude.{◌≡◌, ◌≤◌, ◌∷◌, [], false, Some, IfOk, OnOk};
ghost use Rattle.std.specs.Fmt.{signed_decimal};
ghost use Rattle.json.specs.Token.{number};
ghost use Rattle.eip_text.specs.Json.{json, items_json, members_json, json_read};
ghost use Rattle.eip_text.specs.JsonText.{json_text, has_float, items_have_float, members_have_float, nesting, IsCanonical, value_tokens, items_tokens, members_tokens, Wrote};

use crate::memory::NoMemory;
use crate::text::Text;
use crate::tree::Tree;
use itoa::Buffer;
use json::Writer;
use std::alloc::Global;

/// The compact text (RFC 8259) of a tree: no spaces, and the members in their order.
pub fn print_json(alloc: Global, tree: &Tree) -> Result<Text, NoMemory>
    requires { has_float (json tree.now) ≡ false }
    ensures text { IfOk result (λ t. t ≡ json_text (json tree.now)) }
    ensures read_again { IfOk result (λ t. IsCanonical (json tree.now)
        → nesting (json tree.now) ≤ 127 → json_read t ≡ Some (json tree.now)) }
{
    let mut writer = Writer::new(Vec::new(alloc));
    write_tree(&mut writer, tree)?;
    let text = String::from_utf8(writer.into_inner()).unwrap();
    Ok(Text::of(text))
}

#[cycle(write)]
fn write_tree(writer: &mut Writer, tree: &Tree) -> Result<(), NoMemory>
    requires { has_float (json tree.now) ≡ false }
    ensures { OnOk result (Wrote (value_tokens (json tree.now)) writer.old writer.new) }
{
    match tree {
        Tree::Null => Ok(writer.null()?),
        Tree::Flag(flag) => Ok(writer.boolean(*flag)?),
        Tree::Whole(number) => write_whole(writer, *number),
        Tree::Float => unreachable!(),
        Tree::Word(text) => Ok(writer.string(text.as_str())?),
        Tree::List(items) => {
            writer.begin_array()?;
            write_items(writer, items.items())
        }
        Tree::Object(members) => {
            writer.begin_object()?;
            write_members(writer, members.items())
        }
    }
}

/// The items and the closing bracket.
#[cycle(write)]
fn write_items(writer: &mut Writer, items: &[Tree]) -> Result<(), NoMemory>
    requires { items_have_float (items_json items.now) ≡ false }
    ensures { OnOk result (Wrote (items_tokens (items_json items.now)) writer.old writer.new) }
{
    for item in items {
        write_tree(writer, item)?;
    }
    Ok(writer.end_array()?)
}

/// The members and the closing brace.
#[cycle(write)]
fn write_members(writer: &mut Writer, members: &[(Text, Tree)]) -> Result<(), NoMemory>
    requires { members_have_float (members_json members.now) ≡ false }
    ensures { OnOk result (Wrote (members_tokens (members_json members.now))
        writer.old writer.new) }
{
    for (key, member) in members {
        writer.key(key.as_str())?;
        write_tree(writer, member)?;
    }
    Ok(writer.end_object()?)
}

fn write_whole(writer: &mut Writer, whole: i128) -> Result<(), NoMemory>
    ensures { OnOk result (Wrote (number (signed_decimal whole) ∷ []) writer.old writer.new) }
{
    let mut digits = Buffer::new();
    writer.number(digits.format(whole))?;
    Ok(())
}
