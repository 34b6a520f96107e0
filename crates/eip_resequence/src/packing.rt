ghost use Rattle.std.specs.Prelude.{◌≡◌, IfOk, OnOk, string_bytes};
ghost use Rattle.eip_text.specs.JsonText.{json_text, value_tokens, Wrote};
ghost use Rattle.eip_resequence.specs.Packing.{pairs_json, packed_json, list_json, pack_text};

use crate::lists::written;
use crate::packed::Packed;
use eip_text::{NoMemory, Text};
use json::Writer;
use std::alloc::Global;

/// The messages in one text: the compact JSON list (RFC 8259) of an object for each, whose members are `b`, the body,
/// and `h` and `p`, the lists of the names and values of the headers and of the properties in turn.
pub fn pack(alloc: Global, list: &[Packed]) -> Result<Text, NoMemory>
    ensures { IfOk result (λ t. t ≡ pack_text list.now) }
{
    let mut writer = Writer::new(Vec::new(alloc));
    write_list(&mut writer, list)?;
    Ok(Text::of(written(writer)))
}

/// The object of one message, as it stands in the packed text of a list.
pub fn object_text(alloc: Global, packed: &Packed) -> Result<String, NoMemory>
    ensures { IfOk result (λ s. string_bytes s ≡ json_text (packed_json packed.now)) }
{
    let mut writer = Writer::new(Vec::new(alloc));
    write_packed(&mut writer, packed)?;
    Ok(written(writer))
}

fn write_list(writer: &mut Writer, list: &[Packed]) -> Result<(), NoMemory>
    ensures { OnOk result (Wrote (value_tokens (list_json list.now)) writer.old writer.new) }
{
    writer.begin_array()?;
    for packed in list {
        write_packed(writer, packed)?;
    }
    Ok(writer.end_array()?)
}

fn write_packed(writer: &mut Writer, packed: &Packed) -> Result<(), NoMemory>
    ensures { OnOk result (Wrote (value_tokens (packed_json packed.now)) writer.old writer.new) }
{
    writer.begin_object()?;
    writer.key("b")?;
    writer.string(packed.body.as_str())?;
    writer.key("h")?;
    write_pairs(writer, packed.headers.items())?;
    writer.key("p")?;
    write_pairs(writer, packed.properties.items())?;
    Ok(writer.end_object()?)
}

fn write_pairs(writer: &mut Writer, pairs: &[(Text, Text)]) -> Result<(), NoMemory>
    ensures { OnOk result (Wrote (value_tokens (pairs_json pairs.now)) writer.old writer.new) }
{
    writer.begin_array()?;
    for (name, value) in pairs {
        writer.string(name.as_str())?;
        writer.string(value.as_str())?;
    }
    Ok(writer.end_array()?)
}
