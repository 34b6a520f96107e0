ghost use Rattle.std.specs.Prelude.{◌≡◌, ◌<◌, ◌++◌, ◌∷◌, IfOk, OnOk, codes, decimal, option_map, string_bytes};
ghost use Rattle.eip_uri.specs.Printed as spec;
ghost use Rattle.eip_uri.specs.Showing as showing;

use crate::uri::{After, Exist, Uri};
use eip_text::{NoMemory, Text};
use itoa::Buffer;
use std::alloc::Global;

/// An option and its value, or no value where it has its default, and then isn't printed.
#[derive(Clone, Copy)]
pub struct Shown<'t> {
    name: &'t str,
    value: Option<&'t str>,
}

impl Uri {
    /// The printed form: the scheme, a colon, the rest, and the options that differ from their
    /// default, in byte order of the name. `Uri::read` gives the same URI of it.
    #[tactic(auto, unfolding(crate::specs::Printed::printed))]
    pub fn print(&self, alloc: Global) -> Result<Text, NoMemory>
        ensures { IfOk result (λ t. t ≡ spec.printed self.now) }
    {
        match self {
            Uri::Direct(name) => named(alloc, "direct:", name),
            Uri::Seda {
                name,
                size,
                consumers,
                discard,
            } => print_seda(alloc, name, *size, *consumers, *discard),
            Uri::File {
                folder,
                after,
                failed,
                exist,
            } => print_file(alloc, folder, after, failed, *exist),
            Uri::StreamIn => Text::of_str(alloc, "stream:in"),
            Uri::Log(name) => named(alloc, "log:", name),
            Uri::Line { host, port } => print_line(alloc, host, *port),
            Uri::Listen(port) => numbered(alloc, "line:listen:", u32::from(*port)),
            Uri::Lane(name) => named(alloc, "lane:", name),
            Uri::Load(count) => numbered(alloc, "load:", *count),
        }
    }
}

fn front(alloc: Global, prefix: &str, name: &Text) -> Result<String, NoMemory>
    ensures { IfOk result (λ s. string_bytes s ≡ prefix.now ++ name.now) }
{
    let mut out = String::from_str(alloc, prefix)?;
    out.push_str(name.as_str())?;
    Ok(out)
}

fn named(alloc: Global, prefix: &str, name: &Text) -> Result<Text, NoMemory>
    ensures { IfOk result (λ t. t ≡ prefix.now ++ name.now) }
{
    Ok(Text::of(front(alloc, prefix, name)?))
}

fn numbered(alloc: Global, prefix: &str, number: u32) -> Result<Text, NoMemory>
    ensures { IfOk result (λ t. t ≡ prefix.now ++ decimal number) }
{
    let mut digits = Buffer::new();
    let mut out = String::from_str(alloc, prefix)?;
    out.push_str(digits.format(number))?;
    Ok(Text::of(out))
}

fn print_line(alloc: Global, host: &Text, port: u16) -> Result<Text, NoMemory>
    ensures { IfOk result (λ t. t ≡ codes "line:" ++ (host.now ++ (codes ":" ++ decimal port))) }
{
    let mut digits = Buffer::new();
    let mut out = front(alloc, "line:", host)?;
    out.push(':')?;
    out.push_str(digits.format(port))?;
    Ok(Text::of(out))
}

fn print_seda(
    alloc: Global,
    name: &Text,
    size: u32,
    consumers: u32,
    discard: bool,
) -> Result<Text, NoMemory>
    ensures { let options = spec.seda_options size consumers discard in
        IfOk result (λ t. t ≡ codes "seda:" ++ (name.now ++ spec.query 63 options)) }
{
    let mut consumers_digits = Buffer::new();
    let mut size_digits = Buffer::new();
    let options = [
        Shown {
            name: "concurrentConsumers",
            value: unless(consumers == 1, consumers_digits.format(consumers)),
        },
        Shown {
            name: "discardWhenFull",
            value: unless(!discard, "true"),
        },
        Shown {
            name: "size",
            value: unless(size == 1000, size_digits.format(size)),
        },
    ];
    with_query(front(alloc, "seda:", name)?, &options)
}

/// The value, unless it is the default one.
fn unless(is_default: bool, value: &str) -> Option<&str>
    ensures { option_map (λ x. x.now) result ≡ showing.unless is_default value.now }
{
    if is_default { None } else { Some(value) }
}

fn print_file<'u>(
    alloc: Global,
    folder: &Text,
    after: &'u After,
    failed: &'u Option<Text>,
    exist: Exist,
) -> Result<Text, NoMemory>
    ensures { let options = spec.file_options after.now failed.now exist in
        IfOk result (λ t. t ≡ codes "file:" ++ (folder.now ++ spec.query 63 options)) }
{
    let options = [
        Shown {
            name: "delete",
            value: delete_shown(after),
        },
        Shown {
            name: "fileExist",
            value: exist_shown(exist),
        },
        Shown {
            name: "move",
            value: move_shown(after),
        },
        Shown {
            name: "moveFailed",
            value: failed_shown(failed),
        },
        Shown {
            name: "noop",
            value: noop_shown(after),
        },
    ];
    with_query(front(alloc, "file:", folder)?, &options)
}

fn delete_shown(after: &After) -> Option<&'static str>
    ensures { option_map (λ x. x.now) result ≡ showing.delete_shown after.now }
{
    match after {
        After::Delete => Some("true"),
        _ => None,
    }
}

fn noop_shown(after: &After) -> Option<&'static str>
    ensures { option_map (λ x. x.now) result ≡ showing.noop_shown after.now }
{
    match after {
        After::Noop => Some("true"),
        _ => None,
    }
}

fn move_shown(after: &After) -> Option<&str>
    ensures { option_map (λ x. x.now) result ≡ showing.move_shown after.now }
{
    match after {
        After::Move(folder) => unless(folder.as_str() == ".camel", folder.as_str()),
        _ => None,
    }
}

fn failed_shown(failed: &Option<Text>) -> Option<&str>
    ensures { option_map (λ x. x.now) result ≡ failed.now }
{
    match failed {
        Some(folder) => Some(folder.as_str()),
        None => None,
    }
}

fn exist_shown(exist: Exist) -> Option<&'static str>
    ensures { option_map (λ x. x.now) result ≡ showing.exist_shown exist }
{
    match exist {
        Exist::Override => None,
        Exist::Append => Some("Append"),
        Exist::Fail => Some("Fail"),
        Exist::Ignore => Some("Ignore"),
    }
}

/// The text with those of the options that have a value.
fn with_query(mut out: String, options: &[Shown]) -> Result<Text, NoMemory>
    ensures { IfOk result (λ t. t ≡ string_bytes out ++ spec.query 63 (showing.shown options.now)) }
{
    let mut mark = '?';
    for option in options {
        if let Some(value) = option.value {
            push_option(&mut out, mark, option.name, value)?;
            mark = '&';
        }
    }
    Ok(Text::of(out))
}

fn push_option(out: &mut String, mark: char, name: &str, value: &str) -> Result<(), NoMemory>
    requires { mark < 128 }
    ensures { let option = mark ∷ (name.now ++ (61 ∷ value.now)) in
        OnOk result (string_bytes out.new ≡ string_bytes out.old ++ option) }
{
    out.push(mark)?;
    out.push_str(name)?;
    out.push('=')?;
    out.push_str(value)?;
    Ok(())
}
