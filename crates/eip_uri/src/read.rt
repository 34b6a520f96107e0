ghost use Rattle.std.specs.Prelude.{◌≡◌, [], IfOk, IsTrue, option_map};
ghost use Rattle.eip_text.specs.Counts.{count_of};
ghost use Rattle.eip_text.specs.Cuts as cuts;
ghost use Rattle.eip_uri.specs.Options.{now_entries, within};
ghost use Rattle.eip_uri.specs.Printed.{printed};
ghost use Rattle.eip_uri.specs.Ranges.{is_uri};
ghost use Rattle.eip_uri.specs.Reading as spec;

use crate::fault::UriFault;
use crate::options::Options;
use crate::scheme::{Scheme, count_within, is_folder};
use crate::uri::{After, Exist, Uri};
use eip_text::cuts::{behind, cut};
use eip_text::{NoMemory, Text, is_name};
use std::alloc::Global;

impl Uri {
    /// The endpoint that a text and its parameters name (Camel manual, *URIs*), or the first fault.
    ///
    /// A URI is `SCHEME:REST`, optionally followed by `?` and options `name=value` joined by `&`;
    /// the parameters are further options. The faults, first in this order:
    /// - `BadUri(0)` without a colon,
    /// - `UnknownScheme`,
    /// - `BadUri` with the byte behind the colon, where REST isn't of the scheme's form,
    /// - the first faulty option: `BadOption` of its whole text without `=`, `UnknownOption` with a
    ///   name that the scheme doesn't have, `DoubleOption` where it is repeated, `BadOption` with a
    ///   value that it may not have,
    /// - `BadOption` of `delete` with `noop`, and of `move` with either of them.
    #[tactic(auto, unfolding(crate::specs::Reading::read))]
    pub fn read(alloc: Global, text: &Text, parameters: &[(Text, Text)]) -> Result<Uri, UriFault>
        ensures reads { spec.Says result (spec.read text.now parameters.now) }
        ensures ranged { IfOk result (λ u. IsTrue (is_uri u)) }
        ensures again { IfOk result (λ u. spec.read (printed u) [] ≡ Ok u) }
    {
        let Some((name, rest)) = cut(text.as_str(), ':') else {
            return Err(UriFault::BadUri(0));
        };
        let Some(scheme) = Scheme::named(name) else {
            return Err(UriFault::UnknownScheme);
        };
        let (place, query) = split_query(rest);
        let Some(uri) = plain(alloc, scheme, unslashed(place))? else {
            return Err(UriFault::BadUri(name.len() + 1));
        };
        let options = Options::read(alloc, scheme, query, parameters)?;
        uri.with_options(alloc, &options)
    }

    /// The URI with the options that are given.
    #[tactic(auto, unfolding(crate::specs::Reading::with_options))]
    fn with_options(self, alloc: Global, options: &Options) -> Result<Uri, UriFault>
        ensures { spec.Says result (spec.with_options self (now_entries options.now.given.items)) }
    {
        match &self {
            Uri::Seda {
                name,
                size,
                consumers,
                ..
            } => Ok(Uri::Seda {
                name: name.copy()?,
                size: options.count("size", *size),
                consumers: options.count("concurrentConsumers", *consumers),
                discard: options.flag("discardWhenFull"),
            }),
            Uri::File { folder, .. } => file(alloc, folder.copy()?, options),
            _ => Ok(self),
        }
    }
}

/// The text before a query, and the query.
fn split_query(rest: &str) -> (&str, Option<&str>)
    ensures front { result.0.now ≡ (spec.split_query rest.now).0 }
    ensures query { option_map (λ x. x.now) result.1 ≡ (spec.split_query rest.now).1 }
{
    match cut(rest, '?') {
        None => (rest, None),
        Some((front, query)) => (front, Some(query)),
    }
}

/// A text without the two slashes in front.
fn unslashed(rest: &str) -> &str
    ensures { result.now ≡ spec.unslashed rest.now }
{
    match behind(rest, "//") {
        None => rest,
        Some(more) => more,
    }
}

/// The URI that this text names, each option at its default.
#[tactic(auto, unfolding(crate::specs::Reading::plain))]
fn plain(alloc: Global, scheme: Scheme, rest: &str) -> Result<Option<Uri>, NoMemory>
    ensures { IfOk result (λ u. u ≡ spec.plain scheme rest.now) }
{
    match scheme {
        Scheme::File => plain_file(alloc, rest),
        Scheme::Stream if rest == "in" => Ok(Some(Uri::StreamIn)),
        Scheme::Stream => Ok(None),
        Scheme::Line => line(alloc, rest),
        Scheme::Load => Ok(load(rest)),
        _ if !is_name(rest.as_bytes()) => Ok(None),
        Scheme::Direct => Ok(Some(Uri::Direct(Text::of_str(alloc, rest)?))),
        Scheme::Seda => Ok(Some(Uri::Seda {
            name: Text::of_str(alloc, rest)?,
            size: 1000,
            consumers: 1,
            discard: false,
        })),
        Scheme::Log => Ok(Some(Uri::Log(Text::of_str(alloc, rest)?))),
        Scheme::Lane => Ok(Some(Uri::Lane(Text::of_str(alloc, rest)?))),
    }
}

#[tactic(auto, unfolding(crate::specs::Reading::plain))]
fn plain_file(alloc: Global, folder: &str) -> Result<Option<Uri>, NoMemory>
    ensures { IfOk result (λ u. u ≡ spec.plain Scheme.File folder.now) }
{
    if !is_folder(folder) || behind(folder, "//").is_some() {
        return Ok(None);
    }
    Ok(Some(Uri::File {
        folder: Text::of_str(alloc, folder)?,
        after: After::Move(Text::of_str(alloc, ".camel")?),
        failed: None,
        exist: Exist::Override,
    }))
}

/// A host and a port, or the word `listen` and a port.
fn line(alloc: Global, rest: &str) -> Result<Option<Uri>, NoMemory>
    ensures { IfOk result (λ u. u ≡ spec.line_parts (cuts.cut 58 rest.now)) }
{
    let Some((host, port)) = cut(rest, ':') else {
        return Ok(None);
    };
    let Some(port) = port_of(port) else {
        return Ok(None);
    };
    if host == "listen" {
        return Ok(Some(Uri::Listen(port)));
    }
    if !is_name(host.as_bytes()) {
        return Ok(None);
    }
    Ok(Some(Uri::Line {
        host: Text::of_str(alloc, host)?,
        port,
    }))
}

fn port_of(text: &str) -> Option<u16>
    ensures { result ≡ within 1 65535 (count_of text.now) }
{
    match count_within(text, 1, 65_535) {
        None => None,
        Some(number) => u16::try_from(number).ok(),
    }
}

#[tactic(auto, unfolding(crate::specs::Reading::plain))]
fn load(rest: &str) -> Option<Uri>
    ensures { result ≡ spec.plain Scheme.Load rest.now }
{
    match count_within(rest, 1, 20_000) {
        None => None,
        Some(count) => Some(Uri::Load(count)),
    }
}

/// The URI of this folder with the options that are given.
fn file(alloc: Global, folder: Text, options: &Options) -> Result<Uri, UriFault>
    ensures { spec.Says result (spec.file_with folder (now_entries options.now.given.items)) }
{
    let noop = options.flag("noop");
    let delete = options.flag("delete");
    let to = options.value("move");
    if delete && noop {
        return Err(UriFault::BadOption(Text::of_str(alloc, "delete")?));
    }
    if to.is_some() && (noop || delete) {
        return Err(UriFault::BadOption(Text::of_str(alloc, "move")?));
    }
    Ok(Uri::File {
        folder,
        after: after(alloc, noop, delete, to)?,
        failed: copied(alloc, options.value("moveFailed"))?,
        exist: options.exist(),
    })
}

/// What becomes of a file, where these three options stand so.
fn after(alloc: Global, noop: bool, delete: bool, to: Option<&str>) -> Result<After, NoMemory>
    ensures { IfOk result (λ a. a ≡ spec.after_given noop delete (option_map (λ x. x.now) to.entry)) }
{
    if noop {
        return Ok(After::Noop);
    }
    if delete {
        return Ok(After::Delete);
    }
    Ok(After::Move(Text::of_str(alloc, to.unwrap_or(".camel"))?))
}

fn copied(alloc: Global, text: Option<&str>) -> Result<Option<Text>, NoMemory>
    ensures { IfOk result (λ t. t ≡ option_map (λ x. x.now) text.entry) }
{
    match text {
        None => Ok(None),
        Some(text) => Ok(Some(Text::of_str(alloc, text)?)),
    }
}
