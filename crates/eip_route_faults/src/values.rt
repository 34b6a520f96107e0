ghost use Rattle.std.specs.Prelude.{◌≡◌, ℕ, IfOk, Some, is_some, option_map};
ghost use Rattle.std.specs.List.{list_all};
ghost use Rattle.eip_text.specs.Numbers.{whole_of};
ghost use Rattle.eip_uri.specs.Options.{is_level};
ghost use Rattle.eip_uri.specs.Reading.{read};
ghost use Rattle.eip_simple_read.specs.Meaning.{template_of};
ghost use Rattle.eip_route.specs.Goals as goals;
ghost use Rattle.eip_route.specs.Valid as valid;
ghost use Rattle.eip_route_grammar.specs.Texts as texts;
ghost use Rattle.eip_route_faults.specs.Values as spec;

use eip_route::Names;
use eip_route_grammar::fault::Cause;
use eip_route_grammar::table::Rule;
use eip_route_grammar::texts::{last_segment, unhashed, whole};
use eip_simple_read::{Function, Part, SimpleFault, Template, read_template};
use eip_text::cuts::behind;
use eip_text::{NoMemory, Text, is_name};
use eip_uri::{Uri, UriFault};
use std::alloc::Global;

fn unless(ok: bool, cause: Cause) -> Option<Cause>
    ensures { result ≡ spec.unless ok cause }
{
    if ok { None } else { Some(cause) }
}

fn name_cause(text: &str) -> Option<Cause>
    ensures { result ≡ spec.name_cause text.now }
{
    unless(is_name(text.as_bytes()), Cause::BadName)
}

fn is_among(name: &str, names: &[Text]) -> bool
    ensures { result ≡ goals.is_among name.now names.now }
{
    names.iter().any(|other| other.as_str() == name)
}

/// `NotRegistered` unless this name is one of those that are handed in.
fn handed_in(alloc: Global, name: &str, names: &[Text]) -> Result<Option<Cause>, NoMemory>
    ensures { IfOk result (λ c. c ≡ spec.handed_in name.now names.now) }
{
    if is_among(name, names) {
        return Ok(None);
    }
    Ok(Some(Cause::NotRegistered(Text::of_str(alloc, name)?)))
}

fn registered(alloc: Global, name: &str, names: &[Text]) -> Result<Option<Cause>, NoMemory>
    ensures { IfOk result (λ c. c ≡ spec.registered name.now names.now) }
{
    if !is_name(name.as_bytes()) {
        return Ok(Some(Cause::BadName));
    }
    handed_in(alloc, name, names)
}

/// Whether the text is a kind of fault: 1 to 64 ASCII letters, digits, `_`, `-` and `$`.
#[tactic(auto, unfolding(eip_route::specs::Valid::is_kind))]
fn is_kind(text: &str) -> bool
    ensures { result ≡ valid.is_kind text.now }
{
    let bytes = text.as_bytes();
    1 <= bytes.len() && bytes.len() <= 64 && are_kind_bytes(bytes)
}

fn are_kind_bytes(bytes: &[u8]) -> bool
    ensures { result ≡ list_all valid.is_kind_byte bytes.now }
{
    bytes.iter().all(|byte| is_kind_byte(*byte))
}

fn is_kind_byte(byte: u8) -> bool
    ensures { result ≡ valid.is_kind_byte byte }
{
    byte.is_ascii_alphanumeric() || matches!(byte, b'_' | b'-' | b'$')
}

/// What is wrong with a URI.
pub fn uri_cause(fault: UriFault) -> Result<Cause, NoMemory>
    ensures { IfOk result (λ c. Some c ≡ spec.uri_cause fault) }
{
    match fault {
        UriFault::UnknownScheme => Ok(Cause::UnknownScheme),
        UriFault::BadUri(at) => Ok(Cause::BadUri(at)),
        UriFault::UnknownOption(name) => Ok(Cause::UnknownOption(name)),
        UriFault::BadOption(name) => Ok(Cause::BadOption(name)),
        UriFault::DoubleOption(name) => Ok(Cause::DoubleOption(name)),
        UriFault::NoMemory => Err(NoMemory),
    }
}

/// The lane that messages take to an endpoint.
fn lane(alloc: Global, uri: &Uri) -> Result<Option<Text>, NoMemory>
    ensures { IfOk result (λ l. l ≡ goals.lane_of uri.now) }
{
    match uri {
        Uri::File { .. } => Ok(Some(Text::of_str(alloc, "file")?)),
        Uri::Line { .. } => Ok(Some(Text::of_str(alloc, "line")?)),
        Uri::Lane(name) => Ok(Some(lane_text(alloc, name)?)),
        _ => Ok(None),
    }
}

fn lane_text(alloc: Global, name: &Text) -> Result<Text, NoMemory>
    ensures { IfOk result (λ t. Some t ≡ goals.lane_of (Uri.Lane name.now)) }
{
    let mut text = String::from_str(alloc, "lane:")?;
    text.push_str(name.as_str())?;
    Ok(Text::of(text))
}

/// `NotConsumer` where no route may begin with the endpoint, and `NotRegistered` where it needs an
/// inlet that isn't handed in.
fn consumer_cause(alloc: Global, names: &Names, uri: &Uri) -> Result<Option<Cause>, NoMemory>
    ensures { IfOk result (λ c. c ≡ spec.consumer_cause names.now uri.now) }
{
    if !uri.is_consumer() {
        return Ok(Some(Cause::NotConsumer));
    }
    match uri.inlet() {
        None => Ok(None),
        Some(inlet) => handed_in(alloc, inlet, names.inlets.items()),
    }
}

/// `NotProducer` where no message may go to the endpoint, and `NotRegistered` where it needs a lane
/// that isn't handed in.
fn producer_cause(alloc: Global, names: &Names, uri: &Uri) -> Result<Option<Cause>, NoMemory>
    ensures { IfOk result (λ c. c ≡ spec.producer_cause names.now uri.now) }
{
    if !uri.is_producer() {
        return Ok(Some(Cause::NotProducer));
    }
    match lane(alloc, uri)? {
        None => Ok(None),
        Some(lane) => handed_in(alloc, lane.as_str(), names.lanes.items()),
    }
}

fn consumer_at(
    alloc: Global,
    names: &Names,
    text: &Text,
    parameters: &[(Text, Text)],
) -> Result<Option<Cause>, NoMemory>
    ensures { IfOk result (λ c. c
        ≡ spec.read_cause (spec.consumer_cause names.now) (read text.now parameters.now)) }
{
    match Uri::read(alloc, text, parameters) {
        Ok(uri) => consumer_cause(alloc, names, &uri),
        Err(fault) => Ok(Some(uri_cause(fault)?)),
    }
}

fn producer_at(
    alloc: Global,
    names: &Names,
    text: &Text,
    parameters: &[(Text, Text)],
) -> Result<Option<Cause>, NoMemory>
    ensures { IfOk result (λ c. c
        ≡ spec.read_cause (spec.producer_cause names.now) (read text.now parameters.now)) }
{
    match Uri::read(alloc, text, parameters) {
        Ok(uri) => producer_cause(alloc, names, &uri),
        Err(fault) => Ok(Some(uri_cause(fault)?)),
    }
}

/// What is wrong with a text of the Simple language.
pub fn simple_cause(fault: SimpleFault) -> Result<Cause, NoMemory>
    ensures { IfOk result (λ c. Some c ≡ spec.simple_cause fault) }
{
    match fault {
        SimpleFault::BadSimple(at) => Ok(Cause::BadSimple(at)),
        SimpleFault::UnknownFunction(at) => Ok(Cause::UnknownFunction(at)),
        SimpleFault::BadPattern(at) => Ok(Cause::BadPattern(at)),
        SimpleFault::PatternTooLarge(at) => Ok(Cause::PatternTooLarge(at)),
        SimpleFault::NoMemory => Err(NoMemory),
    }
}

fn template_cause(alloc: Global, text: &Text) -> Result<Option<Cause>, NoMemory>
    ensures { IfOk result (λ c. c ≡ spec.spelled_cause (template_of text.now)) }
{
    match read_template(alloc, text) {
        Ok(_) => Ok(None),
        Err(fault) => Ok(Some(simple_cause(fault)?)),
    }
}

/// What is wrong with a text that is to be the body, a header or an exchange property in Simple.
fn order_key_cause(alloc: Global, text: &Text) -> Result<Option<Cause>, NoMemory>
    ensures { IfOk result (λ c. c ≡ spec.key_cause (template_of text.now)) }
{
    match read_template(alloc, text) {
        Ok(template) => Ok(unless(is_key(&template), Cause::BadValue)),
        Err(fault) => Ok(Some(simple_cause(fault)?)),
    }
}

fn is_key(template: &Template) -> bool
    ensures { result ≡ is_some (texts.key_of template.now) }
{
    match template.parts.items() {
        [part] => is_key_part(part),
        [] | [_, _, ..] => false,
    }
}

fn is_key_part(part: &Part) -> bool
    ensures { result ≡ is_some (texts.key_of_part part.now) }
{
    match part {
        Part::Plain(_) => false,
        Part::Call(function) => match function {
            Function::Body | Function::Header(_) | Function::Property(_) => true,
            Function::ExchangeId | Function::RouteId | Function::ExceptionMessage => false,
        },
    }
}

fn is_within(low: u32, high: u32, number: i128) -> bool
    ensures { result ≡ spec.is_within low high number }
{
    match u64::try_from(number) {
        Ok(number) => u64::from(low) <= number && number <= u64::from(high),
        Err(_) => false,
    }
}

fn is_count(low: u32, high: u32, number: Option<i64>) -> bool
    ensures { result ≡ spec.is_count low high number }
{
    match number {
        None => false,
        Some(number) => is_within(low, high, i128::from(number)),
    }
}

fn is_flag(text: &str) -> bool
    ensures { result ≡ spec.is_flag text.now }
{
    text == "true" || text == "false"
}

/// Whether the text is the name of an aggregation strategy (Camel manual, *Aggregate EIP*).
#[tactic(auto, unfolding(eip_route_grammar::specs::Texts::strategy_of))]
fn is_strategy(text: &str) -> bool
    ensures { result ≡ spec.is_strategy text.now }
{
    matches!(text, "original" | "latest" | "joined" | "grouped" | "sum")
        || behind(text, "joined:").is_some()
}

#[tactic(auto, unfolding(eip_uri::specs::Options::is_level))]
fn is_level_name(text: &str) -> bool
    ensures { result ≡ is_level text.now }
{
    matches!(text, "TRACE" | "DEBUG" | "INFO" | "WARN" | "ERROR")
}

/// What is wrong with a text, where these names are handed in and these parameters stand beside it.
/// A predicate is judged where it stands.
pub fn word_cause(
    alloc: Global,
    names: &Names,
    parameters: &[(Text, Text)],
    rule: Rule,
    text: &Text,
) -> Result<Option<Cause>, NoMemory>
    ensures { IfOk result (λ c. c ≡ spec.word_cause names.now parameters.now rule text.now) }
{
    let word = text.as_str();
    match rule {
        Rule::Word => Ok(None),
        Rule::Name => Ok(name_cause(word)),
        Rule::Repository => Ok(name_cause(unhashed(word))),
        Rule::Processor => registered(alloc, unhashed(word), names.processors.items()),
        Rule::StoredPredicate => registered(alloc, unhashed(word), names.predicates.items()),
        Rule::Consumer => consumer_at(alloc, names, text, parameters),
        Rule::Producer => producer_at(alloc, names, text, parameters),
        Rule::Template => template_cause(alloc, text),
        Rule::OrderKey => order_key_cause(alloc, text),
        Rule::Predicate => Ok(None),
        Rule::Constant => Ok(None),
        Rule::Flag => Ok(unless(is_flag(word), Cause::BadValue)),
        Rule::Count(low, high) => Ok(unless(is_count(low, high, whole(word)), Cause::BadValue)),
        Rule::Filled => Ok(unless(!word.is_empty(), Cause::BadValue)),
        Rule::WholeArray => Ok(unless(word == "$[*]", Cause::BadValue)),
        Rule::Strategy => Ok(unless(is_strategy(unhashed(word)), Cause::BadValue)),
        Rule::GroupStrategy => Ok(unless(is_group_strategy(unhashed(word)), Cause::BadValue)),
        Rule::ExceptionType => Ok(unless(is_kind(last_segment(word)), Cause::BadName)),
        Rule::Level => Ok(unless(is_level_name(word), Cause::BadValue)),
    }
}

fn is_group_strategy(text: &str) -> bool
    ensures { result ≡ spec.is_group_strategy text.now }
{
    text != "original" && is_strategy(text)
}

/// What is wrong with a whole number.
pub fn whole_cause(rule: Option<Rule>, number: i128) -> Option<Cause>
    ensures { result ≡ spec.whole_cause rule number }
{
    match rule {
        Some(Rule::Constant) => None,
        Some(Rule::Count(low, high)) => unless(is_within(low, high, number), Cause::BadValue),
        _ => Some(Cause::WrongKind),
    }
}

/// What is wrong with a truth value.
pub fn flag_cause(rule: Option<Rule>, flag: bool) -> Option<Cause>
    ensures { result ≡ spec.flag_cause rule flag }
{
    match rule {
        Some(Rule::Constant) => None,
        Some(Rule::Flag) => None,
        _ => Some(Cause::WrongKind),
    }
}
