ghost use Rattle.std.specs.Prelude.{◌≡◌, ◌++◌, ◌∷◌, [], map, IfOk, OnOk, IfErr, option_map, codes};
ghost use Rattle.std.specs.List.{list_any};
ghost use Rattle.std.specs.Str.{bytes_eq};
ghost use Rattle.eip_text.specs.Cuts.{pieces};
ghost use Rattle.eip_uri.specs.Options as spec;

use crate::fault::UriFault;
use crate::scheme::{Scheme, exist_of};
use crate::uri::Exist;
use eip_text::cuts::cut;
use eip_text::{Text, read_count};
use std::alloc::Global;

/// The options of a URI: each is one of its scheme's, stands once, and has a value that it may
/// have.
#[derive(Drop)]
pub struct Options<'t> {
    given: Vec<(&'t str, &'t str)>,
}

impl<'t> Options<'t> {
    /// The options of a query, where there is one, and those of the parameters behind them.
    pub fn read(
        alloc: Global,
        scheme: Scheme,
        query: Option<&'t str>,
        parameters: &'t [(Text, Text)],
    ) -> Result<Options<'t>, UriFault>
        ensures read { let es = spec.entries (option_map (λ x. x.now) query.entry) parameters.now in
            IfOk result (λ o. spec.now_entries o.given.items ≡ es) }
        ensures sound { let es = spec.entries (option_map (λ x. x.now) query.entry) parameters.now in
            OnOk result (spec.first_fault scheme [] es ≡ None) }
        ensures fault { let es = spec.entries (option_map (λ x. x.now) query.entry) parameters.now in
            IfErr result (λ e. spec.IsFault e (spec.first_fault scheme [] es)) }
    {
        let mut options = Options {
            given: Vec::new(alloc),
        };
        options.add_any_query(alloc, scheme, query)?;
        options.add_parameters(alloc, scheme, parameters)?;
        Ok(options)
    }

    fn add_any_query(
        &mut self,
        alloc: Global,
        scheme: Scheme,
        query: Option<&'t str>,
    ) -> Result<(), UriFault>
        ensures { spec.Adds scheme (spec.now_entries self.old.given.items)
            (spec.query_entries (option_map (λ x. x.now) query.entry))
            (spec.now_entries self.new.given.items) result }
    {
        match query {
            None => Ok(()),
            Some(query) => self.add_query(alloc, scheme, query),
        }
    }

    fn add_query(&mut self, alloc: Global, scheme: Scheme, query: &'t str) -> Result<(), UriFault>
        ensures { spec.Adds scheme (spec.now_entries self.old.given.items)
            (map spec.entry (pieces 38 query.now))
            (spec.now_entries self.new.given.items) result }
    {
        let mut rest = query;
        while let Some((piece, more)) = cut(rest, '&') {
            self.add_piece(alloc, scheme, piece)?;
            rest = more;
        }
        self.add_piece(alloc, scheme, rest)
    }

    fn add_parameters(
        &mut self,
        alloc: Global,
        scheme: Scheme,
        parameters: &'t [(Text, Text)],
    ) -> Result<(), UriFault>
        ensures { spec.Adds scheme (spec.now_entries self.old.given.items)
            (map spec.pair_entry parameters.now)
            (spec.now_entries self.new.given.items) result }
    {
        for parameter in parameters {
            self.add(alloc, scheme, parameter.0.as_str(), parameter.1.as_str())?;
        }
        Ok(())
    }

    /// A piece of the query, cut at its first `=`.
    fn add_piece(&mut self, alloc: Global, scheme: Scheme, piece: &'t str) -> Result<(), UriFault>
        ensures { spec.AddsOne scheme (spec.now_entries self.old.given.items)
            (spec.entry piece.now)
            (spec.now_entries self.new.given.items) result }
    {
        let Some((name, value)) = cut(piece, '=') else {
            return Err(UriFault::BadOption(Text::of_str(alloc, piece)?));
        };
        self.add(alloc, scheme, name, value)
    }

    fn add(
        &mut self,
        alloc: Global,
        scheme: Scheme,
        name: &'t str,
        value: &'t str,
    ) -> Result<(), UriFault>
        ensures { spec.AddsOne scheme (spec.now_entries self.old.given.items)
            (name.now, Some value.now)
            (spec.now_entries self.new.given.items) result }
    {
        let Some(values) = scheme.values_of(name) else {
            return Err(UriFault::UnknownOption(Text::of_str(alloc, name)?));
        };
        if self.has(name) {
            return Err(UriFault::DoubleOption(Text::of_str(alloc, name)?));
        }
        if !values.has(value) {
            return Err(UriFault::BadOption(Text::of_str(alloc, name)?));
        }
        self.given.push((name, value))?;
        Ok(())
    }

    /// Whether the option of this name is given.
    pub fn has(&self, name: &str) -> bool
        ensures { result ≡ list_any (λ e. bytes_eq e.0 name.now) (spec.now_entries self.now.given.items) }
    {
        for option in &self.given {
            if option.0 == name {
                return true;
            }
        }
        false
    }

    /// The value of the option of this name.
    pub fn value(&self, name: &str) -> Option<&'t str>
        ensures { option_map (λ x. x.now) result
            ≡ spec.value_of name.now (spec.now_entries self.now.given.items) }
    {
        for option in &self.given {
            if option.0 == name {
                return Some(option.1);
            }
        }
        None
    }

    /// The number that the option of this name gives, or else `default`.
    pub fn count(&self, name: &str, default: u32) -> u32
        ensures { let value = spec.value_of name.now (spec.now_entries self.now.given.items) in
            result ≡ spec.count_given value default }
    {
        match self.value(name) {
            None => default,
            Some(value) => read_count(value).unwrap_or(default),
        }
    }

    /// The flag that the option of this name gives, or else false.
    pub fn flag(&self, name: &str) -> bool
        ensures { let value = spec.value_of name.now (spec.now_entries self.now.given.items) in
            result ≡ spec.flag_given value }
    {
        match self.value(name) {
            None => false,
            Some(value) => value == "true",
        }
    }

    /// What the option `fileExist` gives, or else `Override`.
    pub fn exist(&self) -> Exist
        ensures { let word = spec.value_of (codes "fileExist") (spec.now_entries self.now.given.items) in
            result ≡ spec.exist_given word }
    {
        match self.value("fileExist") {
            None => Exist::Override,
            Some(word) => exist_of(word).unwrap_or(Exist::Override),
        }
    }
}
