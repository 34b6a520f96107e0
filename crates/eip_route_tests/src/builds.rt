// Which patterns a route file asks its builder for, by a builder that counts.
ghost use Rattle.std.specs.Prelude.{◌≡◌, ◌<◌, ◌++◌, ◌∷◌, [], Some, vec_len, vec_capacity};

use crate::support::{Handed, names};
use eip_route_json::{RouteRefusal, read_routes};
use eip_simple_read::{Build, CratePatterns, Pattern, PatternFault, Patterns};
use eip_text::{NoMemory, Text};
use std::alloc::Global;
use std::test::*;

/// Builds patterns with the crate `regex`, and keeps each build.
#[derive(Drop)]
struct CountingPatterns {
    inner: CratePatterns,
    builds: Vec<Build>,
}

impl CountingPatterns {
    /// Keeps a build, for which there is room.
    fn keep(&mut self, text: Text, is_built: bool)
        requires { vec_len self.old.builds < vec_capacity self.old.builds }
        ensures builds { self.new.builds.items ≡ self.old.builds.items ++ record { text = text; is_built = is_built } ∷ [] }
        ensures inner { self.new.inner ≡ self.old.inner }
    {
        self.builds.push(Build { text, is_built }).unwrap();
    }
}

impl Patterns for CountingPatterns {
    ghost pattern_faults = { λ p. p.inner.faults };

    ghost pattern_builds = { λ p. Some p.builds.items };

    fn build(&mut self, alloc: Global, text: &Text) -> Result<Pattern, PatternFault> {
        self.builds.reserve(1)?;
        let kept = text.copy()?;
        match self.inner.build(alloc, text) {
            Ok(pattern) => {
                self.keep(kept, true);
                Ok(pattern)
            }
            Err(PatternFault::Bad) => {
                self.keep(kept, false);
                Err(PatternFault::Bad)
            }
            Err(PatternFault::TooLarge) => {
                self.keep(kept, false);
                Err(PatternFault::TooLarge)
            }
            Err(PatternFault::NoMemory) => Err(PatternFault::NoMemory),
        }
    }
}

/// The builds: each pattern's text, with a `+` where it was built and a `-` where it was refused.
fn line_of(alloc: Global, builds: &[Build]) -> Result<String, NoMemory> {
    let mut line = String::new(alloc);
    for build in builds {
        line.push_str(build.text.as_str())?;
        line.push_str(if build.is_built { "+ " } else { "- " })?;
    }
    Ok(line)
}

/// What a builder was asked for where it read this file and refused the build with this number, from 1.
fn asked(alloc: Global, file: &str, refused: u64) -> Result<String, NoMemory> {
    let names = names(alloc, Handed::OneOfEach)?;
    let mut patterns = CountingPatterns {
        inner: CratePatterns::new(vec![in alloc; refused]?),
        builds: Vec::new(alloc),
    };
    match read_routes(alloc, file.as_bytes(), &names, &mut patterns) {
        Ok(set) => drop(set),
        Err(RouteRefusal::Refused(fault)) => drop(fault),
        Err(RouteRefusal::NoMemory) => return Err(NoMemory),
    }
    line_of(alloc, patterns.builds.as_slice())
}

/// The steps of a route, the number of the build that is refused, and the builds.
const ROWS: [(&str, u64, &str); 8] = [
    // each once, from the left, in a predicate and from step to step
    (
        r#"{"filter":{"simple":"${body} regex 'a' && ${body} regex 'b'","steps":[{"filter":{"simple":"${body} !regex 'c'","steps":[]}}]}}"#,
        0,
        "a+ b+ c+ ",
    ),
    // the same pattern at two places
    (
        r#"{"filter":{"simple":"${body} regex 'a' || ${header.h} regex 'a'","steps":[]}}"#,
        0,
        "a+ a+ ",
    ),
    // none behind one that is too large
    (
        r#"{"filter":{"simple":"${body} regex 'a' && ${body} regex 'b'","steps":[{"filter":{"simple":"${body} regex 'c'","steps":[]}}]}}"#,
        2,
        "a+ b- ",
    ),
    // none behind one that is no pattern
    (
        r#"{"filter":{"simple":"${body} regex 'a' && ${body} regex '(' && ${body} regex 'c'","steps":[]}}"#,
        0,
        "a+ (- ",
    ),
    // one that is no pattern, before a fault of the predicate
    (
        r#"{"filter":{"simple":"${body} regex '(' &&& ${body} regex 'c'","steps":[]}}"#,
        0,
        "(- ",
    ),
    // none behind a fault of the predicate
    (
        r#"{"filter":{"simple":"${body} regex 'a' &&& ${body} regex 'c'","steps":[]}}"#,
        0,
        "a+ ",
    ),
    // none behind a fault of the file
    (
        r#"{"filter":{"simple":"${body} regex 'a'","steps":[{"shout":"x"},{"filter":{"simple":"${body} regex 'b'","steps":[]}}]}}"#,
        0,
        "a+ ",
    ),
    // a step without predicates
    (r#"{"setBody":{"constant":"${body} regex 'a'"}}"#, 0, ""),
];

#[test]
fn each_pattern_is_asked_for_once_from_the_left(rt: HostRuntime) -> Result<(), Fail> {
    for &(step, refused, wanted) in &ROWS {
        let alloc = rt.alloc();
        let file = format!(in alloc;
            "[{{\"from\":{{\"uri\":\"stream:in\",\"steps\":[{step}]}}}}]"
        )?;
        let line = asked(alloc, file.as_str(), refused)?;
        assert!(rt; line.as_str() == wanted, "{line} at {step}");
    }
    Ok(())
}

#[test]
fn a_good_pattern_of_200_bytes_is_built(rt: HostRuntime) -> Result<(), Fail> {
    let alloc = rt.alloc();
    let mut pattern = String::new(alloc);
    for _ in 0..100 {
        pattern.push_str("ab")?;
    }
    let file = format!(in alloc;
        "[{{\"from\":{{\"uri\":\"stream:in\",\"steps\":[{{\"filter\":{{\"simple\":\"${{body}} regex '{pattern}'\",\"steps\":[]}}}}]}}}}]"
    )?;
    let line = asked(alloc, file.as_str(), 0)?;
    let wanted = format!(in alloc; "{pattern}+ ")?;
    assert!(rt; line.as_str() == wanted.as_str(), "{line}");
    Ok(())
}
