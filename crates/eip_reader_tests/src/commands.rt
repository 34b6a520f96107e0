use eip_command::{
    Command, Form, OptionRule, Path, Rule, WordsFault, fault_line, read_words, value_of,
};
use eip_route_grammar::{Cause, RouteFault};
use eip_test_support::{holds, texts};
use eip_text::{NoMemory, Text};
use std::alloc::Global;
use std::test::Fail;

/// Words that are a command, the folder and the name of its file, and its limit on turns.
static COMMANDS: [(&[&str], &str, &str, Option<u32>); 10] = [
    (&["drain", "r.json"], ".", "r.json", Some(100_000)),
    (&["drain", "a/b/r.json"], "a/b", "r.json", Some(100_000)),
    (&["drain", "/r.json"], "/", "r.json", Some(100_000)),
    (&["drain", "/a/r.json"], "/a", "r.json", Some(100_000)),
    (&["drain", "a//r.json"], "a/", "r.json", Some(100_000)),
    (&["drain", "drain"], ".", "drain", Some(100_000)),
    (&["drain", "r.json", "--turns", "1"], ".", "r.json", Some(1)),
    (
        &["drain", "r.json", "--turns", "50"],
        ".",
        "r.json",
        Some(50),
    ),
    (
        &["drain", "r.json", "--turns", "1000000"],
        ".",
        "r.json",
        Some(1_000_000),
    ),
    (&["check", "a/r.json"], "a", "r.json", None),
];

/// The word of a command, its first file, and its limit on turns or its number of items.
fn parts(command: &Command) -> (&str, Option<&Path>, Option<u32>) {
    match command {
        Command::Drain { routes, turns, .. } => ("drain", Some(routes), Some(*turns)),
        Command::Check { routes } => ("check", Some(routes), None),
        Command::Audit { routes, .. } => ("audit", Some(routes), None),
        Command::Load { items, .. } => ("load", None, Some(*items)),
        Command::Migrate { old, .. } => ("migrate", Some(old), None),
    }
}

/// The second file of a command that names two.
fn second_file(command: &Command) -> Option<&Path> {
    match command {
        Command::Audit { journal, .. } => Some(journal),
        Command::Migrate { new, .. } => Some(new),
        _ => None,
    }
}

/// Words of two files, and the folder and the name of the second one.
static TWO_FILES: [(&[&str], &str, &str); 2] = [
    (&["audit", "a/r.json", "b/j"], "b", "j"),
    (&["migrate", "b/j", "k"], ".", "k"),
];

/// The command that words are.
fn read(alloc: Global, words: &[&str]) -> Result<Command, WordsFault> {
    let words = texts(alloc, words)?;
    read_words(alloc, &words)
}

/// Whether a file is named, in this folder and by this name.
fn is_at(file: Option<&Path>, folder: &str, name: &str) -> bool {
    match file {
        Some(file) => file.folder.as_str() == folder && file.name.as_str() == name,
        None => false,
    }
}

#[test]
fn an_audit_and_a_migration_name_a_second_file(rt: HostRuntime) -> Result<(), Fail> {
    for &(words, folder, name) in &TWO_FILES {
        let command = read(rt.alloc(), words)?;
        assert!(rt; is_at(second_file(&command), folder, name), "of {name}");
    }
    Ok(())
}

#[test]
fn a_command_names_its_file_and_its_limit_on_turns(rt: HostRuntime) -> Result<(), Fail> {
    for &(words, folder, name, limit) in &COMMANDS {
        let command = read(rt.alloc(), words)?;
        let (word, file, turns) = parts(&command);
        assert!(rt; word == words[0] && turns == limit, "of {name}");
        assert!(rt; is_at(file, folder, name), "of {name}");
    }
    Ok(())
}

/// Words of a drain or a load, and the number of workers that they name.
static BY_WORKERS: [(&[&str], u32); 8] = [
    (&["drain", "r.json"], 0),
    (&["drain", "r.json", "--workers", "0"], 0),
    (&["drain", "r.json", "--workers", "16"], 16),
    (&["drain", "r.json", "--workers", "2", "--turns", "5"], 2),
    (&["drain", "r.json", "--turns", "5", "--workers", "2"], 2),
    (
        &[
            "drain",
            "r.json",
            "--journal",
            "j",
            "--workers",
            "2",
            "--turns",
            "5",
        ],
        2,
    ),
    (&["load", "10", "0"], 0),
    (&["load", "10", "4"], 4),
];

/// The number of workers of a command.
fn workers(command: &Command) -> Option<u32> {
    match command {
        Command::Drain { workers, .. } | Command::Load { workers, .. } => Some(*workers),
        _ => None,
    }
}

#[test]
fn a_drain_and_a_load_name_their_workers(rt: HostRuntime) -> Result<(), Fail> {
    for &(words, number) in &BY_WORKERS {
        let command = read(rt.alloc(), words)?;
        assert!(rt; workers(&command) == Some(number));
    }
    Ok(())
}

/// Words that are no command.
static NO_COMMANDS: [&[&str]; 36] = [
    &[],
    &["drain"],
    &["drain", "r.json", "--turns", "0"],
    &["drain", "r.json", "--turns", "1000001"],
    &["drain", "r.json", "--turns", "05"],
    &["drain", "r.json", "--turns", "+5"],
    &["drain", "r.json", "--turns", "5", "--turns", "5"],
    &["drain", "r.json", "--turns"],
    &["drain", "r.json", "--turns=5"],
    &["drain", "r.json", "5"],
    &["check", "r.json", "--turns", "5"],
    &["audit", "r.json"],
    &["audit", "r.json", "j/"],
    &["audit", "r.json", "j", "--turns", "5"],
    &["audit", "r.json", "j", "k"],
    &["migrate", "j"],
    &["migrate", "j", "-k"],
    &["drain", "--turns", "5", "r.json", "--turns", "5"],
    &["check"],
    &["check", "r.json", "r.json"],
    &["Drain", "r.json"],
    &["drain", ""],
    &["drain", "-x"],
    &["drain", "a/"],
    &["check", "/"],
    &["r.json", "drain"],
    &["load", "0", "0"],
    &["load", "20001", "0"],
    &["load", "10", "17"],
    &["load", "10", "01"],
    &["load", "10"],
    &["drain", "r.json", "--workers", "17"],
    &["drain", "r.json", "--workers", "01"],
    &["drain", "r.json", "--workers", "2", "--workers", "2"],
    &["drain", "r.json", "--workers"],
    &["check", "r.json", "--workers", "2"],
];

/// Whether words are refused.
fn is_refused(alloc: Global, words: &[&str]) -> Result<bool, NoMemory> {
    match read(alloc, words) {
        Ok(_) => Ok(false),
        Err(WordsFault::Refused) => Ok(true),
        Err(WordsFault::NoMemory) => Err(NoMemory),
    }
}

#[test]
fn other_words_are_no_command(rt: HostRuntime) -> Result<(), Fail> {
    for words in &NO_COMMANDS {
        holds(is_refused(rt.alloc(), words))?;
    }
    Ok(())
}

/// The form `listen ROUTES CONNECTIONS [--turns N] [--journal FILE]`.
const LISTEN: Form = Form {
    word: "listen",
    operands: &[Rule::Path, Rule::Count(1, 8)],
    options: &[
        OptionRule {
            word: "--turns",
            value: Rule::Count(1, 1_000_000),
        },
        OptionRule {
            word: "--journal",
            value: Rule::Path,
        },
    ],
};

/// Words, and whether they go by that form.
static LISTENING: [(&[&str], bool); 19] = [
    (&["r.json", "1"], true),
    (&["r.json", "8", "--turns", "1000000"], true),
    (&["r.json", "8", "--turns", "1", "--journal", "a/j"], true),
    (&["r.json", "8", "--journal", "j", "--turns", "1"], true),
    (&[], false),
    (&["r.json"], false),
    (&["8", "r.json"], false),
    (&["r.json", "0"], false),
    (&["r.json", "9"], false),
    (&["r.json", "08"], false),
    (&["r.json", "+8"], false),
    (&["r.json", "8", "--turns"], false),
    (&["r.json", "8", "--turns", "0"], false),
    (&["r.json", "8", "--turns", "1000001"], false),
    (&["r.json", "8", "--turns=5"], false),
    (&["r.json", "8", "--turns", "5", "--turns", "5"], false),
    (&["r.json", "8", "--workers", "5"], false),
    (&["r.json", "8", "--journal", "a/"], false),
    (&["--turns", "5", "r.json", "8"], false),
];

#[test]
fn options_come_behind_the_operands_in_pairs_each_once(rt: HostRuntime) -> Result<(), Fail> {
    for &(words, is_admitted) in &LISTENING {
        assert!(rt; LISTEN.admits(&texts(rt.alloc(), words)?) == is_admitted);
    }
    Ok(())
}

/// Whether the value of an option among these pairs is this one.
fn is_value(pairs: &[Text], option: &str, wanted: &str) -> bool {
    match value_of(pairs, option) {
        Some(value) => value.as_str() == wanted,
        None => false,
    }
}

#[test]
fn an_option_has_the_word_behind_it(rt: HostRuntime) -> Result<(), Fail> {
    let pairs = texts(rt.alloc(), &["--journal", "j", "--turns", "5"])?;
    assert!(rt; is_value(&pairs, "--turns", "5"));
    assert!(rt; is_value(&pairs, "--journal", "j"));
    assert!(rt; value_of(&pairs, "5").is_none());
    Ok(())
}

#[test]
fn a_fault_is_told_in_one_line(rt: HostRuntime) -> Result<(), Fail> {
    let alloc = rt.alloc();
    let fault = RouteFault {
        path: Text::of_str(alloc, "$[0].from.uri")?,
        cause: Cause::BadUri(7),
    };
    assert!(rt; fault_line(alloc, &fault)?.as_str() == "error routes $[0].from.uri BadUri 7\n");
    Ok(())
}
