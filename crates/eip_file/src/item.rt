ghost use Rattle.std.specs.Prelude.{◌≡◌, ◌≤◌, length, drop, IfOk, IfSome};
ghost use Rattle.eip_text.specs.Causes.{Rises};
ghost use Rattle.eip_exchange.specs.Limits.{IsGivable};
ghost use Rattle.eip_endpoint.specs.Files.{IsWithin};
ghost use Rattle.eip_endpoint.specs.Pulls.{IsFair};
ghost use Rattle.eip_file.specs.Items.{message_of, IsNamed, IsOfFile, GivenBy, ReadFile, TakesFile, failure_in};

use eip_endpoint::{FileRead, Files, FilesFault, PullFault, Pulled, Refusal};
use eip_exchange::{HeaderFault, Headers, Message, Properties};
use eip_text::{NoMemory, Text, TextFault};
use std::alloc::Global;

/// The most bytes that a body or a name may have, 65,536.
const LONGEST: usize = 65_536;

/// The header that holds the name of a message's file (Camel manual, *File*).
const FILE_NAME: &str = "CamelFileName";

/// The message of a file: its bytes are the body, and the one header holds its name.
fn message_of(alloc: Global, name: &Text, body: Text) -> Result<Message, NoMemory>
    requires body { length body ≤ 65536 }
    requires name { length name.now ≤ 65536 }
    ensures message { IfOk result (λ m. m ≡ message_of name.now body) }
    ensures givable { IfOk result IsGivable }
{
    let header = Text::of_str(alloc, FILE_NAME)?;
    let value = name.copy()?;
    let mut headers = Headers::new(alloc);
    match headers.set(header, value) {
        Ok(()) => Ok(Message {
            body,
            headers,
            properties: Properties::new(alloc),
        }),
        Err(HeaderFault::TooManyHeaders) => unreachable!(),
        Err(HeaderFault::NoMemory) => Err(NoMemory),
    }
}

/// What a file of this name and these bytes gives.
fn pulled_of(alloc: Global, name: &Text, bytes: &[u8]) -> Result<Pulled, NoMemory>
    requires { length bytes.now ≤ 65536 }
    ensures file { IfOk result (IsOfFile name.now bytes.now) }
    ensures named { IfOk result (IsNamed name.now) }
    ensures fair { IfOk result IsFair }
{
    let item = name.copy()?;
    if name.bytes().len() > LONGEST {
        let cause = Refusal::TooLong;
        return Ok(Pulled::Refused { item, cause });
    }
    match Text::read(alloc, bytes) {
        Ok(body) => {
            let message = message_of(alloc, name, body)?;
            Ok(Pulled::Item { item, message })
        }
        Err(TextFault::NotText) => {
            let cause = Refusal::NotText;
            Ok(Pulled::Refused { item, cause })
        }
        Err(TextFault::NoMemory) => Err(NoMemory),
    }
}

/// What reading a file answered, as what a pull gives; a file that is not there gives nothing.
fn given_by(alloc: Global, name: &Text, read: &FileRead) -> Result<Option<Pulled>, NoMemory>
    requires { IsWithin 65536 read.now }
    ensures given { IfOk result (GivenBy name.now read.now) }
    ensures fair { IfOk result (λ p. IfSome p IsFair) }
{
    match read {
        FileRead::Bytes(bytes) => Ok(Some(pulled_of(alloc, name, bytes.items())?)),
        FileRead::Missing => Ok(None),
        FileRead::TooLong => {
            let item = name.copy()?;
            let cause = Refusal::TooLong;
            Ok(Some(Pulled::Refused { item, cause }))
        }
    }
}

/// Reads the file of a name: what it gives, or nothing where it is not there.
fn read_file<F: Files>(
    alloc: Global,
    files: &mut F,
    folder: &Text,
    name: &Text,
) -> Result<Option<Pulled>, PullFault>
    ensures read { IfOk result (ReadFile folder.now name.now (F.files files.old)) }
    ensures fair { IfOk result (λ p. IfSome p IsFair) }
    ensures same { F.files files.new ≡ F.files files.old }
    ensures faults { Rises (failure_in result) (F.files_faults files.old) (F.files_faults files.new) }
{
    match files.read(folder, name, LONGEST) {
        Ok(read) => match given_by(alloc, name, &read) {
            Ok(given) => Ok(given),
            Err(NoMemory) => Err(PullFault::NoMemory),
        },
        Err(FilesFault::Failed) => Err(PullFault::Failed),
        Err(FilesFault::NoMemory) => Err(PullFault::NoMemory),
    }
}

/// The first of these names whose file is there: how many names that takes, and what the file gives. Where none is
/// there it takes them all, and gives the end.
pub fn find_next<F: Files>(
    alloc: Global,
    files: &mut F,
    folder: &Text,
    names: &[Text],
) -> Result<(usize, Pulled), PullFault>
    ensures within { IfOk result (λ r. r.0 ≤ length names.now) }
    ensures takes { IfOk result (λ r. TakesFile folder.now (F.files files.old) names.now r.1 (drop r.0 names.now)) }
    ensures fair { IfOk result (λ r. IsFair r.1) }
    ensures same { F.files files.new ≡ F.files files.old }
    ensures faults { Rises (failure_in result) (F.files_faults files.old) (F.files_faults files.new) }
{
    for (place, name) in names.iter().enumerate() {
        match read_file(alloc, files, folder, name) {
            Ok(Some(pulled)) => return Ok((place + 1, pulled)),
            Ok(None) => {}
            Err(fault) => return Err(fault),
        }
    }
    Ok((names.len(), Pulled::End))
}
