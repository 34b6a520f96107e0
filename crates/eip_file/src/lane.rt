ghost use Rattle.std.specs.Prelude.{◌≡◌, true, IfOk, IsErrOf};
ghost use Rattle.eip_text.specs.Causes.{Rises};
ghost use Rattle.eip_frames.specs.Fits.{may_exist};
ghost use Rattle.eip_endpoint.specs.Content.{extended, IfTold};
ghost use Rattle.eip_endpoint.specs.Files.{is_there};
ghost use Rattle.eip_endpoint.specs.Calls.{made, failures};
ghost use Rattle.eip_file.specs.Sends.{untold_calls, Wrote, SentFile, SentTo, send_failure};

use eip_endpoint::{Endpoint, Files, FilesFault, SendFault};
use eip_exchange::Message;
use eip_frames::Target;
use eip_text::Text;
use eip_uri::Exist;

/// A lane that writes the body of each message to its target's file (Camel's component *File*, as a producer). It
/// tells no calls.
#[derive(Drop)]
pub struct FileLane<F> {
    pub files: F,
}

impl<F: Files> FileLane<F> {
    /// The lane that writes to these files.
    pub fn new(files: F) -> FileLane<F>
        ensures { result.files ≡ files }
    {
        FileLane { files }
    }
}

/// Writes a file, in place of what it held or behind that.
fn write<F: Files>(
    files: &mut F,
    folder: &Text,
    name: &Text,
    body: &[u8],
    append: bool,
) -> Result<(), SendFault>
    ensures written { Wrote folder.now name.now body.now append (F.files files.old) result (F.files files.new) }
    ensures faults { Rises (send_failure result) (F.files_faults files.old) (F.files_faults files.new) }
{
    match files.write(folder, name, body, append) {
        Ok(()) => Ok(()),
        Err(FilesFault::Failed) => Err(SendFault::Failed),
        Err(FilesFault::NoMemory) => Err(SendFault::NoMemory),
    }
}

/// Asks for a file.
fn has<F: Files>(files: &mut F, folder: &Text, name: &Text) -> Result<bool, SendFault>
    ensures has { IfOk result (λ there. IfTold (F.files files.old) (λ all. there ≡ is_there folder.now name.now all)) }
    ensures never_exists { ¬ (IsErrOf result SendFault.Exists) }
    ensures same { F.files files.new ≡ F.files files.old }
    ensures faults { Rises (send_failure result) (F.files_faults files.old) (F.files_faults files.new) }
{
    match files.has(folder, name) {
        Ok(there) => Ok(there),
        Err(FilesFault::Failed) => Err(SendFault::Failed),
        Err(FilesFault::NoMemory) => Err(SendFault::NoMemory),
    }
}

/// Writes a file that is not to be there.
fn write_new<F: Files>(
    files: &mut F,
    folder: &Text,
    name: &Text,
    body: &[u8],
) -> Result<(), SendFault>
    ensures sent { SentFile Exist.Fail folder.now name.now body.now (F.files files.old) result (F.files files.new) }
    ensures faults { Rises (send_failure result) (F.files_faults files.old) (F.files_faults files.new) }
{
    match has(files, folder, name) {
        Ok(true) => Err(SendFault::Exists),
        Ok(false) => write(files, folder, name, body, false),
        Err(fault) => Err(fault),
    }
}

/// Writes a file, unless it is there.
fn write_absent<F: Files>(
    files: &mut F,
    folder: &Text,
    name: &Text,
    body: &[u8],
) -> Result<(), SendFault>
    ensures sent { SentFile Exist.Ignore folder.now name.now body.now (F.files files.old) result (F.files files.new) }
    ensures faults { Rises (send_failure result) (F.files_faults files.old) (F.files_faults files.new) }
{
    match has(files, folder, name) {
        Ok(true) => Ok(()),
        Ok(false) => write(files, folder, name, body, false),
        Err(fault) => Err(fault),
    }
}

/// Writes a file, by what is to be done with one that is there.
fn put<F: Files>(
    files: &mut F,
    folder: &Text,
    name: &Text,
    body: &[u8],
    exist: Exist,
) -> Result<(), SendFault>
    ensures sent { SentFile exist folder.now name.now body.now (F.files files.old) result (F.files files.new) }
    ensures faults { Rises (send_failure result) (F.files_faults files.old) (F.files_faults files.new) }
{
    match exist {
        Exist::Override => write(files, folder, name, body, false),
        Exist::Append => write(files, folder, name, body, true),
        Exist::Fail => write_new(files, folder, name, body),
        Exist::Ignore => write_absent(files, folder, name, body),
    }
}

impl<F: Files + Send + Drop> Endpoint for FileLane<F> {
    ghost calls = { λ _. untold_calls };

    ghost lane_faults = { λ l. F.files_faults l.files };

    /// Writes the body to the target's file, by what the target says of a file that is there: it is replaced, gets the
    /// body behind what it holds, stays, or makes the send answer `Exists`. Whether it is there is asked only for the
    /// last two. `Failed` comes only where the files failed, and then anything may stand in that file. Of a target that
    /// is no file nothing is done.
    fn send(&mut self, target: &Target, message: &Message) -> Result<(), SendFault>
        ensures calls { untold_calls ≡ extended untold_calls (made target.now message.now result) }
        ensures faults { Rises (failures (made target.now message.now result)) (F.files_faults self.old.files) (F.files_faults self.new.files) }
        ensures exists { IsErrOf result SendFault.Exists → may_exist target.now ≡ true }
        ensures sent { SentTo target.now message.now.body (F.files self.old.files) result (F.files self.new.files) }
    {
        match target {
            Target::File {
                folder,
                name,
                exist,
            } => put(&mut self.files, folder, name, message.body.bytes(), *exist),
            _ => Ok(()),
        }
    }
}
