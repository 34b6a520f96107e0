ghost use Rattle.std.specs.Prelude.{◌≡◌, IfOk};
ghost use Rattle.std.specs.Option.{option_map};
ghost use Rattle.eip_uri.specs.Inlets.{inlet_of};
ghost use Rattle.eip_uri.specs.Sides.{is_consumer, is_producer};

use eip_text::{NoMemory, Text};
use std::alloc::Global;

/// What becomes of a source's file once its exchange has ended well (Camel manual, *File*).
#[derive(Drop)]
pub enum After {
    /// It stays where it is.
    Noop,
    /// It is deleted.
    Delete,
    /// It is moved to this folder.
    Move(Text),
}

/// What a send does where the file is there already (Camel manual, *File*, `fileExist`).
#[derive(Clone, Copy, Debug, PartialEq, Eq)]
pub enum Exist {
    Override,
    Append,
    Fail,
    Ignore,
}

/// An endpoint: where messages come from or go to (Camel manual, *URIs*).
pub enum Uri {
    /// `direct:NAME`: the route with this consumer runs on the same exchange.
    Direct(Text),
    /// `seda:NAME`: a queue with room for `size` copies, of which `consumers` run at once.
    Seda {
        name: Text,
        size: u32,
        consumers: u32,
        discard: bool,
    },
    /// `file:FOLDER`: files read from or written to a folder.
    File {
        folder: Text,
        after: After,
        failed: Option<Text>,
        exist: Exist,
    },
    /// `stream:in`: the lines of standard input.
    StreamIn,
    /// `log:NAME`: a line of the log.
    Log(Text),
    /// `line:HOST:PORT`: lines sent to a host.
    Line {
        host: Text,
        port: u16,
    },
    /// `line:listen:PORT`: lines of one connection to a port.
    Listen(u16),
    /// `lane:NAME`: the endpoint that was handed in under this name.
    Lane(Text),
    /// `load:N`: the N items of the load generator.
    Load(u32),
}

impl Drop for Uri {
    fn drop(self) {
        match self {
            Uri::Direct(name) => drop(name),
            Uri::Seda {
                name,
                size: _,
                consumers: _,
                discard: _,
            } => drop(name),
            Uri::File {
                folder,
                after,
                failed,
                exist: _,
            } => {
                drop(folder);
                drop(after);
                drop(failed);
            }
            Uri::Log(name) => drop(name),
            Uri::Line { host, port: _ } => drop(host),
            Uri::Lane(name) => drop(name),
            Uri::StreamIn | Uri::Listen(_) | Uri::Load(_) => {}
        }
    }
}

impl After {
    /// A copy of its own.
    pub fn copy(&self, alloc: Global) -> Result<After, NoMemory>
        ensures { IfOk result (λ a. a ≡ self.now) }
    {
        match self {
            After::Noop => Ok(After::Noop),
            After::Delete => Ok(After::Delete),
            After::Move(folder) => Ok(After::Move(Text::of_str(alloc, folder.as_str())?)),
        }
    }
}

impl Uri {
    /// The name of the inlet that reads this endpoint, or `None` where no inlet does. It takes no memory.
    pub fn inlet(&self) -> Option<&'static str>
        ensures { option_map (λ n. n.now) result ≡ inlet_of self.now }
    {
        match self {
            Uri::StreamIn => Some("stream"),
            Uri::File { .. } => Some("file"),
            Uri::Listen(_) => Some("line"),
            Uri::Load(_) => Some("load"),
            _ => None,
        }
    }

    /// A copy of its own.
    pub fn copy(&self, alloc: Global) -> Result<Uri, NoMemory>
        ensures { IfOk result (λ u. u ≡ self.now) }
    {
        match self {
            Uri::Direct(name) => Ok(Uri::Direct(copied(alloc, name)?)),
            Uri::Seda {
                name,
                size,
                consumers,
                discard,
            } => Ok(Uri::Seda {
                name: copied(alloc, name)?,
                size: *size,
                consumers: *consumers,
                discard: *discard,
            }),
            Uri::File {
                folder,
                after,
                failed,
                exist,
            } => copied_file(alloc, folder, after, failed, *exist),
            Uri::StreamIn => Ok(Uri::StreamIn),
            Uri::Log(name) => Ok(Uri::Log(copied(alloc, name)?)),
            Uri::Line { host, port } => Ok(Uri::Line {
                host: copied(alloc, host)?,
                port: *port,
            }),
            Uri::Listen(port) => Ok(Uri::Listen(*port)),
            Uri::Lane(name) => Ok(Uri::Lane(copied(alloc, name)?)),
            Uri::Load(count) => Ok(Uri::Load(*count)),
        }
    }

    /// Whether a route may begin with it, at `from`.
    pub fn is_consumer(&self) -> bool
        ensures { result ≡ is_consumer self.now }
    {
        !matches!(self, Uri::Log(_) | Uri::Line { .. } | Uri::Lane(_))
    }

    /// Whether a message may be sent to it, at `to`.
    pub fn is_producer(&self) -> bool
        ensures { result ≡ is_producer self.now }
    {
        !matches!(self, Uri::StreamIn | Uri::Listen(_) | Uri::Load(_))
    }
}

fn copied(alloc: Global, text: &Text) -> Result<Text, NoMemory>
    ensures { IfOk result (λ t. t ≡ text.now) }
{
    Text::of_str(alloc, text.as_str())
}

fn copied_file(
    alloc: Global,
    folder: &Text,
    after: &After,
    failed: &Option<Text>,
    exist: Exist,
) -> Result<Uri, NoMemory>
    ensures { IfOk result (λ u. u ≡ Uri.File folder.now after.now failed.now exist) }
{
    let failed = match failed {
        None => None,
        Some(folder) => Some(copied(alloc, folder)?),
    };
    Ok(Uri::File {
        folder: copied(alloc, folder)?,
        after: after.copy(alloc)?,
        failed,
        exist,
    })
}
