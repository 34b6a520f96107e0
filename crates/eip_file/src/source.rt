ghost use Rattle.std.specs.Prelude.{◌≡◌, ◌<◌, ℕ, List, Some, None, [], false, bytes_eq, length, vec_len, IfOk, IfSome, IfNone, string_bytes};
ghost use Rattle.eip_text.specs.Causes.{Rises};
ghost use Rattle.eip_keyed.specs.Keyed.{found, StandsAt};
ghost use Rattle.eip_uri.specs.Printed.{printed};
ghost use Rattle.eip_endpoint.specs.Content.{extended, preceded, where_same};
ghost use Rattle.eip_endpoint.specs.Pulls.{given_by, all_taken, EndsAtEnd, IsFair, pull_failure, committed, commit_failure};
ghost use Rattle.eip_file.specs.Items.{failure_in};
ghost use Rattle.eip_file.specs.Listings.{untold_items, untold_commits, folder_of, StaysListed, PulledFile};
ghost use Rattle.eip_file.specs.Commits.{Removed, MovedTo, is_rooted, path_of, within, way_of_failed, way_of, CommittedFile, Committed};

use crate::item::find_next;
use crate::listing::{Listing, leave_out_hidden};
use eip_endpoint::{CommitFault, Files, FilesFault, Mover, PullFault, Pulled, Source};
use eip_exchange::End;
use eip_keyed::find;
use eip_text::{NoMemory, Text};
use eip_uri::{After, Uri};
use std::alloc::{AllocError, Global};

/// The index of the listing of a printed URI, which is made where there is none yet. Room for it is made before the
/// files are listed, so that no listing is lost for want of memory.
fn place_for<F: Files>(
    files: &mut F,
    listings: &mut Vec<(Text, Listing)>,
    uri: Text,
    folder: &Text,
) -> Result<usize, PullFault>
    ensures left { StaysListed folder.now (F.files files.old) (found uri listings.old.items) (found uri listings.new.items) }
    ensures others { (v : List ℕ) → bytes_eq uri v ≡ false → found v listings.new.items ≡ found v listings.old.items }
    ensures first { IfOk result (λ k. StandsAt uri k listings.new.items) }
    ensures within { IfOk result (λ k. k < vec_len listings.new) }
    ensures same { F.files files.new ≡ F.files files.old }
    ensures faults { Rises (failure_in result) (F.files_faults files.old) (F.files_faults files.new) }
{
    if let Some(place) = find(listings.as_slice(), uri.bytes()) {
        return Ok(place);
    }
    if listings.reserve(1).is_err() {
        return Err(PullFault::NoMemory);
    }
    match files.list(folder) {
        Ok(mut names) => {
            leave_out_hidden(&mut names);
            let place = listings.len();
            listings.push((uri, Listing::new(names))).unwrap();
            Ok(place)
        }
        Err(FilesFault::Failed) => Err(PullFault::Failed),
        Err(FilesFault::NoMemory) => Err(PullFault::NoMemory),
    }
}

/// Gives the next file of the listing with this index, which is the first one of its URI.
fn next_at<F: Files>(
    alloc: Global,
    files: &mut F,
    listings: &mut [(Text, Listing)],
    place: usize,
    folder: &Text,
) -> Result<Pulled, PullFault>
    requires { place < length listings.old }
    ensures pulled { (uri : List ℕ) → StandsAt uri place listings.old → PulledFile folder.now (F.files files.old) (found uri listings.old) result (found uri listings.new) }
    ensures others { (uri v : List ℕ) → StandsAt uri place listings.old → bytes_eq uri v ≡ false → found v listings.new ≡ found v listings.old }
    ensures fair { IfOk result IsFair }
    ensures same { F.files files.new ≡ F.files files.old }
    ensures faults { Rises (pull_failure result) (F.files_faults files.old) (F.files_faults files.new) }
{
    let listed = &mut listings[place];
    match find_next(alloc, files, folder, listed.1.left()) {
        Ok((count, pulled)) => {
            listed.1.pass(count);
            Ok(pulled)
        }
        Err(fault) => Err(fault),
    }
}

/// Whether a folder's name begins at the root.
fn is_rooted(folder: &[u8]) -> bool
    ensures { result ≡ is_rooted folder.now }
{
    match folder.first() {
        Some(first) => *first == b'/',
        None => false,
    }
}

/// The path of what has this name in a folder.
fn path_of(alloc: Global, folder: &str, name: &str) -> Result<String, AllocError>
    ensures { IfOk result (λ path. string_bytes path ≡ path_of folder.now name.now) }
{
    let mut path = String::from_str(alloc, folder)?;
    if folder != "/" {
        path.push_str("/")?;
    }
    path.push_str(name)?;
    Ok(path)
}

/// The folder of this name in another one, unless it begins at the root itself.
fn within(alloc: Global, folder: &Text, to: &Text) -> Result<Text, NoMemory>
    ensures { IfOk result (λ path. path ≡ within folder.now to.now) }
{
    if is_rooted(to.bytes()) {
        return to.copy();
    }
    Ok(Text::of(path_of(alloc, folder.as_str(), to.as_str())?))
}

/// Moves a file to a folder that is named from its own.
fn move_to<F: Mover>(
    alloc: Global,
    files: &mut F,
    folder: &Text,
    name: &Text,
    to: &Text,
) -> Result<(), CommitFault>
    ensures moved { CommittedFile folder.now name.now (MovedTo (within folder.now to.now)) (F.Files.files files.old) result (F.Files.files files.new) }
    ensures faults { Rises (commit_failure result) (F.Files.files_faults files.old) (F.Files.files_faults files.new) }
{
    let Ok(to) = within(alloc, folder, to) else {
        return Err(CommitFault::NoMemory);
    };
    match files.rename(folder, name, &to) {
        Ok(()) => Ok(()),
        Err(FilesFault::Failed) => Err(CommitFault::Failed),
        Err(FilesFault::NoMemory) => Err(CommitFault::NoMemory),
    }
}

/// Removes a file.
fn remove<F: Mover>(files: &mut F, folder: &Text, name: &Text) -> Result<(), CommitFault>
    ensures removed { CommittedFile folder.now name.now Removed (F.Files.files files.old) result (F.Files.files files.new) }
    ensures faults { Rises (commit_failure result) (F.Files.files_faults files.old) (F.Files.files_faults files.new) }
{
    match files.remove(folder, name) {
        Ok(()) => Ok(()),
        Err(FilesFault::Failed) => Err(CommitFault::Failed),
        Err(FilesFault::NoMemory) => Err(CommitFault::NoMemory),
    }
}

/// Sends the file of an exchange that failed to the folder for these, if there is one.
fn move_failed<F: Mover>(
    alloc: Global,
    files: &mut F,
    folder: &Text,
    name: &Text,
    failed: &Option<Text>,
) -> Result<(), CommitFault>
    ensures sent { CommittedFile folder.now name.now (way_of_failed folder.now failed.now) (F.Files.files files.old) result (F.Files.files files.new) }
    ensures faults { Rises (commit_failure result) (F.Files.files_faults files.old) (F.Files.files_faults files.new) }
{
    match failed {
        Some(to) => move_to(alloc, files, folder, name, to),
        None => Ok(()),
    }
}

/// Sends a file on its way, by how its exchange ended.
fn send_away<F: Mover>(
    alloc: Global,
    files: &mut F,
    folder: &Text,
    name: &Text,
    after: &After,
    failed: &Option<Text>,
    end: &End,
) -> Result<(), CommitFault>
    ensures sent { CommittedFile folder.now name.now (way_of folder.now after.now failed.now end.now) (F.Files.files files.old) result (F.Files.files files.new) }
    ensures faults { Rises (commit_failure result) (F.Files.files_faults files.old) (F.Files.files_faults files.new) }
{
    match after {
        After::Noop => Ok(()),
        After::Delete => match end {
            End::Failed(_) => move_failed(alloc, files, folder, name, failed),
            End::Completed | End::Handled => remove(files, folder, name),
        },
        After::Move(to) => match end {
            End::Failed(_) => move_failed(alloc, files, folder, name, failed),
            End::Completed | End::Handled => move_to(alloc, files, folder, name, to),
        },
    }
}

/// A source that gives the files of a folder as messages, in byte order of their names (Camel's component *File*, as a
/// consumer): those of one listing for each URI, without names that begin with a full stop. The item is the name, and
/// the header `CamelFileName` holds it. It tells no content.
#[derive(Drop)]
pub struct FileSource<F> {
    pub alloc: Global,
    pub files: F,
    /// The names that were listed and not given, for each URI that was pulled from, in its printed form.
    pub listings: Vec<(Text, Listing)>,
}

impl<F: Mover> FileSource<F> {
    /// The source of these files, before the first listing. It takes no memory.
    pub fn new(alloc: Global, files: F) -> FileSource<F>
        ensures files { result.files ≡ files }
        ensures listings { result.listings.items ≡ [] }
    {
        FileSource {
            alloc,
            files,
            listings: Vec::new(alloc),
        }
    }

    /// Gives the next file of a folder, or the end.
    fn next(&mut self, from: &Uri, folder: &Text) -> Result<Pulled, PullFault>
        ensures pulled { PulledFile folder.now (F.Files.files self.old.files) (found (printed from.now) self.old.listings.items) result (found (printed from.now) self.new.listings.items) }
        ensures others { (v : List ℕ) → bytes_eq (printed from.now) v ≡ false → found v self.new.listings.items ≡ found v self.old.listings.items }
        ensures fair { IfOk result IsFair }
        ensures same { F.Files.files self.new.files ≡ F.Files.files self.old.files }
        ensures faults { Rises (pull_failure result) (F.Files.files_faults self.old.files) (F.Files.files_faults self.new.files) }
    {
        let Ok(uri) = from.print(self.alloc) else {
            return Err(PullFault::NoMemory);
        };
        match place_for(&mut self.files, &mut self.listings, uri, folder) {
            Ok(place) => {
                let listings = self.listings.as_mut_slice();
                next_at(self.alloc, &mut self.files, listings, place, folder)
            }
            Err(fault) => Err(fault),
        }
    }
}

impl<F: Mover + Send + Drop> Source for FileSource<F> {
    ghost given = { λ _ _. untold_items };

    ghost left = { λ _ _. untold_items };

    ghost commits = { λ _ _. untold_commits };

    ghost inlet_faults = { λ s. F.Files.files_faults s.files };

    /// Gives the next file of the endpoint's listing that is there, or the end where none is; the folder is listed at
    /// its first pull. A file is refused as `TooLong` exactly where it, or its name, has more than 65,536 bytes, and
    /// else as `NotText` exactly where it is not UTF-8, and stays. `Failed` comes only where the files failed, and then
    /// no name is passed over. An endpoint that is none of files has no items.
    fn pull(&mut self, from: &Uri) -> Result<Pulled, PullFault>
        ensures given { (u : List ℕ) → untold_items ≡ extended untold_items (where_same u (printed from.now) (given_by result)) }
        ensures left { (u : List ℕ) → untold_items ≡ preceded (all_taken (where_same u (printed from.now) (given_by result))) untold_items }
        ensures ends { IfOk result (EndsAtEnd untold_items) }
        ensures commits { (u : List ℕ) → untold_commits ≡ untold_commits }
        ensures fair { IfOk result IsFair }
        ensures faults { Rises (pull_failure result) (F.Files.files_faults self.old.files) (F.Files.files_faults self.new.files) }
        ensures pulled { IfSome (folder_of from.now) (λ folder. PulledFile folder (F.Files.files self.old.files) (found (printed from.now) self.old.listings.items) result (found (printed from.now) self.new.listings.items)) }
        ensures others { (v : List ℕ) → bytes_eq (printed from.now) v ≡ false → found v self.new.listings.items ≡ found v self.old.listings.items }
        ensures none { IfNone (folder_of from.now) ((result ≡ Ok Pulled.End) × (self.new ≡ self.old)) }
        ensures same { F.Files.files self.new.files ≡ F.Files.files self.old.files }
    {
        match from {
            Uri::File { folder, .. } => self.next(from, folder),
            _ => Ok(Pulled::End),
        }
    }

    /// Moves or removes the file of an item, by what its endpoint says of a file whose exchange has ended so. `Failed`
    /// comes only where the files failed, and then no file is changed.
    fn commit(&mut self, from: &Uri, item: &Text, end: &End) -> Result<(), CommitFault>
        ensures given { (u : List ℕ) → untold_items ≡ untold_items }
        ensures left { (u : List ℕ) → untold_items ≡ untold_items }
        ensures commits { (u : List ℕ) → untold_commits ≡ extended untold_commits (where_same u (printed from.now) (committed item.now end.now result)) }
        ensures faults { Rises (commit_failure result) (F.Files.files_faults self.old.files) (F.Files.files_faults self.new.files) }
        ensures committed { Committed from.now item.now end.now (F.Files.files self.old.files) result (F.Files.files self.new.files) }
        ensures listings { self.new.listings ≡ self.old.listings }
    {
        match from {
            Uri::File {
                folder,
                after,
                failed,
                ..
            } => send_away(
                self.alloc,
                &mut self.files,
                folder,
                item,
                after,
                failed,
                end,
            ),
            _ => Ok(()),
        }
    }
}
