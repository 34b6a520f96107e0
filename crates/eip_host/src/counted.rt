use crate::progress::Progress;
use eip_endpoint::{CommitFault, PullFault, Pulled, Source};
use eip_exchange::End;
use eip_text::Text;
use eip_uri::Uri;
use std::io::Write;
use std::sync::{Arc, Mutex};
use std::time::Clock;

/// The count that several sources share.
pub type SharedProgress<C, W> = Arc<Mutex<Progress<C, W>>>;

/// A source whose taken items are counted where there is a count; it is wiped where a source has no more. The source gives what
/// it gives without that.
#[derive(Drop)]
pub struct Counted<S, C, W> {
    pub source: S,
    pub progress: Option<SharedProgress<C, W>>,
}

impl<S: Source, C: Clock + Send + Drop, W: Write + Send + Drop> Source for Counted<S, C, W> {
    ghost given = { λ c. S.given c.source };

    ghost left = { λ c. S.left c.source };

    ghost commits = { λ c. S.commits c.source };

    ghost inlet_faults = { λ c. S.inlet_faults c.source };

    fn pull(&mut self, from: &Uri) -> Result<Pulled, PullFault> {
        let Some(progress) = &self.progress else {
            return self.source.pull(from);
        };
        let pulled = self.source.pull(from);
        note(progress, &pulled);
        pulled
    }

    fn commit(&mut self, from: &Uri, item: &Text, end: &End) -> Result<(), CommitFault> {
        self.source.commit(from, item, end)
    }
}

/// Counts an item that was taken, or wipes the count at an end. A count that is in use is left as it is.
fn note<C: Clock, W: Write>(progress: &SharedProgress<C, W>, pulled: &Result<Pulled, PullFault>) {
    let Some(mut progress) = progress.try_lock() else {
        return;
    };
    match pulled {
        Ok(Pulled::Item { .. }) | Ok(Pulled::Refused { .. }) => progress.taken(),
        Ok(Pulled::End) | Err(_) => progress.wipe(),
    }
}
