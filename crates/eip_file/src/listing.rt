ghost use Rattle.std.specs.Prelude.{◌≡◌, ◌≤◌, length, drop};
ghost use Rattle.eip_file.specs.Listings.{is_hidden, shown};

use eip_text::Text;
use std::marker::Model;

/// The names of a folder's files that were listed and are left to give, seen as their list.
#[derive(Drop)]
pub struct Listing {
    names: Vec<Text>,
    /// How many of them were given or passed over.
    given: usize,
}

impl Model for Listing {
    ghost use Rattle.std.specs.Prelude.{List, ℕ, ◌≤◌, drop, vec_len};

    ghost Value = { List (List ℕ) };

    ghost view = { λ l. drop l.given l.names.items };

    ghost invariant = { λ l. l.given ≤ vec_len l.names };
}

impl Listing {
    /// A listing of these names. It takes no memory.
    pub fn new(names: Vec<Text>) -> Listing
        ensures { result ≡ names.items }
    {
        Listing { names, given: 0 }
    }

    /// The names that are left, in their order.
    pub fn left(&self) -> &[Text]
        ensures { result.now ≡ self.now }
    {
        &self.names.as_slice()[self.given..]
    }

    /// Takes the first `count` names out.
    pub fn pass(&mut self, count: usize)
        requires { count ≤ length self.old }
        ensures { self.new ≡ drop count self.old }
    {
        self.given += count;
    }
}

/// Whether a name begins with a full stop.
fn is_hidden(name: &[u8]) -> bool
    ensures { result ≡ is_hidden name.now }
{
    match name.first() {
        Some(first) => *first == b'.',
        None => false,
    }
}

/// Leaves out the names that begin with a full stop.
pub fn leave_out_hidden(names: &mut Vec<Text>)
    ensures { names.new.items ≡ shown names.old.items }
{
    names.retain(|name| !is_hidden(name.bytes()));
}
