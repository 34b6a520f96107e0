#![tactic(auto, using(crate::proofs::Objects::trees))]

ghost use Rattle.std.specs.Prelude.{◌≡◌, ◌++◌, ◌∷◌, [], pos, IfOk, OnOk};
ghost use Rattle.eip_text.specs.Json.{json, flag, whole, word};
ghost use Rattle.eip_route_canonical.specs.Canonical as spec;
ghost use Rattle.eip_route_canonical.specs.Trees as trees;

use eip_text::{NoMemory, Series, Text, Tree};
use std::alloc::Global;

/// A JSON object in the making.
#[derive(Drop)]
pub struct Object {
    alloc: Global,
    members: Vec<(Text, Tree)>,
}

impl Object {
    /// An object without members.
    pub fn new(alloc: Global) -> Object
        ensures { trees.made result ≡ [] }
    {
        Object {
            alloc,
            members: Vec::new(alloc),
        }
    }

    /// The tree of the object.
    pub fn tree(self) -> Tree
        ensures { json result ≡ spec.object_of (trees.made self) }
    {
        Tree::Object(Series::of(self.members))
    }

    /// One more member.
    pub fn put(&mut self, key: &str, value: Tree) -> Result<(), NoMemory>
        ensures { OnOk result (trees.made self.new ≡ trees.made self.old ++ spec.one key.now (json value)) }
    {
        let key = Text::of_str(self.alloc, key)?;
        self.members.push((key, value))?;
        Ok(())
    }

    /// A text, which it takes over.
    pub fn put_text(&mut self, key: &str, text: Text) -> Result<(), NoMemory>
        ensures { OnOk result (trees.made self.new ≡ trees.made self.old ++ spec.one key.now (word text)) }
    {
        self.put(key, Tree::Word(text))
    }

    /// A copy of a text.
    pub fn put_word(&mut self, key: &str, text: &Text) -> Result<(), NoMemory>
        ensures { OnOk result (trees.made self.new ≡ trees.made self.old ++ spec.one key.now (word text.now)) }
    {
        let text = text.copy()?;
        self.put_text(key, text)
    }

    /// A truth value.
    pub fn put_flag(&mut self, key: &str, set: bool) -> Result<(), NoMemory>
        ensures { OnOk result (trees.made self.new ≡ trees.made self.old ++ spec.one key.now (flag set)) }
    {
        self.put(key, Tree::Flag(set))
    }

    /// A whole number.
    pub fn put_number(&mut self, key: &str, number: u64) -> Result<(), NoMemory>
        ensures { OnOk result (trees.made self.new ≡ trees.made self.old ++ spec.one key.now (whole (pos number))) }
    {
        self.put(key, Tree::Whole(i128::from(number)))
    }

    /// A flag where it is set.
    pub fn put_set(&mut self, key: &str, set: bool) -> Result<(), NoMemory>
        ensures { OnOk result (trees.made self.new ≡ trees.made self.old ++ spec.where_set key.now set) }
    {
        if set {
            self.put_flag(key, true)
        } else {
            Ok(())
        }
    }

    /// A flag where it isn't set.
    pub fn put_unset(&mut self, key: &str, set: bool) -> Result<(), NoMemory>
        ensures { OnOk result (trees.made self.new ≡ trees.made self.old ++ spec.where_unset key.now set) }
    {
        if set {
            Ok(())
        } else {
            self.put_flag(key, false)
        }
    }

    /// A number where it is given.
    pub fn put_given(&mut self, key: &str, number: Option<u64>) -> Result<(), NoMemory>
        ensures { OnOk result (trees.made self.new ≡ trees.made self.old ++ spec.given_number key.now number) }
    {
        match number {
            Some(number) => self.put_number(key, number),
            None => Ok(()),
        }
    }

    /// An object where it has a member.
    pub fn put_any(&mut self, key: &str, inner: Object) -> Result<(), NoMemory>
        ensures { OnOk result (trees.made self.new ≡ trees.made self.old ++ spec.where_any key.now (trees.made inner)) }
    {
        if inner.is_empty() {
            return Ok(());
        }
        self.put(key, inner.tree())
    }

    /// All of these members.
    pub fn put_all(&mut self, members: Vec<(Text, Tree)>) -> Result<(), NoMemory>
        ensures { OnOk result (trees.made self.new ≡ trees.made self.old ++ trees.pairs_of members.items) }
    {
        let mut members = members;
        self.members.append(&mut members)?;
        Ok(())
    }

    /// Whether the object has no members.
    pub fn is_empty(&self) -> bool
        ensures { result ≡ spec.is_none (trees.made self.now) }
    {
        self.members.is_empty()
    }
}

/// The object of one member.
pub fn alone(alloc: Global, key: &str, value: Tree) -> Result<Tree, NoMemory>
    ensures { IfOk result (λ t. json t ≡ spec.alone key.now (json value)) }
{
    let mut object = Object::new(alloc);
    object.put(key, value)?;
    Ok(object.tree())
}

/// The tree of a text.
pub fn word(text: &Text) -> Result<Tree, NoMemory>
    ensures { IfOk result (λ t. json t ≡ word text.now) }
{
    Ok(Tree::Word(text.copy()?))
}
