ghost use Rattle.std.specs.Prelude.{◌≡◌, ◌++◌, [], reverse, option_to_list, IfNone};

use std::marker::Model;

/// Values in a row, of which the first is taken next; contracts see it as their list.
#[derive(Drop)]
pub struct Queue<T> {
    /// The last one first, so that taking one costs the same in a long row as in a short one.
    turned: Vec<T>,
}

impl<T> Model for Queue<T> {
    ghost use Rattle.std.specs.Prelude.{List, reverse};
    ghost use Rattle.std.specs.Coded.{coded_list};

    ghost Value = { List T };

    ghost coded = { coded_list T.code };

    ghost view = { λ q. reverse q.turned.items };
}

impl<T> Queue<T> {
    /// The row of these, in their order. It takes no memory.
    pub fn of(items: Vec<T>) -> Queue<T>
        ensures { result ≡ items.items }
    {
        let mut turned = items;
        turned.reverse();
        Queue { turned }
    }

    /// The row of these, of which the last one comes first. It takes no memory.
    pub fn of_turned(turned: Vec<T>) -> Queue<T>
        ensures { result ≡ reverse turned.items }
    {
        Queue { turned }
    }

    /// The values, the last one first.
    pub fn turned(&self) -> &[T]
        ensures { reverse result.now ≡ self.now }
    {
        self.turned.as_slice()
    }

    /// Takes the first one, where there is one.
    #[tactic(auto, using(crate::proofs::Queues::taken, crate::proofs::Queues::empty))]
    pub fn take(&mut self) -> Option<T>
        ensures taken { self.old ≡ option_to_list result ++ self.new }
        ensures none { IfNone result (self.old ≡ []) }
    {
        self.turned.pop()
    }
}
