//! A list inside a type. A list whose room contracts see is in `list_with_room`.
ghost use Rattle.std.specs.Prelude.{◌≡◌, ◌↔◌, ◌<◌, ◌^◌, [], ◌∷◌, ◌++◌, length, IsTrue, OnOk, OnErr, IsSome, IfSome, slice_index_or};
ghost use Rattle.std.specs.Borrow.{sem};
ghost use Rattle.std.specs.Iterator.Adapters.{IterYieldsInOrder, IterYieldsInReverse};
ghost use Rattle.std.specs.Iterator.Runs.{EveryRun, ItemsMapTo};
ghost use Rattle.std.specs.Slice.Iter.{iter_rest, iter_steps};
ghost use Rattle.star_values.specs.ListLends.{lends_members, lends_member};

use crate::no_memory::NoMemory;
use std::alloc::Global;
use std::marker::Model;
use std::slice;

/// A list in the order in which it was made.
///
/// No call takes memory but `reserve`, and `push` where no room is left.
#[derive(Debug, Drop)]
pub struct ListOf<T> {
    members: Vec<T>,
}

impl<T> Model for ListOf<T> {
    ghost use Rattle.std.specs.Prelude.{List};

    ghost Value = { List T };

    ghost view = { λ list. list.members.items };
}

impl<T> ListOf<T> {
    /// A list of no members, which takes no memory yet.
    pub fn new(alloc: Global) -> ListOf<T>
        ensures { result ≡ [] }
    {
        ListOf {
            members: Vec::new(alloc),
        }
    }

    pub fn as_slice(&self) -> &[T]
        ensures { result.now ≡ self.now }
    {
        self.members.as_slice()
    }

    /// Lends the members to be written over. How many there are stays.
    pub fn as_mut_slice(&mut self) -> &mut [T]
        ensures* writes_back { sem 𝓛 (lends_members T.row self.entry result) }
        ensures members { result.now ≡ self.old }
    {
        self.members.as_mut_slice()
    }

    /// Lends the member at an index, from 0, to be written over.
    pub fn get_mut(&mut self, index: usize) -> Option<&mut T>
        ensures* writes_back { sem 𝓛 (lends_member T.row self.entry index result) }
        ensures there { IsSome result ↔ (index < length self.old) }
        ensures member { IfSome result (λ x. x.now ≡ slice_index_or self.old index x.now) }
    {
        self.members.get_mut(index)
    }

    pub fn len(&self) -> usize
        ensures { result ≡ length self.now }
    {
        self.members.len()
    }

    pub fn is_empty(&self) -> bool
        ensures { IsTrue result ↔ (self.now ≡ []) }
    {
        self.members.is_empty()
    }

    /// Goes over the members in their order.
    pub fn iter(&self) -> slice::Iter<'_, T>
        ensures members { iter_rest result ≡ self.now }
        ensures in_order { IterYieldsInOrder T }
        ensures from_the_back { IterYieldsInReverse T }
    {
        self.members.as_slice().iter()
    }

    /// Makes room for this many more members.
    pub fn reserve(&mut self, more: usize) -> Result<(), NoMemory>
        ensures { self.new ≡ self.old }
    {
        self.members.reserve(more)?;
        Ok(())
    }

    pub fn push(&mut self, member: T) -> Result<(), NoMemory>
    where
        T: Drop,
        ensures ok { OnOk result (self.new ≡ self.old ++ member ∷ []) }
        ensures err { OnErr result (self.new ≡ self.old) }
    {
        self.members.push(member)?;
        Ok(())
    }

    pub fn into_vec(self) -> Vec<T>
        ensures { result.items ≡ self }
    {
        self.members
    }
}

impl<T> From<Vec<T>> for ListOf<T> {
    ghost from_gives = { λ members list. list ≡ members.items };

    fn from(members: Vec<T>) -> ListOf<T> {
        ListOf { members }
    }
}

impl<'a, T> IntoIterator for &'a ListOf<T> {
    type Item = &'a T;

    type IntoIter = slice::Iter<'a, T>;

    ghost into_iter_gives = { λ list it.
        (iter_rest it ≡ list.now) × (length (iter_rest it) < 2 ^ 64)
        × EveryRun (iter_steps {A = T}) (λ p.
        ItemsMapTo p (λ member. member.now) (iter_rest p.from)) };

    fn into_iter(self) -> slice::Iter<'a, T> {
        self.iter()
    }
}

impl<T: PartialEq> PartialEq for ListOf<T> {
    ghost use Rattle.std.specs.Cmp.Lexicographic.{pointwise, lists_per};

    ghost eq = { pointwise T.eq };

    ghost laws = { lists_per T.laws };

    fn eq(&self, other: &ListOf<T>) -> bool {
        self.as_slice() == other.as_slice()
    }
}

impl<T: Eq> Eq for ListOf<T> {
    ghost use Rattle.std.specs.Cmp.Lexicographic.{lists_equiv};

    ghost laws = { lists_equiv T.Eq.laws };
}
