//! The attributes of a session: names with values.

ghost use Rattle.std.specs.Prelude.{◌≡◌, ◌+◌, ◌<◌, ◌^◌, ◌++◌, ◌∷◌, ℕ, List, [], length, option_copied, IfOk, OnOk, OnErr};
ghost use Rattle.std.specs.Bool.{Decides};
ghost use Rattle.std.specs.Map.Iter.{TakesFirst};
ghost use Rattle.std.specs.Iterator.{at_most};

use crate::sequence::Sequence;
use crate::text::Text;
use std::alloc::{AllocError, Global};
use std::collections::{BTreeMap, btree_map};
use std::marker::Model;

/// The attributes of a session, seen by contracts as the list of their names and values in order of the
/// names' bytes.
#[derive(Drop)]
pub struct Attributes {
    by_name: BTreeMap<String, Vec<u8>>,
    /// The bytes of all names and values.
    size: usize,
}

impl Model for Attributes {
    ghost use Rattle.std.specs.Prelude.{◌≡◌, ℕ, List};
    ghost use Rattle.sv_model.specs.Attributes.{entries_of, attributes_size};

    ghost Value = { List (List ℕ × List ℕ) };

    ghost view = { λ a. entries_of a.by_name.entries };

    ghost invariant = { λ a. a.size ≡ attributes_size (entries_of a.by_name.entries) };
}

/// The attributes that are left to go over, seen by contracts as their list.
#[derive(Drop)]
pub struct Entries<'a> {
    rest: btree_map::Iter<'a, String, Vec<u8>>,
}

impl<'a> Model for Entries<'a> {
    ghost use Rattle.std.specs.Prelude.{ℕ, List};
    ghost use Rattle.sv_model.specs.Attributes.{entries_of};

    ghost Value = { List (List ℕ × List ℕ) };

    ghost view = { λ e. entries_of e.rest };
}

impl<'a> Iterator for Entries<'a> {
    type Item = (&'a str, &'a [u8]);

    ghost next_gives = { TakesFirst (λ e. (e.0.now, e.1.now)) };

    ghost remaining = { λ s. at_most (length s) };

    fn next(&mut self) -> Option<(&'a str, &'a [u8])> {
        let (name, value) = self.rest.next()?;
        Some((name.as_str(), value.as_slice()))
    }
}

impl Attributes {
    ghost use Rattle.sv_model.specs.Attributes.{attributes_size, value_of, with_attribute, without_attribute, names_of, NamesRise, IsAboveAll};

    /// No attributes.
    pub fn new(alloc: Global) -> Self
        ensures { result ≡ [] }
    {
        Attributes {
            by_name: BTreeMap::new(alloc),
            size: 0,
        }
    }

    /// How many there are.
    pub fn len(&self) -> usize
        ensures count { result ≡ length self.now }
        ensures rising { NamesRise self.now }
    {
        self.by_name.len()
    }

    /// The two are equal.
    pub fn is_same(&self, other: &Attributes) -> bool
        ensures { Decides result (self.now ≡ other.now) }
    {
        self.by_name == other.by_name
    }

    /// The bytes of all names and values.
    pub fn size(&self) -> usize
        ensures { result ≡ attributes_size self.now }
    {
        self.size
    }

    /// The value at a name.
    pub fn get(&self, name: &str) -> Option<&[u8]>
        ensures { option_copied result ≡ value_of self.now name.now }
    {
        match self.by_name.get(name) {
            Some(value) => Some(value.as_slice()),
            None => None,
        }
    }

    /// The names and values in order of the names' bytes.
    pub fn iter(&self) -> Entries<'_>
        ensures entries { result ≡ self.now }
        ensures rising { NamesRise self.now }
    {
        Entries {
            rest: self.by_name.iter(),
        }
    }

    /// Puts a value at a name, in the place of the old one, which comes back, or at the name's place in the order.
    pub fn insert(
        &mut self,
        name: Text,
        value: Sequence<u8>,
    ) -> Result<Option<Sequence<u8>>, AllocError>
        requires { attributes_size (with_attribute self.old name value) < 2 ^ 64 }
        ensures old { IfOk result (λ old. old ≡ value_of self.old name) }
        ensures ok { OnOk result (self.new ≡ with_attribute self.old name value) }
        ensures err { OnErr result (self.new ≡ self.old) }
    {
        let name = name.into_string();
        let value = value.into_vec();
        let name_len = name.len();
        let value_len = value.len();
        match self.by_name.insert(name, value)? {
            Some(old) => {
                self.size = self.size - old.len() + value_len;
                Ok(Some(Sequence::from_vec(old)))
            }
            None => {
                self.size = self.size + name_len + value_len;
                Ok(None)
            }
        }
    }

    /// Adds an attribute whose name is above each one there.
    pub fn push(&mut self, name: Text, value: Sequence<u8>) -> Result<(), AllocError>
        requires above { IsAboveAll name self.old }
        requires fits { attributes_size self.old + (length name + length value) < 2 ^ 64 }
        ensures ok { OnOk result (self.new ≡ self.old ++ (name, value) ∷ []) }
        ensures err { OnErr result (self.new ≡ self.old) }
    {
        self.insert(name, value)?;
        Ok(())
    }

    /// Takes the attribute of a name away, and gives its value.
    pub fn remove(&mut self, name: &str) -> Option<Sequence<u8>>
        ensures value { result ≡ value_of self.old name.now }
        ensures rest { self.new ≡ without_attribute self.old name.now }
    {
        match self.by_name.remove(name) {
            Some(old) => {
                self.size -= name.len() + old.len();
                Some(Sequence::from_vec(old))
            }
            None => None,
        }
    }

    /// The names, in order of their bytes.
    pub fn names(&self, alloc: Global) -> Result<Sequence<Text>, AllocError>
        ensures { IfOk result (λ names. names ≡ names_of self.now) }
    {
        let mut names = Sequence::new(alloc);
        for (name, _) in self.iter() {
            names.push(Text::from_str(alloc, name)?)?;
        }
        Ok(names)
    }

    /// Equal attributes in memory of their own.
    pub fn copy(&self, alloc: Global) -> Result<Attributes, AllocError>
        ensures { IfOk result (λ copy. copy ≡ self.now) }
    {
        let mut by_name = BTreeMap::new(alloc);
        for (name, value) in self.iter() {
            by_name.insert(
                String::from_str(alloc, name)?,
                Vec::from_slice(alloc, value)?,
            )?;
        }
        Ok(Attributes {
            by_name,
            size: self.size,
        })
    }
}
