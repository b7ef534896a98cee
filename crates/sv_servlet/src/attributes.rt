//! The attributes of a request (Jakarta Servlet 6.0, chapter "The Request", section "Attributes").

ghost use Rattle.std.specs.Map.Iter.{TakesFirst};
ghost use Rattle.std.specs.Iterator.{at_most};
ghost use Rattle.std.specs.Prelude.{◌≡◌, [], length, option_copied, IfOk, OnOk, OnErr};

use std::alloc::{AllocError, Global};
use std::collections::{BTreeMap, btree_map};
use std::marker::Model;

/// The attributes that a dispatch sets, seen by contracts as the list of their names and values in order of
/// the names' bytes.
#[derive(Drop)]
pub struct RequestAttributes {
    by_name: BTreeMap<String, String>,
    alloc: Global,
}

impl Model for RequestAttributes {
    ghost use Rattle.std.specs.Prelude.{ℕ, List};
    ghost use Rattle.sv_servlet.specs.Attributes.{entries_of};

    ghost Value = { List (List ℕ × List ℕ) };

    ghost view = { λ a. entries_of a.by_name.entries };
}

/// The attributes that are left to go over, seen by contracts as their list.
#[derive(Drop)]
pub struct Entries<'a> {
    rest: btree_map::Iter<'a, String, String>,
}

impl<'a> Model for Entries<'a> {
    ghost use Rattle.std.specs.Prelude.{ℕ, List};
    ghost use Rattle.sv_servlet.specs.Attributes.{entries_of};

    ghost Value = { List (List ℕ × List ℕ) };

    ghost view = { λ e. entries_of e.rest };
}

impl<'a> Iterator for Entries<'a> {
    type Item = (&'a str, &'a str);

    ghost next_gives = { TakesFirst (λ e. (e.0.now, e.1.now)) };

    ghost remaining = { λ s. at_most (length s) };

    fn next(&mut self) -> Option<(&'a str, &'a str)> {
        let (name, value) = self.rest.next()?;
        Some((name.as_str(), value.as_str()))
    }
}

impl RequestAttributes {
    ghost use Rattle.sv_model.specs.Attributes.{value_of, with_attribute, without_attribute, NamesRise};

    /// No attributes, as a request comes in.
    pub fn new(alloc: Global) -> Self
        ensures { result ≡ [] }
    {
        RequestAttributes {
            by_name: BTreeMap::new(alloc),
            alloc,
        }
    }

    /// The value at a name.
    pub fn get(&self, name: &str) -> Option<&str>
        ensures { option_copied result ≡ value_of self.now name.now }
    {
        match self.by_name.get(name) {
            Some(value) => Some(value.as_str()),
            None => None,
        }
    }

    /// The names and values in order of the names' bytes.
    pub fn iter(&self) -> Entries<'_>
        ensures entries { result ≡ self.now }
        ensures rising { NamesRise self.now }
    {
        Entries {
            rest: self.by_name.iter(),
        }
    }

    /// Puts a value at a name, in the place of the old one or at the name's place in the order.
    pub fn insert(&mut self, name: &str, value: &str) -> Result<(), AllocError>
        ensures ok { OnOk result (self.new ≡ with_attribute self.old name.now value.now) }
        ensures err { OnErr result (self.new ≡ self.old) }
    {
        let name = String::from_str(self.alloc, name)?;
        let value = String::from_str(self.alloc, value)?;
        self.by_name.insert(name, value)?;
        Ok(())
    }

    /// Takes the attribute of a name away.
    pub fn remove(&mut self, name: &str)
        ensures { self.new ≡ without_attribute self.old name.now }
    {
        self.by_name.remove(name);
    }

    /// Equal attributes in memory of their own.
    pub fn copy(&self) -> Result<RequestAttributes, AllocError>
        ensures { IfOk result (λ copy. copy ≡ self.now) }
    {
        let mut by_name = BTreeMap::new(self.alloc);
        for (name, value) in self.iter() {
            by_name.insert(
                String::from_str(self.alloc, name)?,
                String::from_str(self.alloc, value)?,
            )?;
        }
        Ok(RequestAttributes {
            by_name,
            alloc: self.alloc,
        })
    }
}
