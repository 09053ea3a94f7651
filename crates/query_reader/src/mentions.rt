//! What stands under names, found by hashing: the first of each name counts.

ghost use Rattle.std.specs.Prelude.{◌≡◌, [], ◌∷◌, ◌++◌, slice_get, option_map, if◌then◌else◌, IfOk, OnOk};
ghost use Rattle.query_reader.specs.Mentions.{first_mentions, has_name, number_named, value_named};

use indexmap::IndexMap;
use std::alloc::{AllocError, Global};
use std::marker::Model;

/// A name with what is said of it.
#[derive(Drop)]
pub struct Mention<'a, V: Copy> {
    name: &'a str,
    value: V,
}

impl<'a, V: Copy> Model for Mention<'a, V> {
    ghost use Rattle.std.specs.Prelude.{List, ℕ};

    ghost Value = { List ℕ × V };

    ghost view = { λ n. (n.name.now, n.value) };
}

impl<'a, V: Copy> Mention<'a, V> {
    pub fn new(name: &'a str, value: V) -> Self
        ensures { result ≡ (name.now, value) }
    {
        Mention { name, value }
    }

    pub fn name(&self) -> &'a str
        ensures { result.now ≡ self.now.0 }
    {
        self.name
    }

    pub fn value(&self) -> V
        ensures { result ≡ self.now.1 }
    {
        self.value
    }
}

/// Names in the order in which they first came, each with what was said of it there.
#[derive(Drop)]
pub struct Names<'a, V: Copy> {
    first: IndexMap<&'a str, V>,
}

impl<'a, V: Copy> Model for Names<'a, V> {
    ghost use Rattle.std.specs.Prelude.{List, ℕ, map};

    ghost Value = { List (List ℕ × V) };

    ghost view = { λ n. map (λ e. (e.0.now, e.1)) n.first.entries };
}

impl<'a, V: Copy> Names<'a, V> {
    pub fn new(alloc: Global) -> Self
        ensures { result ≡ [] }
    {
        Names {
            first: IndexMap::new(alloc),
        }
    }

    /// What is said of the name, if anything.
    pub fn value_of(&self, name: &str) -> Option<V>
        ensures { result ≡ value_named self.now name.now }
    {
        self.first.get(name).copied()
    }

    pub fn has(&self, name: &str) -> bool
        ensures { result ≡ has_name self.now name.now }
    {
        self.first.contains_key(name)
    }

    /// The number of the name, or how many names there are where it isn't among them.
    pub fn number_of(&self, name: &str) -> usize
        ensures { result ≡ number_named self.now name.now }
    {
        match self.first.get_index_of(name) {
            Some(number) => number,
            None => self.first.len(),
        }
    }

    /// What is said of the name of this number.
    pub fn value_at(&self, number: usize) -> Option<V>
        ensures { result ≡ option_map (λ n. n.1) (slice_get self.now number) }
    {
        match self.first.get_index(number) {
            Some((_, value)) => Some(*value),
            None => None,
        }
    }

    /// Keeps the name, unless it has come before.
    fn add(&mut self, name: &'a str, value: V) -> Result<(), AllocError>
        ensures { OnOk result (self.new ≡ (if has_name self.old name.now then self.old else self.old ++ (name.now, value) ∷ [])) }
    {
        if !self.first.contains_key(name) {
            self.first.insert(name, value)?;
        }
        Ok(())
    }
}

/// The first of each name.
pub fn first_mentions<'a, V: Copy>(
    alloc: Global,
    all: &[Mention<'a, V>],
) -> Result<Names<'a, V>, AllocError>
    ensures { IfOk result (λ names. names ≡ first_mentions all.now) }
{
    let mut names = Names::new(alloc);
    for mention in all {
        names.add(mention.name(), mention.value())?;
    }
    Ok(names)
}
