//! A catalogue whose relations are found by their names.

ghost use Rattle.std.specs.Prelude.{◌≡◌, option_map, slice_get, IfOk};
ghost use Rattle.query_reader.specs.Checks.{is_unknown};
ghost use Rattle.query_reader.specs.Kinds.{relation_named, columns_of};
ghost use Rattle.query_reader.specs.Reading.{relation_index};
ghost use Rattle.query_reader.specs.Directories.{relation_indices};

use crate::mentions::{Mention, Names, first_mentions};
use cat_reader::{Catalogue, Relation};
use query_syntax::WrittenAtom;
use std::alloc::{AllocError, Global};
use std::marker::Model;
use tuple_core::Column;

/// The relations of a catalogue, found by hashing.
#[derive(Drop)]
pub struct Directory<'a> {
    relations: &'a [Relation],
    positions: Names<'a, usize>,
}

impl<'a> Model for Directory<'a> {
    ghost use Rattle.std.specs.Prelude.{List, ◌≡◌};
    ghost use Rattle.cat_reader.specs.declared.catalogue.Relation.{Relation as ARelation};
    ghost use Rattle.query_reader.specs.Directories.{relation_indices};
    ghost use Rattle.query_reader.specs.Mentions.{first_mentions};

    ghost Value = { List ARelation };

    ghost view = { λ d. d.relations.now };

    ghost invariant = { λ d. d.positions ≡ first_mentions (relation_indices 0 d.relations.now) };
}

impl<'a> Directory<'a> {
    pub fn new(alloc: Global, catalogue: &'a Catalogue) -> Result<Self, AllocError>
        ensures { IfOk result (λ d. d ≡ catalogue.now) }
    {
        let relations = catalogue.as_slice();
        let positions = relation_indices(alloc, relations)?;
        Ok(Directory {
            relations,
            positions: first_mentions(alloc, positions.as_slice())?,
        })
    }

    /// The relation of this name.
    fn relation(&self, name: &str) -> Option<&'a Relation>
        ensures { option_map (λ r. r.now) result ≡ relation_named self.now name.now }
    {
        match self.positions.value_of(name) {
            Some(position) => relation_at(self.relations, position),
            None => None,
        }
    }

    /// Whether the atom's relation isn't in the catalogue.
    pub fn lacks(&self, atom: &WrittenAtom) -> bool
        ensures { result ≡ is_unknown self.now atom.now }
    {
        self.relation(atom.relation.name.as_str()).is_none()
    }

    /// The columns of the atom's relation; none where it isn't in the catalogue.
    pub fn columns_of(&self, atom: &WrittenAtom) -> &'a [Column]
        ensures { result.now ≡ columns_of self.now atom.now }
    {
        let none: &[Column] = &[];
        match self.relation(atom.relation.name.as_str()) {
            Some(relation) => relation.columns.as_slice(),
            None => none,
        }
    }

    /// The position of the relation, or how many there are where it isn't in the catalogue.
    pub fn position_of(&self, name: &str) -> usize
        ensures { result ≡ relation_index self.now name.now }
    {
        match self.positions.value_of(name) {
            Some(position) => position,
            None => self.relations.len(),
        }
    }
}

fn relation_at(relations: &[Relation], position: usize) -> Option<&Relation>
    ensures { option_map (λ r. r.now) result ≡ slice_get relations.now position }
{
    relations.get(position)
}

/// The name of each relation, with its position.
fn relation_indices(
    alloc: Global,
    relations: &[Relation],
) -> Result<Vec<Mention<'_, usize>>, AllocError>
    ensures { IfOk result (λ names. names.items ≡ relation_indices 0 relations.now) }
{
    let mut names = Vec::new(alloc);
    for (position, relation) in relations.iter().enumerate() {
        names.push(Mention::new(relation.name.as_str(), position))?;
    }
    Ok(names)
}
