//! Where each comparison is tested: at the first node that binds its variables.

ghost use Rattle.std.specs.List.{filter_map, list_any};
ghost use Rattle.std.specs.Prelude.{◌≡◌, [], ◌∷◌, IfOk};
ghost use Rattle.med_base.specs.declared.names.Name.TheVariants as name;
ghost use Rattle.plan_checker.specs.Places.{atom_has, atom_site, binds, binds_term, is_variable, place_of, places, site, sites};

use crate::uses::{atom_of, nodes_in};
use crate::walking::{Site, all_join_sites};
use join_trees::Node;
use med_base::Name;
use med_prelude::Listed;
use plan_reader::Fragment;
use query_core::{Atom, Comparison, Query, Term};
use std::alloc::{AllocError, Global};

fn atom_site(alloc: Global, atom: u32) -> Result<Site, AllocError>
    ensures { IfOk result (λ s. s ≡ site (name.Atom atom) (atom ∷ [])) }
{
    let mut atoms = Listed::new(alloc);
    atoms.push(atom)?;
    Ok(Site {
        name: Name::Atom(atom),
        atoms,
    })
}

/// The atoms among the nodes.
fn atom_sites(alloc: Global, nodes: &[Node]) -> Result<Listed<Site>, AllocError>
    ensures { IfOk result (λ sites. sites ≡ filter_map atom_site nodes.now) }
{
    let mut sites = Listed::new(alloc);
    for node in nodes {
        if let Some(atom) = atom_of(*node) {
            sites.push(atom_site(alloc, atom)?)?;
        }
    }
    Ok(sites)
}

/// The nodes where a comparison can be tested: atoms, and then joins.
fn sites(alloc: Global, fragments: &[Fragment]) -> Result<Listed<Site>, AllocError>
    ensures { IfOk result (λ found. found ≡ sites fragments.now) }
{
    let nodes = nodes_in(alloc, fragments)?;
    let mut found = atom_sites(alloc, nodes.as_slice())?;
    for site in all_join_sites(alloc, fragments)?.into_vec() {
        found.push(site)?;
    }
    Ok(found)
}

fn is_variable(variable: u32, term: &Term) -> bool
    ensures { result ≡ is_variable variable term.now }
{
    match term {
        Term::Constant(_) => false,
        Term::Variable(other) => *other == variable,
    }
}

fn stands_among(variable: u32, terms: &[Term]) -> bool
    ensures { result ≡ list_any (is_variable variable) terms.now }
{
    terms.iter().any(|term| is_variable(variable, term))
}

/// Whether the variable stands in the atom of that number.
fn atom_has(atoms: &[Atom], variable: u32, atom: u32) -> bool
    ensures { result ≡ atom_has atoms.now variable atom }
{
    match atoms.get(atom.saturating_sub(1) as usize) {
        Some(atom) => stands_among(variable, atom.terms.as_slice()),
        None => false,
    }
}

fn stands_under(atoms: &[Atom], variable: u32, under: &[u32]) -> bool
    ensures { result ≡ list_any (atom_has atoms.now variable) under.now }
{
    under.iter().any(|atom| atom_has(atoms, variable, *atom))
}

fn binds_term(atoms: &[Atom], site: &Site, term: &Term) -> bool
    ensures { result ≡ binds_term atoms.now site.now term.now }
{
    match term {
        Term::Constant(_) => true,
        Term::Variable(variable) => stands_under(atoms, *variable, site.atoms.as_slice()),
    }
}

/// Whether each variable of the comparison stands in one of the atoms under the node.
fn binds(atoms: &[Atom], comparison: &Comparison, site: &Site) -> bool
    ensures { result ≡ binds atoms.now comparison.now site.now }
{
    binds_term(atoms, site, &comparison.left) && binds_term(atoms, site, &comparison.right)
}

/// The first node that binds the comparison's variables.
fn place_of(atoms: &[Atom], sites: &[Site], comparison: &Comparison) -> Option<Name>
    ensures { result ≡ place_of atoms.now sites.now comparison.now }
{
    for site in sites {
        if binds(atoms, comparison, site) {
            return Some(site.name);
        }
    }
    None
}

/// The place of each comparison.
#[tactic(auto, unfolding(crate::specs::Places::places))]
pub fn places(
    alloc: Global,
    query: &Query,
    fragments: &[Fragment],
) -> Result<Listed<Name>, AllocError>
    ensures { IfOk result (λ found. found ≡ places query.now fragments.now) }
{
    let found = sites(alloc, fragments)?;
    let (atoms, sites) = (query.atoms.as_slice(), found.as_slice());
    let mut places = Listed::new(alloc);
    for comparison in query.comparisons.as_slice() {
        if let Some(name) = place_of(atoms, sites, comparison) {
            places.push(name)?;
        }
    }
    Ok(places)
}
