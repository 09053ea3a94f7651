//! What an atom selects of its relation's rows: a pattern, and the comparisons that are placed at the atom.

ghost use Rattle.std.specs.Prelude.{◌≡◌, length, Some, None, cond, IfOk, IfErr, option_and_then};
ghost use Rattle.row_match.specs.Patterns.{pattern_variables};
ghost use Rattle.collect_core.specs.Selecting.{passes, selected_row};

use row_match::{Filter, Pattern};
use std::alloc::Global;
use std::marker::Model;
use tuple_core::Row;

/// A pattern, with a filter over its variables.
#[derive(Debug, Drop)]
pub struct Selection {
    pattern: Pattern,
    filter: Filter,
}

impl Model for Selection {
    ghost use Rattle.std.specs.Prelude.{◌≡◌};
    ghost use Rattle.row_match.specs.Patterns.{pattern_variables};
    ghost use Rattle.collect_core.specs.Selecting.{Select};

    ghost Value = { Select };

    ghost view = { λ s. record { terms = s.pattern; comparisons = s.filter.comparisons } };

    ghost invariant = { λ s. s.filter.vars ≡ pattern_variables s.pattern };
}

impl Selection {
    pub fn new(pattern: Pattern, filter: Filter) -> Self
        requires { filter.vars ≡ pattern_variables pattern }
        ensures { result ≡ record { terms = pattern; comparisons = filter.comparisons } }
    {
        Selection { pattern, filter }
    }

    /// The row's values of the atom's variables, if it matches and passes. Where memory runs out, the row is
    /// handed back. An atom that asks for a variable of its own in each column takes the row as it is.
    pub(crate) fn select(&self, alloc: Global, row: Row) -> Result<Option<Row>, Row>
        requires width { length row ≡ length self.now.terms }
        ensures selected { IfOk result (λ selected. selected ≡ selected_row self.now row) }
        ensures back { IfErr result (λ back. back ≡ row) }
    {
        if row.values().len() == self.pattern.variables().as_slice().len() {
            return Ok(self.passing(row));
        }
        match self.pattern.match_row(alloc, &row) {
            Ok(Some(values)) => Ok(self.passing(values)),
            Ok(None) => Ok(None),
            Err(_) => Err(row),
        }
    }

    // The values, if each comparison holds of them.
    fn passing(&self, values: Row) -> Option<Row>
        requires width { length values ≡ length (pattern_variables self.now.terms) }
        ensures { result ≡ cond (passes self.now values) (Some values) None }
    {
        if self.filter.holds(&values) {
            Some(values)
        } else {
            None
        }
    }
}
