//! Laws of the definitions. The calls do nothing.

ghost use Rattle.cnf_text.specs.Dimacs.{NoFaultBesideDimacs, OneDimacsFormula};
ghost use Rattle.cnf_text.specs.Laws.{ItemsOrAFault, OneTextFault, OneListOfItems};
ghost use Rattle.cnf_text.specs.Laws.{NoFaultBesideItems};

/// Each text stands for items, or has a fault.
pub fn items_or_a_fault()
    ensures { ItemsOrAFault }
{}

/// A text has one fault at most.
pub fn one_fault()
    ensures { OneTextFault }
{}

/// A text stands for one list of items at most.
pub fn one_list_of_items()
    ensures { OneListOfItems }
{}

/// A text that stands for items has no fault.
pub fn no_fault_beside_items()
    ensures { NoFaultBesideItems }
{}

/// A DIMACS text is that of one formula at most.
pub fn one_dimacs_formula()
    ensures { OneDimacsFormula }
{}

/// A DIMACS text of a formula within the limits has no fault.
pub fn no_fault_beside_dimacs()
    ensures { NoFaultBesideDimacs }
{}
