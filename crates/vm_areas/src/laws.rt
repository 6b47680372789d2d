// Laws of the definitions, each the contract of a function that does nothing.

ghost use Rattle.vm_areas.specs.PageMap.{OneListForAPageMap};
ghost use Rattle.vm_areas.specs.Painted.{IsPaintedByAChange, NoPagesNoChange, OneResultOfAChange};

/// A page map has one list of areas: two lists of maximal runs with the same rights at each page are equal.
pub fn one_list_for_a_page_map()
    ensures { OneListForAPageMap }
{}

/// After a change of the rights of a range the page map is the old one painted over the range, page by page: after `put`
/// each page of it has the rights, after `cut` none of it is mapped, and each other page has the rights that it had.
pub fn painted_over_the_range()
    ensures { IsPaintedByAChange }
{}

/// A change of the rights of a range has one result: the list that `put` and `cut` speak of.
pub fn one_result_of_a_change()
    ensures { OneResultOfAChange }
{}

/// A change of the rights of no pages changes nothing.
pub fn no_change_without_pages()
    ensures { NoPagesNoChange }
{}
