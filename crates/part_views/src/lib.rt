//! What a view shows of an owner's tables: the whole, or the rows of one key of a partition, which a catalog has or an analyst made.
//! The functions here do nothing: the contract of each is a law.
#![tactic(auto)]

ghost use Rattle.part_views.specs.Laws.{PartsAreDisjoint, PartsAreNoFurtherApart, PartsAreNoFurtherThanTheirTable, PartsAreSublists, ViewsAreDatasets};
ghost use Rattle.part_views.specs.SeenLaws.{CatalogViewsStay, MadePartsAreSeen, PartsSeenAreDisjoint, PartsSeenAreNoFurtherApart, PartsSeenAreNoFurtherThanTheirTable, PartsSeenAreOfTheirKeys, PartsSeenAreSublists, ViewsSeenAreDatasets, ViewsStayWhereNothingIsMade};

mod dataset;
mod division;
pub mod made_parts;

pub use dataset::Dataset;

/// A view of a dataset is a dataset of the view's tables.
pub fn views_are_datasets()
    ensures { ViewsAreDatasets }
{}

/// A part's rows are rows of its partition's table, in their order, and no row is in two parts.
pub fn parts_are_disjoint()
    ensures sublists { PartsAreSublists }
    ensures disjoint { PartsAreDisjoint }
{}

/// The parts of a partition are together no further apart than its table, and so no further than the datasets.
pub fn parts_are_no_further_apart()
    ensures table { PartsAreNoFurtherThanTheirTable }
    ensures datasets { PartsAreNoFurtherApart }
{}

/// A view is a dataset of its tables, whether its partition is the catalog's or made.
pub fn views_seen_are_datasets()
    ensures { ViewsSeenAreDatasets }
{}

/// A part's rows are those of its table whose class is its key, in their order, and no row is in two parts.
pub fn parts_seen_are_disjoint()
    ensures sublists { PartsSeenAreSublists }
    ensures keys { PartsSeenAreOfTheirKeys }
    ensures disjoint { PartsSeenAreDisjoint }
{}

/// The parts of a partition, the catalog's or a made one, are together no further apart than its table, and so no further than the
/// datasets.
pub fn parts_seen_are_no_further_apart()
    ensures table { PartsSeenAreNoFurtherThanTheirTable }
    ensures datasets { PartsSeenAreNoFurtherApart }
{}

/// What is made changes no view of the catalog's, and where nothing is made there are these alone.
pub fn catalog_views_stay()
    ensures made { CatalogViewsStay }
    ensures none { ViewsStayWhereNothingIsMade }
{}

/// A made partition shows the parts into which its table is divided.
pub fn made_parts_are_seen()
    ensures { MadePartsAreSeen }
{}
