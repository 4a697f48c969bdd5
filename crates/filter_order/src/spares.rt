//! The references to the present versions of filters that are kept, so that a batch
//! is taken without memory.
ghost use Rattle.std.specs.Prelude.{◌≡◌, ◌<◌, ◌≤◌, ◌==◌, ◌++◌, [], if◌then◌else◌, length, option_map, slice_index_or, slice_set, true, All, None, Some, IfOk, IfSome};
ghost use Rattle.std.specs.Option.{option_to_list};
ghost use Rattle.std.specs.Int.{bit_at};
ghost use Rattle.batch_flow.specs.Rows.{Rows};
ghost use Rattle.filter_order.specs.Filtered.{version_at};
ghost use Rattle.filter_order.specs.Filters.{left_of, no_rows, rows_or_none, versions_left};
ghost use Rattle.filter_order.specs.Spares.{AreApart, HasPlace, IsSpareFor, first_spares, is_present, spare_at, with_all_returned, with_all_taken, with_returned, with_spare};

use crate::filter_version::{FilterVersion, Reference, References};
use crate::filters::Filters;
use crate::versions::Versions;
use batch_flow::Batch;
use star_values::{ListOf, NoMemory};
use std::alloc::Global;
use std::marker::Model;

/// For each dimension, and there for each seat, a reference to the table of the present version of
/// the filter, while the seat does not have that version in its hand.
#[derive(Debug, Drop)]
pub struct Spares {
    dimensions: ListOf<References>,
}

impl Model for Spares {
    ghost use Rattle.std.specs.Prelude.{List, Option};
    ghost use Rattle.dimension_filter.specs.Filter.{Filter};

    ghost Value = { List (List (Option Filter)) };

    ghost view = { λ spares. spares.dimensions };
}

impl Spares {
    /// No references, which takes no memory yet.
    pub fn new(alloc: Global) -> Spares
        ensures { result ≡ [] }
    {
        Spares {
            dimensions: ListOf::new(alloc),
        }
    }

    /// A reference for each of so many seats to the table of each filter, at the place of the
    /// filter. So the filters are those of all dimensions.
    pub fn of_all(alloc: Global, filters: &Filters, seats: u32) -> Result<Spares, NoMemory>
        ensures { IfOk result (λ spares. spares ≡ first_spares seats filters.now.versions) }
    {
        let dimensions = references_of_all(alloc, filters.versions(), seats)?;
        Ok(Spares { dimensions })
    }

    /// The references of a dimension are these from now on.
    pub fn renew(&mut self, dimension: u8, references: References)
        requires { dimension < length self.old }
        ensures { self.new ≡ slice_set self.old dimension references }
    {
        renew(&mut self.dimensions, dimension, references);
    }

    /// Takes the reference of a seat, which is kept, and gives the version once more by it.
    pub fn take(&mut self, seat: u32, version: &FilterVersion) -> FilterVersion
        requires { spare_at self.old version.now.filter.dimension seat ≡ Some version.now.filter }
        ensures version { result ≡ version.now }
        ensures left { self.new ≡ with_spare version.now.filter.dimension seat None self.old }
    {
        take_version(&mut self.dimensions, seat, version)
    }

    /// Takes the references of a seat, which are kept, to the versions that a batch has still to
    /// pass, and gives these versions once more by them.
    pub fn take_all(&mut self, seat: u32, filters: &Filters, batch: &Batch) -> Versions
        requires apart { AreApart (versions_left filters.now batch.now) }
        requires kept { All (IsSpareFor seat self.old) (versions_left filters.now batch.now) }
        ensures versions { result ≡ versions_left filters.now batch.now }
        ensures left { self.new
            ≡ with_all_taken seat (versions_left filters.now batch.now) self.old }
    {
        take_left(
            &mut self.dimensions,
            seat,
            filters,
            filters.order(),
            Some(batch),
        )
    }

    /// Takes the references of a seat, which are kept, to the versions of all filters, in their
    /// present order, as they are left to a batch that passed none.
    pub fn take_present(&mut self, seat: u32, filters: &Filters) -> Versions
        requires apart { AreApart (versions_left filters.now no_rows) }
        requires kept { All (IsSpareFor seat self.old) (versions_left filters.now no_rows) }
        ensures versions { (rows : Rows) → rows.passed ≡ 0 →
            result ≡ versions_left filters.now rows }
        ensures left { self.new
            ≡ with_all_taken seat (versions_left filters.now no_rows) self.old }
    {
        take_left(&mut self.dimensions, seat, filters, filters.order(), None)
    }

    /// Keeps the reference of a seat again, where its version is still the present one of the
    /// filter. It lets any other go.
    pub fn give(&mut self, seat: u32, version: FilterVersion, filters: &Filters)
        requires { is_present filters.now.versions version ≡ true →
            HasPlace version.filter.dimension seat self.old }
        ensures { self.new
            ≡ with_returned seat version (is_present filters.now.versions version) self.old }
    {
        let present = filters.is_present(&version);
        give_version(&mut self.dimensions, seat, version, present);
    }

    /// Keeps the references of a seat again whose versions are still the present ones of their
    /// filters. It lets all others go.
    pub fn give_all(&mut self, seat: u32, versions: Versions, filters: &Filters)
        requires { All (λ version. is_present filters.now.versions version ≡ true
            → HasPlace version.filter.dimension seat self.old) versions }
        ensures { self.new ≡ with_all_returned seat filters.now.versions versions self.old }
    {
        give_each(&mut self.dimensions, seat, versions, filters);
    }
}

/// For each of these versions a reference to its table for each of so many seats.
fn references_of_all(
    alloc: Global,
    versions: &[FilterVersion],
    seats: u32,
) -> Result<ListOf<References>, NoMemory>
    ensures { IfOk result (λ spares. spares ≡ first_spares seats versions.now) }
{
    let mut spares = ListOf::new(alloc);
    'versions: for version in versions {
        spares.push(version.references(alloc, seats)?)?;
    }
    Ok(spares)
}

/// What `Spares::renew` does, over the list alone.
fn renew(spares: &mut ListOf<References>, dimension: u8, references: References)
    requires { dimension < length spares.old }
    ensures { spares.new ≡ slice_set spares.old dimension references }
{
    spares.as_mut_slice()[dimension as usize] = references;
}

/// What `Spares::take` does, over the list alone.
fn take_version(
    spares: &mut ListOf<References>,
    seat: u32,
    version: &FilterVersion,
) -> FilterVersion
    requires { spare_at spares.old version.now.filter.dimension seat ≡ Some version.now.filter }
    ensures version { result ≡ version.now }
    ensures left { spares.new ≡ with_spare version.now.filter.dimension seat None spares.old }
{
    let reference = take_at(spares, version.dimension(), seat).unwrap();
    version.another(reference)
}

/// What `Spares::take_all` does, over the list alone, of the filters of these dimensions. Where
/// there is no batch, none of them was passed.
fn take_left(
    spares: &mut ListOf<References>,
    seat: u32,
    filters: &Filters,
    order: &[u8],
    batch: Option<&Batch>,
) -> Versions
    requires few { length order.now ≤ 8 }
    requires dimensions { All (λ dimension. dimension < 8) order.now }
    requires apart { let rows = rows_or_none (option_map (λ batch. batch.now) batch) in
        AreApart (left_of filters.now.versions rows order.now) }
    requires kept { let rows = rows_or_none (option_map (λ batch. batch.now) batch) in
        All (IsSpareFor seat spares.old) (left_of filters.now.versions rows order.now) }
    ensures versions { let rows = rows_or_none (option_map (λ batch. batch.now) batch.entry) in
        result ≡ left_of filters.now.versions rows order.now }
    ensures left { let rows = rows_or_none (option_map (λ batch. batch.now) batch.entry) in
        spares.new ≡ with_all_taken seat (left_of filters.now.versions rows order.now) spares.old }
{
    let mut versions = Versions::new();
    'order: for dimension in order {
        let left = left_to(filters, *dimension, batch);
        take_next(spares, seat, left, &mut versions);
    }
    versions
}

/// The present version of the filter of a dimension, if it has one that a batch did not pass. Where
/// there is no batch, it was not passed.
fn left_to<'a>(
    filters: &'a Filters,
    dimension: u8,
    batch: Option<&Batch>,
) -> Option<&'a FilterVersion>
    requires { dimension < 8 }
    ensures { option_map (λ version. version.now) result
        ≡ (let rows = rows_or_none (option_map (λ batch. batch.now) batch.entry) in
        if bit_at rows.passed dimension == 1 then None
        else version_at filters.now.versions dimension) }
{
    match batch {
        Some(batch) => filters.left(dimension, batch),
        None => filters.find(dimension),
    }
}

/// Takes the reference to a version, if there is one, and puts the version behind others.
fn take_next(
    spares: &mut ListOf<References>,
    seat: u32,
    left: Option<&FilterVersion>,
    versions: &mut Versions,
)
    requires kept { IfSome left (λ version. IsSpareFor seat spares.old version.now) }
    requires room { length versions.old < 8 }
    ensures versions { versions.new
        ≡ versions.old ++ option_to_list (option_map (λ version. version.now) left.entry) }
    ensures left { spares.new
        ≡ with_all_taken seat (option_to_list (option_map (λ version. version.now) left.entry))
        spares.old }
{
    if let Some(version) = left {
        versions.push(take_version(spares, seat, version));
    }
}

/// What `Spares::give` does, over the list alone, with a version that is the present one or is not.
fn give_version(spares: &mut ListOf<References>, seat: u32, version: FilterVersion, present: bool)
    requires { present ≡ true → HasPlace version.filter.dimension seat spares.old }
    ensures { spares.new ≡ with_returned seat version present spares.old }
{
    if present {
        put_at(spares, version.dimension(), seat, version.into_reference());
    }
}

/// What `Spares::give_all` does, over the list alone. The last version is given first.
fn give_each(spares: &mut ListOf<References>, seat: u32, mut versions: Versions, filters: &Filters)
    requires { All (λ version. is_present filters.now.versions version ≡ true
        → HasPlace version.filter.dimension seat spares.old) versions }
    ensures { spares.new ≡ with_all_returned seat filters.now.versions versions spares.old }
{
    'versions: while let Some(version) = versions.pop() {
        let kept = filters.is_present(&version);
        give_version(spares, seat, version, kept);
    }
}

/// Takes what is kept for a seat of a dimension.
fn take_at(spares: &mut ListOf<References>, dimension: u8, seat: u32) -> Option<Reference>
    requires { HasPlace dimension seat spares.old }
    ensures taken { result ≡ spare_at spares.old dimension seat }
    ensures left { spares.new ≡ with_spare dimension seat None spares.old }
{
    take_reference(&mut spares.as_mut_slice()[dimension as usize], seat)
}

/// Takes what is kept for a seat.
fn take_reference(references: &mut References, seat: u32) -> Option<Reference>
    requires { seat < length references.old }
    ensures taken { result ≡ slice_index_or references.old seat None }
    ensures left { references.new ≡ slice_set references.old seat None }
{
    references.as_mut_slice()[seat as usize].take()
}

/// Keeps a reference for a seat of a dimension.
fn put_at(spares: &mut ListOf<References>, dimension: u8, seat: u32, reference: Reference)
    requires { HasPlace dimension seat spares.old }
    ensures { spares.new ≡ with_spare dimension seat (Some reference) spares.old }
{
    put_reference(
        &mut spares.as_mut_slice()[dimension as usize],
        seat,
        reference,
    );
}

/// Keeps a reference for a seat.
fn put_reference(references: &mut References, seat: u32, reference: Reference)
    requires { seat < length references.old }
    ensures { references.new ≡ slice_set references.old seat (Some reference) }
{
    references.as_mut_slice()[seat as usize] = Some(reference);
}
