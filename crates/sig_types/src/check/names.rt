//! Names that must not repeat, and names that must be known. A set of the names seen so far answers both with one
//! look-up a name, so a list of any length is gone over once.
ghost use Rattle.std.specs.Prelude.{◌≡◌, [], ◌∷◌, ◌++◌, not, map, IfOk, OnOk};
ghost use Rattle.sig_types.specs.Breaches.{breach_if, each, has, named, repeats, repeats_after, unknown_among};
ghost use Rattle.sig_types.specs.Spots.{at_key, block_at, element_place, item_at, place_of, test_at};
ghost use Rattle.sig_types.specs.Refused.{IsVerdict};
ghost use Rattle.sig_types.specs.declared.refusals.Code.TheVariants.{M07};
ghost use Rattle.sig_types.specs.declared.refusals.Key.TheVariants.{Name as NameKey};
ghost use Rattle.sig_types.specs.declared.refusals.Kind.TheVariants.{Part as PartKind, Point as PointKind, Use as UseKind};

use crate::model::{Block, Part, Point, Test, Used};
use crate::name::Name;
use crate::refusals::{Code, Key, Kind, ModelFault, Place, Refusal};
use crate::spot::Spot;
use indexmap::IndexSet;
use std::alloc::Global;

/// What stands under a name in its scope.
pub(crate) trait Named {
    ghost use Rattle.std.specs.Prelude.{List, ℕ};
    ghost use Rattle.sig_types.specs.declared.refusals.Place.{Place};
    ghost use Rattle.sig_types.specs.declared.spot.Spot.{Spot};

    ghost name_of: { Self → List ℕ };

    /// Where the name of the one of a number stands: names are elements of the list at a spot, and else each stands in a
    /// table of its own in the table at the spot.
    ghost name_place: { Spot → ℕ → Place };

    fn name(&self) -> Name
        ensures { result ≡ name_of self.now };

    fn name_place(list: Spot, number: u64) -> Place
        ensures { result ≡ name_place list number };
}

impl Named for Name {
    ghost name_of = { λ name. name };

    ghost name_place = { element_place };

    fn name(&self) -> Name {
        *self
    }

    fn name_place(list: Spot, number: u64) -> Place {
        list.element(number).place()
    }
}

impl Named for Block {
    ghost name_of = { λ block. block.name };

    ghost name_place = { λ list number. place_of (at_key (block_at number) NameKey) };

    fn name(&self) -> Name {
        self.name
    }

    fn name_place(list: Spot, number: u64) -> Place {
        Spot::block(number).at(Key::Name).place()
    }
}

impl Named for Part {
    ghost name_of = { λ part. part.name };

    ghost name_place = { λ list number. place_of (at_key (item_at list PartKind number) NameKey) };

    fn name(&self) -> Name {
        self.name
    }

    fn name_place(list: Spot, number: u64) -> Place {
        list.item(Kind::Part, number).at(Key::Name).place()
    }
}

impl Named for Used {
    ghost name_of = { λ used. used.name };

    ghost name_place = { λ list number. place_of (at_key (item_at list UseKind number) NameKey) };

    fn name(&self) -> Name {
        self.name
    }

    fn name_place(list: Spot, number: u64) -> Place {
        list.item(Kind::Use, number).at(Key::Name).place()
    }
}

impl Named for Point {
    ghost name_of = { λ point. point.name };

    ghost name_place = { λ list number. place_of (at_key (item_at list PointKind number) NameKey) };

    fn name(&self) -> Name {
        self.name
    }

    fn name_place(list: Spot, number: u64) -> Place {
        list.item(Kind::Point, number).at(Key::Name).place()
    }
}

impl Named for Test {
    ghost name_of = { λ test. test.name };

    ghost name_place = { λ list number. place_of (at_key (test_at list number) NameKey) };

    fn name(&self) -> Name {
        self.name
    }

    fn name_place(list: Spot, number: u64) -> Place {
        list.test(number).at(Key::Name).place()
    }
}

/// The refusal of this code, where the rule is broken.
pub(crate) fn refuse_if(broken: bool, code: Code, place: Place) -> Result<(), ModelFault>
    ensures { IsVerdict (breach_if broken code place) result }
{
    if broken {
        return Err(ModelFault::Refused(Refusal { code, place }));
    }
    Ok(())
}

/// Adds a name to those seen; a name that was seen is refused.
fn take_name(seen: &mut IndexSet<Name>, name: Name, place: Place) -> Result<(), ModelFault>
    ensures seen { OnOk result (seen.new.keys ≡ seen.old.keys ++ name ∷ []) }
    ensures verdict { IsVerdict (breach_if (has seen.old.keys name) M07 place) result }
{
    let added = seen.insert(name)?;
    refuse_if(!added, Code::M07, place)
}

/// Adds the names of a list to those seen; the first that was seen is refused.
pub(crate) fn take_names<T: Named>(
    seen: &mut IndexSet<Name>,
    items: &[T],
    list: Spot,
) -> Result<(), ModelFault>
    ensures seen { OnOk result (seen.new.keys ≡ seen.old.keys ++ map T.name_of items.now) }
    ensures verdict { IsVerdict (repeats_after seen.old.keys (each (λ k item. named (T.name_of item) (T.name_place list k)) items.now)) result }
{
    for (k, item) in items.iter().enumerate() {
        take_name(seen, item.name(), T::name_place(list, k as u64))?;
    }
    Ok(())
}

/// The names of a list by number, where none repeats.
pub(crate) fn number_names<T: Named>(
    alloc: Global,
    items: &[T],
    list: Spot,
) -> Result<IndexSet<Name>, ModelFault>
    ensures names { IfOk result (λ names. names.keys ≡ map T.name_of items.now) }
    ensures verdict { IsVerdict (repeats (each (λ k item. named (T.name_of item) (T.name_place list k)) items.now)) result }
{
    let mut names = IndexSet::new(alloc);
    take_names(&mut names, items, list)?;
    Ok(names)
}

/// Refuses the first name that repeats an earlier one of the list.
pub(crate) fn check_repeats<T: Named>(
    alloc: Global,
    items: &[T],
    list: Spot,
) -> Result<(), ModelFault>
    ensures { IsVerdict (repeats (each (λ k item. named (T.name_of item) (T.name_place list k)) items.now)) result }
{
    number_names(alloc, items, list)?;
    Ok(())
}

/// Refuses the first name that is not among the known ones.
pub(crate) fn check_known(
    known: &IndexSet<Name>,
    names: &[Name],
    list: Spot,
) -> Result<(), ModelFault>
    ensures { IsVerdict (unknown_among known.now.keys (element_place list) names.now) result }
{
    for (k, name) in names.iter().enumerate() {
        let place = list.element(k as u64).place();
        refuse_if(!known.contains(name), Code::M08, place)?;
    }
    Ok(())
}
