//! The accesses of a list, as they are read one after the other.
ghost use Rattle.std.specs.Prelude.{◌≡◌, ◌∷◌, [], ◌++◌, List, OnOk};
ghost use Rattle.serde_json.specs.Data.{Data};
ghost use Rattle.grove_tree.specs.Trees.{Rows};
ghost use Rattle.grove_wire.specs.declared.place.Place.{Place as SpecPlace};
ghost use Rattle.grove_wire.specs.declared.versions.Version.TheVariants as version;
ghost use Rattle.grove_wire.specs.declared.versions.Version.{Version as SpecVersion};
ghost use Rattle.grove_wire.specs.FlatValues.{access_on, few_seen, few_of};
ghost use Rattle.grove_wire.specs.Outcomes.{few_on};
ghost use Rattle.grove_wire.specs.Reading.{access_at};
ghost use Rattle.grove_line.specs.ArrayItems.{with_next};
ghost use Rattle.grove_line.specs.ListReading.{IsReading, first_of, second_of, read_in};

use crate::list_read::ListRead;
use grove_access::{Access, AccessList, MOST_ACCESSES};
use grove_tree::Tree;
use grove_wire::{AccessForm, Few, Place, WireFault};
use std::alloc::{AllocFailed, Global};

/// What is read of a list so far.
#[derive(Drop)]
pub(crate) struct Accesses {
    /// Those before the fault.
    all: Vec<Access>,
    /// The first fault, in the second version.
    fault: Option<WireFault>,
    /// The place of the first access that tells a length, where none before it has a fault.
    told: Option<Place>,
    /// How many items there are, or one more than there may be.
    count: usize,
}

impl Accesses {
    pub(crate) fn new(alloc: Global) -> Accesses
        ensures { (tree : Rows) (place : SpecPlace) → IsReading tree place [] result }
    {
        Accesses {
            all: Vec::new(alloc),
            fault: None,
            told: None,
            count: 0,
        }
    }

    /// Reads one more item of the list that stands at the place.
    #[inline(always)]
    pub(crate) fn add(
        &mut self,
        tree: &Tree,
        place: Place,
        items: Few<'_>,
    ) -> Result<(), AllocFailed<Access>>
        ensures { OnOk result ((front : List Data) (d : Data) → few_seen items.entry ≡ few_of d
            → IsReading tree.now place front self.old → IsReading tree.now place (front ++ d ∷ []) self.new) }
    {
        if self.count >= MOST_ACCESSES {
            self.count = MOST_ACCESSES + 1;
            return Ok(());
        }
        self.read(tree, place.within(self.count as u32), items)?;
        self.count += 1;
        Ok(())
    }

    /// Reads the item that stands at the place, if none before it has a fault.
    fn read(&mut self, tree: &Tree, place: Place, items: Few<'_>) -> Result<(), AllocFailed<Access>>
        ensures first { OnOk result (first_of self.new ≡ with_next (first_of self.old)
            (access_on tree.now version.First place (few_seen items.entry))) }
        ensures second { OnOk result (second_of self.new ≡ with_next (second_of self.old)
            (access_on tree.now version.Second place (few_seen items.entry))) }
        ensures count { OnOk result (self.new.count ≡ self.old.count) }
    {
        if self.fault.is_some() {
            return Ok(());
        }
        let Some(form) = AccessForm::of(items) else {
            self.fault = Some(WireFault::Shape(place));
            return Ok(());
        };
        if self.told.is_none() && form.tells_length() {
            self.told = Some(place);
        }
        match form.on(tree, place) {
            Ok(access) => self.all.push(access)?,
            Err(fault) => self.fault = Some(fault),
        }
        Ok(())
    }

    /// The list that these are, over the tree, where it stands at the place.
    pub(crate) fn into_list(self, tree: &Tree, place: Place) -> ListRead
        requires { (ds : List Data) × IsReading tree.now place ds self }
        ensures { (ds : List Data) (v : SpecVersion) → IsReading tree.now place ds self
            → read_in v result ≡ few_on 64 (access_at tree.now v) place ds }
    {
        if self.count > MOST_ACCESSES {
            return ListRead {
                list: Err(WireFault::Limit(place)),
                told: None,
            };
        }
        let told = self.told;
        if let Some(fault) = self.fault {
            return ListRead {
                list: Err(fault),
                told,
            };
        }
        let Ok(list) = AccessList::of(tree, self.all) else {
            unreachable!()
        };
        ListRead {
            list: Ok(list),
            told,
        }
    }
}
