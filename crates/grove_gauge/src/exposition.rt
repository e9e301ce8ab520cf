ghost use Rattle.std.specs.Prelude.{◌≡◌, ◌<◌, ◌++◌, [], length, OnOk, string_bytes};
ghost use Rattle.grove_gauge.specs.Scales.{most_of};
ghost use Rattle.grove_gauge.specs.Expositions.{all_text, bound_text, bounded_text, head_text, histogram_text};
ghost use Rattle.grove_gauge.specs.Expositions.{labelled_text, maybe_text, sample_text, single_text, sum_text};

use crate::{Buckets, Family, Scale, Seconds};
use grove_base::NoMemory;
use std::alloc::Global;
use std::fmt::Write;
use std::marker::Model;

/// A text in the form that Prometheus reads: families, each with its kind, a help and its samples.
#[derive(Drop)]
pub struct Exposition {
    text: String,
}

impl Model for Exposition {
    ghost use Rattle.std.specs.Prelude.{ℕ, List, string_bytes};

    ghost Value = { List ℕ };

    ghost view = { λ exposition. string_bytes exposition.text };
}

/// A label. Its value is a name or a path, so it has no quotation mark and no backslash.
#[derive(Clone, Copy)]
pub struct Label<'a> {
    pub name: &'static str,
    pub value: &'a str,
}

impl Exposition {
    pub fn new(alloc: Global) -> Exposition
        ensures { result ≡ [] }
    {
        Exposition {
            text: String::new(alloc),
        }
    }

    pub fn into_text(self) -> String
        ensures { string_bytes result ≡ self }
    {
        let Exposition { text } = self;
        text
    }

    /// Begins a family.
    pub fn begin(&mut self, family: Family) -> Result<(), NoMemory>
        ensures { OnOk result (self.new ≡ self.old ++ head_text family) }
    {
        let (name, kind, help) = (family.name(), family.kind(), family.help());
        Ok(write!(self.text, "# HELP {name} {help}\n# TYPE {name} {kind}\n")?)
    }

    /// A sample of a family with no label.
    fn sample(&mut self, family: Family, value: u64) -> Result<(), NoMemory>
        ensures { OnOk result (self.new ≡ self.old ++ sample_text family value) }
    {
        let name = family.name();
        Ok(write!(self.text, "{name} {value}\n")?)
    }

    /// A sample of a family with this label.
    pub fn labelled(&mut self, family: Family, label: Label<'_>, value: u64) -> Result<(), NoMemory>
        ensures { OnOk result
            (self.new ≡ self.old ++ labelled_text family label.entry.name.now label.entry.value.now value) }
    {
        let name = family.name();
        let Label {
            name: label,
            value: said,
        } = label;
        Ok(write!(self.text, "{name}{{{label}=\"{said}\"}} {value}\n")?)
    }

    /// A family of one sample without a label.
    pub fn single(&mut self, family: Family, value: u64) -> Result<(), NoMemory>
        ensures { OnOk result (self.new ≡ self.old ++ single_text family value) }
    {
        self.begin(family)?;
        self.sample(family, value)
    }

    /// The same, if there is a value.
    pub fn maybe(&mut self, family: Family, value: Option<u64>) -> Result<(), NoMemory>
        ensures { OnOk result (self.new ≡ self.old ++ maybe_text family value) }
    {
        match value {
            Some(value) => self.single(family, value),
            None => Ok(()),
        }
    }

    /// A family that is a histogram.
    pub fn histogram(&mut self, family: Family, buckets: &Buckets) -> Result<(), NoMemory>
        ensures { OnOk result (self.new ≡ self.old ++ histogram_text family buckets.now) }
    {
        self.begin(family)?;
        self.bounded(family, buckets)?;
        self.all(family, buckets)
    }

    /// A line for each bound, with how many values are within it.
    fn bounded(&mut self, family: Family, buckets: &Buckets) -> Result<(), NoMemory>
        ensures { OnOk result (self.new ≡ self.old ++ bounded_text family buckets.now) }
    {
        for place in 0..buckets.scale.len() {
            self.bound(family, buckets, place)?;
        }
        Ok(())
    }

    /// How many values are within the bound at the place.
    fn bound(&mut self, family: Family, buckets: &Buckets, place: usize) -> Result<(), NoMemory>
        requires { place < length (most_of buckets.now.scale) }
        ensures { OnOk result (self.new ≡ self.old ++ bound_text family buckets.now place) }
    {
        let name = family.name();
        let most = buckets.scale.bound(place).1;
        let count = buckets.within(place);
        Ok(write!(self.text, "{name}_bucket{{le=\"{most}\"}} {count}\n")?)
    }

    /// How many values there are, and their sum.
    fn all(&mut self, family: Family, buckets: &Buckets) -> Result<(), NoMemory>
        ensures { OnOk result (self.new ≡ self.old ++ all_text family buckets.now) }
    {
        let name = family.name();
        let total = buckets.total();
        write!(
            self.text,
            "{name}_bucket{{le=\"+Inf\"}} {total}\n{name}_sum "
        )?;
        push_sum(&mut self.text, buckets)?;
        Ok(write!(self.text, "\n{name}_count {total}\n")?)
    }
}

/// The sum of the values, in the unit that is shown.
fn push_sum(text: &mut String, buckets: &Buckets) -> Result<(), NoMemory>
    ensures { OnOk result
        (string_bytes text.new ≡ string_bytes text.old ++ sum_text buckets.now.scale buckets.now.sum) }
{
    let sum = buckets.sum;
    match buckets.scale {
        Scale::Lines => Ok(write!(text, "{sum}")?),
        Scale::Times => {
            let seconds = Seconds { micros: sum };
            Ok(write!(text, "{seconds}")?)
        }
    }
}
