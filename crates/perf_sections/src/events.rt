//! The events of a file.

ghost use Rattle.std.specs.Prelude.{◌≡◌};
ghost use Rattle.perf_base.specs.Configuration.{configured_by};
ghost use Rattle.perf_base.specs.Configured.{configuration_of, endian_of};

use crate::naming::EventName;
use perf_base::ParseConfig;
use perf_base::endian::{Dynamic, Native};
use perf_base::sys::perf_event_attr;

/// An event of a file.
#[derive(Debug, Drop)]
pub struct Event<'p> {
    attr: perf_event_attr,
    config: ParseConfig<Dynamic>,
    ids: Vec<u64>,
    name: EventName<'p>,
    ghost configured: { configuration_of config ≡ configured_by attr },
}

impl<'p> Event<'p> {
    ghost use Rattle.perf_sections.specs.Names as names;

    // The event of an attribute, its ids and its name, of a file in that order.
    pub fn new(
        attr: perf_event_attr,
        order: Dynamic,
        ids: Vec<u64>,
        name: EventName<'p>,
    ) -> Event<'p>
        ensures attr { result.attr ≡ attr }
        ensures ids { result.ids ≡ ids }
        ensures order { endian_of result.config ≡ order }
        ensures name { names.name_view result.name ≡ names.name_view name.entry }
    {
        Event {
            attr,
            config: config_of(attr, order),
            ids,
            name,
        }
    }

    // Gives it another name, as the file states.
    pub fn rename(&mut self, name: &'p [u8])
        ensures attr { self.new.attr ≡ self.old.attr }
        ensures ids { self.new.ids ≡ self.old.ids }
        ensures config { self.new.config ≡ self.old.config }
        ensures name { names.name_view self.new.name ≡ names.described name.now }
    {
        let own = &mut self.name;
        *own = EventName::Described(name);
    }

    /// Its attribute. The single bits of `flags` are counted from the lowest, also if the file was
    /// written by a big-endian machine, which counts them from the highest.
    pub fn attr(&self) -> &perf_event_attr
        ensures { result.now ≡ self.now.attr }
    {
        &self.attr
    }

    /// How its records are read.
    pub fn config(&self) -> &ParseConfig<Dynamic>
        ensures is { result.now ≡ self.now.config }
        ensures value { configuration_of result.now ≡ configured_by self.now.attr }
    {
        &self.config
    }

    /// The kernel's numbers for it: one for each processor or task on which it was opened. There
    /// may be none if the file has one event.
    pub fn ids(&self) -> &[u64]
        ensures { result.now ≡ self.now.ids.items }
    {
        &self.ids
    }

    /// Its name: in a pipe the last one that perf states for one of its ids, or else the one of its description in the file, which is found by its first id, or without
    /// ids by its type and its config; or else the one that perf prints for an event of the kernel's
    /// own; or else these two numbers.
    ///
    /// It was found as the file was opened. A description that is cut off ends them.
    pub fn name(&self) -> EventName<'p>
        ensures { names.name_view result ≡ names.name_view self.now.name }
    {
        self.name
    }
}

// The configuration that an attribute gives, in an order.
fn config_of(attr: perf_event_attr, order: Dynamic) -> ParseConfig<Dynamic>
    ensures value { configuration_of result ≡ configured_by attr }
    ensures order { endian_of result ≡ order }
{
    ParseConfig::<Native>::from(attr).with_endian(order)
}
