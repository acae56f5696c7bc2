//! Where the names of events are: each description is read once, and its events are found by its key.

ghost use Rattle.std.specs.Prelude.{◌≡◌, ◌≤◌, ◌<◌, ◌^◌, ℕ, None, MatchOption, IfSome, All, Contains, length, drop};
ghost use Rattle.std.specs.List.Sorted.{IsPermutation, IsNonDecreasingBy};
ghost use Rattle.perf_base.specs.Dynamic.{order_of};
ghost use Rattle.perf_sections.specs.Descriptions.{first_name, descriptions, descriptions_in};
ghost use Rattle.perf_sections.specs.NamePlaces as places;
ghost use Rattle.perf_sections.specs.declared.descriptions.EventKey.{EventKey};
ghost use Rattle.perf_sections.specs.declared.name_places.NamePlace.{NamePlace};
ghost use Rattle.perf_sections.specs.declared.section.Section.{Section};

use crate::descriptions::{EventKey, description_length, is_whole, key_in, name_place};
use crate::id_place::number_if;
use crate::number::small_number_at;
use crate::section::Section;
use perf_base::endian::Dynamic;

/// Events with one key, and where their name is.
#[repr(C)]
#[derive(Copy, Clone, Debug)]
pub struct NamePlace {
    /// 0 if they are found by their first id, or the type of events without ids and 1.
    pub kind: u64,
    /// That id, or the config of events without ids.
    pub number: u64,
    /// Where their name is among the descriptions. It begins at 0 if it was not found.
    pub name: Section,
}

// The first of so many ids that begin at an offset, if its bytes are there.
fn first_id_at(order: Dynamic, bytes: &[u8], at: u64, count: u64) -> Option<u64>
    ensures value { result ≡ places.first_id_at (order_of order) bytes.now at count }
    ensures fits { IfSome result (λ id. id < 2 ^ 64) }
{
    if count == 0 {
        return None;
    }
    match number_if(order, bytes, at as usize) {
        Some(id) => Some(id),
        None => None,
    }
}

/// By what an event is found among descriptions: its type, its config, and the first of so many ids that
/// begin at an offset.
pub fn key_at(order: Dynamic, bytes: &[u8], ty: u32, config: u64, at: u64, count: u64) -> EventKey
    ensures value { result ≡ places.key_at (order_of order) bytes.now ty config at count }
    ensures fits { places.Fits result }
{
    EventKey {
        type_: ty,
        config,
        id: first_id_at(order, bytes, at, count),
    }
}

/// Events with a key, whose name was not found.
pub fn unnamed(key: EventKey) -> NamePlace
    ensures { result ≡ places.unnamed key }
{
    let name = Section { start: 0, size: 0 };
    match key.id {
        Some(id) => NamePlace {
            kind: 0,
            number: id,
            name,
        },
        None => NamePlace {
            kind: u64::from(key.type_) + 1,
            number: key.config,
            name,
        },
    }
}

// Both numbers of a key as one, by which they are sorted.
fn rank(place: &NamePlace) -> u128
    ensures { result ≡ places.rank place.now }
{
    u128::from(place.kind) * 0x1_0000_0000_0000_0000 + u128::from(place.number)
}

// Where the first events with a key are.
fn index_of(names: &[NamePlace], key: EventKey) -> Option<usize>
    ensures inside { IfSome result (λ index. index < length names.now) }
    ensures first { places.Rises names.now → MatchOption result
        (places.place_of names.now (places.rank_of key) ≡ None)
        (places.IsFirst names.now (places.rank_of key)) }
{
    let sought = rank(&unnamed(key));
    let at = names.partition_point(|place| rank(place) < sought);
    if at == names.len() {
        return None;
    }
    if rank(&names[at]) == sought {
        Some(at)
    } else {
        None
    }
}

/// Where the name of the events with a key is, by the places that [`find_names`] has found.
pub fn place_of(names: &[NamePlace], key: EventKey) -> Option<Section>
    ensures { places.Rises names.now →
        result ≡ places.place_of names.now (places.rank_of key) }
{
    match index_of(names, key) {
        Some(index) => Some(names[index].name),
        None => None,
    }
}

// Gives the events with a key their name, unless they have one.
fn put_name(names: &mut [NamePlace], key: EventKey, name: Section)
    requires { places.Rises names.old }
    ensures { names.new ≡ places.put (places.rank_of key) name names.old }
{
    let Some(index) = index_of(names, key) else {
        return;
    };
    if names[index].name.start > 0 {
        return;
    }
    names[index].name = name;
}

// Sorts events by their keys.
fn sort_keys(names: &mut [NamePlace])
    ensures same { IsPermutation names.old names.new }
    ensures sorted { places.Rises names.new }
{
    names.sort_unstable_by_key(|place| rank(place));
}

// Finds the names of events that are sorted by their keys, in so many descriptions with attributes of
// so many bytes.
fn find_among(order: Dynamic, size: u32, count: u32, bytes: &[u8], names: &mut [NamePlace])
    requires long { 64 ≤ size }
    requires room { 8 ≤ length bytes.now }
    requires sorted { places.Rises names.old }
    requires none { All places.IsUnnamed names.old }
    ensures sorted { places.Rises names.new }
    ensures kept { (rank : ℕ) → places.HasRank names.old rank → places.HasRank names.new rank }
    ensures named { places.AreNamed bytes.now names.new
        (λ key. first_name key (descriptions (order_of order) size count (drop 8 bytes.now))) }
{
    let mut at = 8;
    for _index in 0..count {
        let left = bytes.split_at(at).1;
        if !is_whole(order, size, left) {
            return;
        }
        let name = name_place(order, size, bytes, at);
        put_name(names, key_in(order, size, left), name);
        at += description_length(order, size, left);
    }
}

// Finds the names of events that are sorted by their keys.
fn find_sorted(order: Dynamic, bytes: &[u8], names: &mut [NamePlace])
    requires sorted { places.Rises names.old }
    requires none { All places.IsUnnamed names.old }
    ensures sorted { places.Rises names.new }
    ensures kept { (rank : ℕ) → places.HasRank names.old rank → places.HasRank names.new rank }
    ensures named { places.AreNamed bytes.now names.new
        (λ key. first_name key (descriptions_in (order_of order) bytes.now)) }
{
    if bytes.len() < 8 {
        return;
    }
    let (count, size) = (
        small_number_at(order, bytes, 0),
        small_number_at(order, bytes, 4),
    );
    if size >= 64 {
        find_among(order, size, count, bytes, names);
    }
}

/// Sorts events by their keys, and finds the name of each in these descriptions: of the first one that
/// has the key. Each description is read once. [`place_of`] returns what was found.
pub fn find_names(order: Dynamic, bytes: &[u8], names: &mut [NamePlace])
    requires { All places.IsUnnamed names.old }
    ensures sorted { places.Rises names.new }
    ensures kept { (place : NamePlace) → Contains names.old place →
        places.HasRank names.new (places.rank place) }
    ensures named { places.AreNamed bytes.now names.new
        (λ key. first_name key (descriptions_in (order_of order) bytes.now)) }
{
    sort_keys(names);
    find_sorted(order, bytes, names);
}
