//! What perf states about each event for readers of the file.

ghost use Rattle.std.specs.Prelude.{◌≡◌, ◌+◌, ◌≤◌, ◌<◌, ◌^◌, Some, length, drop, IsTrue};
ghost use Rattle.perf_base.specs.Dynamic.{order_of};
ghost use Rattle.perf_sections.specs.Descriptions as descriptions;
ghost use Rattle.perf_sections.specs.NamePlaces as places;

use crate::number::{bytes_at, number_at, small_number_at};
use crate::section::Section;
use perf_base::endian::Dynamic;

/// By what an event is found among the descriptions.
#[derive(Copy, Clone, Debug)]
pub struct EventKey {
    /// The type of its attribute.
    pub type_: u32,
    /// The config of its attribute.
    pub config: u64,
    /// Its first id.
    pub id: Option<u64>,
}

// How many bytes the name of a description has, after an attribute of so many bytes.
fn text_length(order: Dynamic, size: u32, bytes: &[u8]) -> usize
    requires { size + 8 ≤ length bytes.now }
    ensures value { result ≡ descriptions.text_length (order_of order) size bytes.now }
    ensures bound { result < 2 ^ 32 }
{
    small_number_at(order, bytes, size as usize + 4) as usize
}

// How many ids it has.
fn id_count(order: Dynamic, size: u32, bytes: &[u8]) -> usize
    requires { size + 8 ≤ length bytes.now }
    ensures value { result ≡ descriptions.id_count (order_of order) size bytes.now }
    ensures bound { result < 2 ^ 32 }
{
    small_number_at(order, bytes, size as usize) as usize
}

// Where its ids begin.
fn ids_at(order: Dynamic, size: u32, bytes: &[u8]) -> usize
    requires { size + 8 ≤ length bytes.now }
    ensures value { result ≡ descriptions.ids_at (order_of order) size bytes.now }
    ensures bound { result < 2 ^ 34 }
{
    size as usize + 8 + text_length(order, size, bytes)
}

// How many bytes it takes.
pub fn description_length(order: Dynamic, size: u32, bytes: &[u8]) -> usize
    requires { size + 8 ≤ length bytes.now }
    ensures { result ≡ descriptions.description_length (order_of order) size bytes.now }
{
    ids_at(order, size, bytes) + 8 * id_count(order, size, bytes)
}

// Whether its bytes are there.
pub fn is_whole(order: Dynamic, size: u32, bytes: &[u8]) -> bool
    ensures { result ≡ descriptions.is_whole (order_of order) size bytes.now }
{
    if bytes.len() < size as usize + 8 {
        return false;
    }
    description_length(order, size, bytes) <= bytes.len()
}

// Its first id.
fn first_id(order: Dynamic, size: u32, bytes: &[u8]) -> Option<u64>
    requires { IsTrue (descriptions.is_whole (order_of order) size bytes.now) }
    ensures { result ≡ descriptions.first_id (order_of order) size bytes.now }
{
    if id_count(order, size, bytes) == 0 {
        None
    } else {
        Some(number_at(order, bytes, ids_at(order, size, bytes)))
    }
}

// The bytes before the first zero.
pub fn before_zero(bytes: &[u8]) -> &[u8]
    ensures { result.now ≡ descriptions.before_zero bytes.now }
{
    for index in 0..bytes.len() {
        if bytes[index] == 0 {
            return bytes.split_at(index).0;
        }
    }
    bytes
}

// Its key.
pub fn key_in(order: Dynamic, size: u32, bytes: &[u8]) -> EventKey
    requires long { 64 ≤ size }
    requires whole { IsTrue (descriptions.is_whole (order_of order) size bytes.now) }
    ensures value { result ≡ places.key_in (descriptions.description_in (order_of order) size bytes.now) }
    ensures fits { places.Fits result }
{
    EventKey {
        type_: small_number_at(order, bytes, 0),
        config: number_at(order, bytes, 8),
        id: first_id(order, size, bytes),
    }
}

// Where the name of the description is that begins at an offset of these bytes.
pub fn name_place(order: Dynamic, size: u32, bytes: &[u8], at: usize) -> Section
    requires inside { at ≤ length bytes.now }
    requires whole { IsTrue (descriptions.is_whole (order_of order) size (drop at bytes.now)) }
    ensures { places.name_at bytes.now result ≡ Some
        (descriptions.description_in (order_of order) size (drop at bytes.now)).name }
{
    let left = bytes.split_at(at).1;
    let text = bytes_at(left, size as usize + 8, text_length(order, size, left));
    Section {
        start: (at + size as usize + 8) as u64,
        size: before_zero(text).len() as u64,
    }
}
