//! Places for the names of one byte from `1` to `>`, among which are those of argument lists.
ghost use Rattle.std.specs.Prelude.{◌≡◌, ◌<◌, suc, length, string_bytes, OnOk};
ghost use Rattle.std.specs.Option.{option_copied};
ghost use Rattle.std.specs.Ordering.{nat_cmp, is_lt};
ghost use Rattle.std.specs.Cmp.Lexicographic.{slice_cmp};
ghost use Rattle.jam_journal.specs.Tables.{lent_row};
ghost use Rattle.jam_journal.specs.Slots.{slot_of, fixed_name, slot_value, with_value, back_value, with_entry, with_entries, smaller, AreSlots, IsGrown};

use b2_base::fault::OutOfMemory;
use std::alloc::Global;
use std::mem;

/// What is kept at a place.
#[derive(Drop)]
pub struct Slot<V: Drop> {
    /// The name of the place.
    pub key: String,
    /// The value of the name, if it has one.
    pub value: Option<V>,
}

/// The place of a name, if it has one. Takes no memory.
pub fn slot_of(name: &str) -> Option<usize>
    ensures { result ≡ slot_of name.now }
{
    match name.as_bytes() {
        [byte] if b'0' < *byte && *byte < b'?' => Some((*byte - b'1') as usize),
        _ => None,
    }
}

/// The name of a place, and from 14 on the empty text.
pub fn fixed_name(place: usize) -> &'static str
    ensures { result.now ≡ fixed_name place }
{
    match place {
        0 => "1",
        1 => "2",
        2 => "3",
        3 => "4",
        4 => "5",
        5 => "6",
        6 => "7",
        7 => "8",
        8 => "9",
        9 => ":",
        10 => ";",
        11 => "<",
        12 => "=",
        13 => ">",
        _ => "",
    }
}

/// What slots have at a place. Takes no memory.
pub fn value_of<V: Drop>(slots: &[Slot<V>], place: usize) -> Option<&V>
    ensures { option_copied result ≡ slot_value slots.now place }
{
    if place < slots.len() {
        slots[place].value.as_ref()
    } else {
        None
    }
}

/// Sets the value at a place, if there is a slot, and answers the one before. Takes no memory.
pub fn set<V: Drop>(slots: &mut Vec<Slot<V>>, place: usize, value: Option<V>) -> Option<V>
    ensures before { result ≡ slot_value slots.old.items place }
    ensures after { slots.new.items ≡ with_value slots.old.items place value }
{
    if place < slots.len() {
        mem::replace(&mut slots[place].value, value)
    } else {
        None
    }
}

/// Sets the value at a place that has one, and answers the one before. Takes no memory.
pub fn replace<V: Drop>(slots: &mut Vec<Slot<V>>, place: usize, value: V) -> Option<V>
    ensures before { result ≡ slot_value slots.old.items place }
    ensures after { slots.new.items ≡ back_value slots.old.items place (Some value) }
{
    match value_of(slots.as_slice(), place) {
        Some(_) => set(slots, place, Some(value)),
        None => None,
    }
}

/// Adds a slot without a value.
fn add_vacant<V: Drop>(alloc: Global, slots: &mut Vec<Slot<V>>) -> Result<(), OutOfMemory>
    requires slots { AreSlots 0 slots.old.items }
    requires room { length slots.old.items < 14 }
    ensures grown { IsGrown slots.old.items slots.new.items }
    ensures one_more { OnOk result (length slots.new.items ≡ suc (length slots.old.items)) }
{
    let key = String::from_str(alloc, fixed_name(slots.len()))?;
    slots.push(Slot { key, value: None })?;
    Ok(())
}

/// Adds slots without a value until there is one for a place. After an error some may have been added.
pub fn grow<V: Drop>(
    alloc: Global,
    slots: &mut Vec<Slot<V>>,
    place: usize,
) -> Result<(), OutOfMemory>
    requires slots { AreSlots 0 slots.old.items }
    requires place { place < 14 }
    ensures grown { IsGrown slots.old.items slots.new.items }
    ensures there { OnOk result (place < length slots.new.items) }
{
    'slots: while slots.len() <= place {
        add_vacant(alloc, slots)?;
    }
    Ok(())
}

/// Whether a name stands before another one in byte order.
fn is_smaller(name: &str, other: &str) -> bool
    ensures { result ≡ is_lt (slice_cmp nat_cmp name.now other.now) }
{
    name < other
}

/// How many of the first entries of a row have a smaller name. Takes no memory.
fn smaller<V>(name: &str, row: &[(&String, &V)]) -> usize
    ensures { result ≡ smaller name.now (lent_row row.now) }
{
    for place in 0..row.len() {
        if !is_smaller(row[place].0.as_str(), name) {
            return place;
        }
    }
    row.len()
}

/// Adds what a slot has to a row, in its place.
fn add_entry<'a, V: Drop>(
    slot: &'a Slot<V>,
    row: &mut Vec<(&'a String, &'a V)>,
) -> Result<(), OutOfMemory>
    ensures { OnOk result (lent_row row.new.items ≡ with_entry (string_bytes slot.now.key) slot.now.value (lent_row row.old.items)) }
{
    if let Some(value) = &slot.value {
        let place = smaller(slot.key.as_str(), row.as_slice());
        row.insert(place, (&slot.key, value))?;
    }
    Ok(())
}

/// Adds what slots have to a row, each value in its place.
pub fn add_entries<'a, V: Drop>(
    slots: &'a [Slot<V>],
    row: &mut Vec<(&'a String, &'a V)>,
) -> Result<(), OutOfMemory>
    ensures { OnOk result (lent_row row.new.items ≡ with_entries slots.now (lent_row row.old.items)) }
{
    match slots {
        [] => Ok(()),
        [first, more @ ..] => {
            add_entries(more, row)?;
            add_entry(first, row)
        }
    }
}
