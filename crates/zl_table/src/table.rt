ghost use Rattle.std.specs.Prelude.{◌≡◌, ◌↔◌, ◌+◌, ◌<◌, ◌≤◌, IsTrue, [], length, IfOk, OnOk, OnErr, IfErr, Some, IfSome, IfNone};
ghost use Rattle.std.specs.Bool.{OnTrue, OnFalse};
ghost use Rattle.zl_rights.specs.Numbers.{bits, takes};
ghost use Rattle.zl_rights.specs.Map.{get, has_key, update};
ghost use Rattle.zl_rights.specs.LookUp.{looked_up};
ghost use Rattle.std.specs.Vec.{vec_capacity};
ghost use Rattle.zl_table.specs.Stored.{free_stored, handles_stored};
ghost use Rattle.zl_rights.specs.Values.{CAPACITY, IsFree, given_back, new_free, offered, taken};
ghost use Rattle.zl_table.specs.Table.{MOST_VALUE, IsFull, IsTable, Inserts, Removes, Undoes, TakesBack, has_named, refused_entry};

use slab::Slab;
use std::alloc::{AllocError, Global};
use std::marker::Model;
use zl_rights::{Entry, HValue, Kind, Koid, Rights, Status};

/// Why an insertion was refused. Each has the entry that was to go in.
///
/// Source: own profile.
#[derive(Debug, Drop)]
pub enum InsertFault {
    /// The table holds `Table::CAPACITY` handles.
    Full(Entry),
    /// There was no memory for one more handle. (The slab's next key is compared with the value that
    /// the handle is to get, and where they differed this would be answered; they never do.)
    NoMemory(Entry),
}

/// The handles of a process by their values, the values that insertions get, and the value removed last.
///
/// Source: the page "Handles" of the Fuchsia documentation; which value a handle gets is own profile.
#[derive(Drop)]
pub struct Table {
    // The value of a handle is its key plus 1.
    slots: Slab<Entry>,
    // The values that were freed and not given since, the last one last; there is room for each that
    // was made, so that a removal takes no memory.
    freed: Vec<HValue>,
    // The values that were made are 1 to this one.
    made: HValue,
    last: Option<HValue>,
    // Where a drain goes on, so that it reads no empty slot twice. Any number would do.
    drained: usize,
}

impl Model for Table {
    ghost use Rattle.std.specs.Vec.{vec_capacity};
    ghost use Rattle.zl_table.specs.Table.{Handles};
    ghost use Rattle.zl_table.specs.Stored.{table_in, IsStored};

    ghost Value = { Handles };

    ghost view = { λ t. table_in t.slots t.freed.items t.made t.last };

    ghost invariant = { λ t. IsStored t.slots t.freed.items t.made (vec_capacity t.freed) t.last };
}

impl Table {
    /// The most handles that a table holds (own profile).
    pub const CAPACITY: usize = 1024;
    /// The greatest value of a handle (own profile).
    const MOST_VALUE: usize = 65_535;

    /// A table with no handles. It takes no memory.
    pub fn new(alloc: Global) -> Table
        ensures entries { result.entries ≡ [] }
        ensures last { result.last ≡ None }
        ensures free { result.free ≡ new_free }
    {
        Table {
            slots: Slab::new(alloc),
            freed: Vec::new(alloc),
            made: 0,
            last: None,
            drained: 0,
        }
    }

    /// Another table like this one: the same handles at the same values, and insertions get the same
    /// values from it. Only memory can be refused.
    ///
    /// Source: own profile.
    pub fn copy(&self, alloc: Global) -> Result<Table, AllocError>
        ensures { IfOk result (λ table. table ≡ self.now) }
    {
        Ok(Table {
            slots: self.slots.clone()?,
            freed: copied_freed(alloc, &self.freed, self.made)?,
            made: self.made,
            last: self.last,
            drained: self.drained,
        })
    }

    /// Whether the other table is the same: its handles, the value removed last, and the values that
    /// insertions get.
    ///
    /// Source: own profile.
    pub fn is_same(&self, other: &Table) -> bool
        ensures { IsTrue result ↔ self.now ≡ other.now }
    {
        // How many values were made follows from the rest, but tells many tables apart at once.
        if self.made != other.made || self.last != other.last {
            return false;
        }
        if self.freed.as_slice() != other.freed.as_slice() {
            return false;
        }
        are_same_handles(&self.slots, &other.slots)
    }

    /// How many handles the table holds.
    pub fn len(&self) -> usize
        ensures count { result ≡ length self.now.entries }
        // What is public of the invariant: callers learn it here of any table.
        ensures table { IsTable self.now.entries }
        ensures free { IsFree self.now.entries self.now.free }
    {
        self.slots.len()
    }

    /// Whether the table holds no handle.
    pub fn is_empty(&self) -> bool
        ensures { IsTrue result ↔ (self.now.entries ≡ []) }
    {
        self.slots.is_empty()
    }

    /// The entry at the value, or nothing where the value isn't live.
    pub fn get(&self, value: HValue) -> Option<Entry>
        ensures { result ≡ get self.now.entries value }
    {
        self.slots.get(key_of(value)).copied()
    }

    /// The entry at the value, which is live. It takes no memory.
    pub fn entry(&self, value: HValue) -> Entry
        requires live { IsTrue (has_key self.now.entries value) }
        ensures { get self.now.entries value ≡ Some result }
    {
        self.slots[key_of(value)]
    }

    /// The entry at the value, if it is of one of the kinds and has the rights. No kinds stand for
    /// any kind.
    ///
    /// `BadHandle` where the value isn't live; else `WrongType` where its kind is none of the
    /// kinds; else `AccessDenied` where it lacks one of the rights.
    /// Source: the page "Zircon errors" of the Fuchsia documentation; the order is own profile.
    pub fn lookup(&self, value: HValue, kinds: &[Kind], rights: Rights) -> Result<Entry, Status>
        ensures { result ≡ looked_up self.now.entries value kinds.now (bits rights) }
    {
        let Some(entry) = self.get(value) else {
            return Err(Status::BadHandle);
        };
        if !is_asked_for(kinds, entry.kind) {
            return Err(Status::WrongType);
        }
        if !rights.within(entry.rights) {
            return Err(Status::AccessDenied);
        }
        Ok(entry)
    }

    /// Whether a handle names the object and has these rights at least. It looks at one handle after
    /// another, and takes no memory.
    ///
    /// Source: own profile.
    pub fn has_named(&self, koid: Koid, rights: Rights) -> bool
        ensures { result ≡ has_named self.now.entries koid (bits rights) }
    {
        self.slots.iter().any(|(_, entry)| entry.koid == koid && rights.within(entry.rights))
    }

    /// Gives the entry a value that isn't live: the value freed last and not given since, or a fresh
    /// one.
    ///
    /// `Full` where the table holds `CAPACITY` handles, and at no other time; `NoMemory` where there
    /// is no memory.
    ///
    /// Source: own profile.
    pub fn insert(&mut self, entry: Entry) -> Result<HValue, InsertFault>
        ensures ok { IfOk result (λ value. Inserts self.old entry value self.new) }
        ensures unchanged { OnErr result (self.new ≡ self.old) }
        ensures handed_back { IfErr result (λ fault. refused_entry fault ≡ entry) }
        ensures full { IsFull self.old → result ≡ Err (InsertFault.Full entry) }
        ensures full_only { result ≡ Err (InsertFault.Full entry) → IsFull self.old }
    {
        if self.slots.len() == Table::CAPACITY {
            return Err(InsertFault::Full(entry));
        }
        let key = self.slots.vacant_key();
        let value = next_value(&self.freed, self.made);
        if key != key_of(value) {
            return Err(InsertFault::NoMemory(entry));
        }
        if make_room(&mut self.freed, self.made).is_err() {
            return Err(InsertFault::NoMemory(entry));
        }
        match self.slots.insert(entry) {
            Ok(_) => {
                take_value(&mut self.freed, &mut self.made);
                self.last = None;
                Ok(value)
            }
            Err(failed) => Err(InsertFault::NoMemory(failed.value)),
        }
    }

    /// Takes the entry at the value out, if the value is live. It takes no memory.
    ///
    /// Source: the page "zx_handle_close" of the Fuchsia documentation.
    pub fn remove(&mut self, value: HValue) -> Option<Entry>
        ensures found { IfSome result (λ entry. Removes self.old value entry self.new) }
        ensures missing { IfNone result (get self.old.entries value ≡ None) }
        ensures unchanged { IfNone result (self.new ≡ self.old) }
    {
        let entry = self.slots.try_remove(key_of(value))?;
        give_back(&mut self.freed, &mut self.made, value);
        self.last = Some(value);
        Some(entry)
    }

    /// The value removed last, or nothing where no value was removed or an insertion or a `rewrite`
    /// came since. It takes no memory.
    ///
    /// Source: own profile.
    pub fn last(&self) -> Option<HValue>
        ensures last { result ≡ self.now.last }
        // It is what the next insertion gets.
        ensures offered { IfSome result (λ value.
            value ≡ offered self.now.free) }
    {
        self.last
    }

    /// Takes the entry at the value out, if the value is live, and leaves `last` as the value removed
    /// last. It takes no memory.
    ///
    /// With what `last` answered before an insertion this takes the insertion back. Of several
    /// insertions the last one is taken back first.
    ///
    /// Source: own profile.
    pub fn undo(&mut self, value: HValue, last: Option<HValue>) -> Option<Entry>
        requires told { IfSome last (λ v. v ≡ value) }
        ensures found { IfSome result (λ entry. Undoes self.old value last entry self.new) }
        ensures missing { IfNone result (get self.old.entries value ≡ None) }
        ensures unchanged { IfNone result (self.new ≡ self.old) }
        ensures taken_back { TakesBack self.old value last result self.new }
    {
        let entry = self.remove(value)?;
        self.last = last;
        Some(entry)
    }

    /// Gives the handle at the value these rights, and says whether the value is live. Afterwards
    /// no value counts as removed last.
    ///
    /// Source: the page "zx_handle_replace" of the Fuchsia documentation; that the value stays is
    /// own profile.
    pub fn rewrite(&mut self, value: HValue, rights: Rights) -> bool
        ensures live { result ≡ has_key self.old.entries value }
        ensures entries { self.new.entries
            ≡ update self.old.entries value (λ entry. record entry { rights = rights }) }
        ensures free { self.new.free ≡ self.old.free }
        ensures last { OnTrue result (self.new.last ≡ None) }
        ensures unchanged { OnFalse result (self.new ≡ self.old) }
    {
        let Some(entry) = self.slots.get_mut(key_of(value)) else {
            return false;
        };
        entry.rights = rights;
        self.last = None;
        true
    }

    /// Takes one entry out, whichever it is, and tells its value, or nothing where the table is empty. It
    /// takes no memory, and one call after another takes time for the values that there were, whichever
    /// are left.
    ///
    /// Source: own profile.
    pub fn drain(&mut self) -> Option<(HValue, Entry)>
        ensures some { IfSome result (λ taken. Removes self.old taken.0 taken.1 self.new) }
        ensures empty { IfNone result (self.old.entries ≡ []) }
        ensures unchanged { IfNone result (self.new ≡ self.old) }
    {
        let key = self.next_key()?;
        self.drained = key + 1;
        let value = key as u32 + 1;
        Some((value, self.remove(value)?))
    }

    /// A key at which an entry stands: the first where a drain goes on, if there is one, and else the
    /// first of all.
    fn next_key(&self) -> Option<usize>
        ensures live { IfSome result (λ key. IsTrue (has_key self.now.entries (key + 1))) }
        ensures low { IfSome result (λ key. key < MOST_VALUE) }
        ensures empty { IfNone result (self.now.entries ≡ []) }
    {
        for key in self.drained..self.slots.capacity() {
            if self.slots.contains(key) {
                return Some(key);
            }
        }
        let (key, _) = self.slots.iter().next()?;
        Some(key)
    }
}

/// The freed values once more, with room for each value that was made.
fn copied_freed(alloc: Global, freed: &[HValue], made: HValue) -> Result<Vec<HValue>, AllocError>
    ensures values { IfOk result (λ copy. copy.items ≡ freed.now) }
    ensures room { IfOk result (λ copy. made ≤ vec_capacity copy) }
{
    let mut copy = Vec::with_capacity(alloc, made as usize)?;
    copy.extend_from_slice(freed)?;
    Ok(copy)
}

/// Whether the same handles stand at the same values.
fn are_same_handles(one: &Slab<Entry>, other: &Slab<Entry>) -> bool
    ensures { IsTrue result ↔ handles_stored one.now ≡ handles_stored other.now }
{
    one.iter().eq(other.iter())
}

/// The value that the next insertion gets.
fn next_value(freed: &Vec<HValue>, made: HValue) -> HValue
    requires { made ≤ CAPACITY }
    ensures { result ≡ offered (free_stored freed.now.items made) }
{
    match freed.last() {
        Some(value) => *value,
        None => made + 1,
    }
}

/// Makes room for one value more to be freed, if the next insertion makes it.
fn make_room(freed: &mut Vec<HValue>, made: HValue) -> Result<(), AllocError>
    requires { made ≤ CAPACITY }
    ensures values { freed.new.items ≡ freed.old.items }
    ensures room { OnOk result (length freed.old.items ≡ 0 → made + 1 ≤ vec_capacity freed.new) }
    ensures grown { vec_capacity freed.old ≤ vec_capacity freed.new }
{
    if freed.is_empty() {
        freed.reserve(made as usize + 1)?;
    }
    Ok(())
}

/// The next insertion gets its value.
fn take_value(freed: &mut Vec<HValue>, made: &mut HValue)
    requires { made.old ≤ CAPACITY }
    ensures free { free_stored freed.new.items made.new
        ≡ taken (free_stored freed.old.items made.old) }
    ensures room { vec_capacity freed.new ≡ vec_capacity freed.old }
{
    if freed.pop().is_none() {
        *made += 1;
    }
}

/// The value is free again.
fn give_back(freed: &mut Vec<HValue>, made: &mut HValue, value: HValue)
    requires some { 0 < value }
    requires room { length freed.old.items < vec_capacity freed.old }
    ensures free { free_stored freed.new.items made.new
        ≡ given_back value (free_stored freed.old.items made.old) }
    ensures room { vec_capacity freed.new ≡ vec_capacity freed.old }
{
    if freed.is_empty() && value == *made {
        *made -= 1;
    } else {
        freed.push_reserved(value);
    }
}

/// Whether a handle of this kind is asked for; no kinds stand for any.
fn is_asked_for(kinds: &[Kind], kind: Kind) -> bool
    ensures { result ≡ takes kinds.now kind }
{
    kinds.is_empty() || kinds.contains(&kind)
}

/// The key of the value; for 0, which is no value, one above all keys of handles.
fn key_of(value: HValue) -> usize
    ensures above { 0 < value → result + 1 ≡ value }
    ensures zero { value ≡ 0 → MOST_VALUE ≤ result }
{
    match value.checked_sub(1) {
        Some(key) => key as usize,
        None => Table::MOST_VALUE,
    }
}
